// What merging neighbouring waits leaves as it was: every answer behind them, every promise, the state reached, and the verdict but for its count and places. Theorems alone; there is no code here.

#![tactic(auto)]
