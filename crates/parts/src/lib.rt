// A recording judged in parts has the verdict of one judging without limits. Theorems alone; there is no code here.

#![tactic(auto)]
