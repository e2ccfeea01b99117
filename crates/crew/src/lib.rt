// What who trusts the line `accepted N` may rely on, said of the two files and their steps alone. Theorems alone; there is no code here.

#![tactic(auto)]
