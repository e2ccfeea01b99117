// What the lines of the plan board mean, from the bytes of two files on. Theorems alone; there is no code here.

#![tactic(auto)]
