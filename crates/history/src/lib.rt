// What a recording tells of its calls, and what holds over every accepted recording. Definitions and theorems alone; there is no code here.

#![tactic(auto)]
