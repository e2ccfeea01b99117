// The number of an operation goes round: demand 3 for recordings of any length, and worked examples from states that no recording of the program's length reaches, as theorems that compute. There is no code here.

#![tactic(auto)]
