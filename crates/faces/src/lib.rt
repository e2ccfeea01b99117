// The types of the ground under one name, for definitions and proofs. There is no code here.

#![tactic(auto)]
