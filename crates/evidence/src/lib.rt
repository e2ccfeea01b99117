// Worked examples of the definitions, as theorems that compute. There is no code here.

#![tactic(auto)]
