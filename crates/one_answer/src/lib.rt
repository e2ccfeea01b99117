// That each contract of the public face has one answer. Theorems alone; there is no code here.

#![tactic(auto)]
