// From the bytes that were judged to the promises: what the judge counts as taken are the steps that stand in the bytes, each accepted. Theorems alone; there is no code here.

#![tactic(auto)]
