// Sound stays sound: every step that is taken in a sound state leaves a sound state, and the start state of a sound configuration is sound. Theorems alone; there is no code here.

#![tactic(auto)]
