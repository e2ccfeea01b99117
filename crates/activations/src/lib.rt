// What counting activations promises: each trigger adds one below the top and is lost at it, a spawn takes one, and without the flag all is as it was. Theorems alone; there is no code here.

#![tactic(auto)]
