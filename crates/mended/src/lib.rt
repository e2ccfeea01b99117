// What mending promises of a recording whose scheduler steps were lost: it is mended by the first sequences that fill its gaps, and accepted then. Theorems alone; there is no code here.

#![tactic(auto)]
