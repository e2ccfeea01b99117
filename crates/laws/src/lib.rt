// Laws that every proof of the project may cite: choices, loops that count from 0, rows of places. No machine, and no code.

#![tactic(auto)]
