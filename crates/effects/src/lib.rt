// What each step does, as definitions: its own guards, its answer and the state after it, and one step by its code. They stand in specs/; there is no code here.

#![tactic(auto)]
