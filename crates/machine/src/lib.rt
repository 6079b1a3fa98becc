// The machine: the solver's tasks and the materializer's walk as programs that emit what they test and count (definitions and theorems, in specs/ and proofs/).
#![tactic(auto)]
