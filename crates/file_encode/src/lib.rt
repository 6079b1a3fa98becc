// The one file of tables, with both round trips (in specs/ and proofs/); in code, what tables can have wrong by themselves (3 and 4).
#![tactic(auto)]

pub mod faults;
