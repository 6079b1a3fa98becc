// `read` and `write` of prepared files: lent bytes into lent tables and back, each with all its refusals in order.
#![tactic(auto)]

pub mod read;
pub mod write;
