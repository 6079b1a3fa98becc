// The public call, in two halves: refusal 1, the file, the solver and the first pass of the materializer; and its second pass, with spans in rows of words.
#![tactic(auto)]

pub mod call;
pub mod order;
pub mod page;
