// The form of a prepared file: header, nodes, edges and texts, read into lent tables (refusals 2 to 5).
#![tactic(auto)]

pub mod fill;
pub mod kinds;
pub mod nodes;
pub mod numbers;
pub mod texts;
