// What every crate above speaks of: the two directions, the command table, and the refusals with their numbers.
#![tactic(auto)]

pub mod refusal;
pub mod rules;

pub use refusal::Refusal;
pub use rules::{Direction, Rules};
