// To jump to a command of a long stream (RULES: J): entries, which are offsets of commands sixteen apart, and steps from the one that covers it.
// Rules and stream are two parameters in each function, as the public ones are asked for (docs/CLAIMS.md): one struct would be made at each call.
#![tactic(auto)]

pub mod entries;
pub mod jump;

pub use entries::make_entries;
pub use jump::{Spot, jump_to};
