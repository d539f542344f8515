// The listing of a walk in a frame, written into lent memory (RULES: L1 to L9, L13). The text's length is measured first, and then, where there is
// room for all of it, it is written line by line.
#![tactic(auto)]

mod command;
mod line;
pub mod passes;

pub use passes::{listing_len, write_listing};
