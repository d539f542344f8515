// What is there to be timed beside the Rust (tools/bench), and no host links: streams that are read, each in one function of slices and
// numbers.
#![tactic(auto)]

pub mod every_field;
pub mod iterator;

pub use every_field::nazhdivar_fields;
pub use iterator::nazhdivar_nth;
