// What is there to be run from outside (tools/ledger) and timed (tools/bench), and no host links: a text that is replayed, in one function of
// slices and numbers.
#![tactic(auto)]

pub mod replay;

pub use replay::nazhdivar_ledger;
