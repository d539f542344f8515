// What is there to be timed beside the Rust (tools/bench), and no host links: lists that are built, each in one function of slices and
// numbers. Of these it is promised that they are safe, end, and answer no more bytes than there is room for; that they answer as the Rust
// does the driver tests before it times them.
#![tactic(auto)]

pub mod lists;
pub mod setting;

pub use lists::{nazhdivar_resend, nazhdivar_set, nazhdivar_set_four};
