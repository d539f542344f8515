// What a program in C or Rust links: the walk, its listing, its entries and the jump by them, and the build down, each behind one function of slices
// and numbers.
#![tactic(auto)]

pub mod jump;
pub mod listing;
pub mod records;
pub mod streams;

pub use jump::{nazhdivar_entries, nazhdivar_jump};
pub use listing::{nazhdivar_listing, nazhdivar_listing_len};
pub use records::nazhdivar_build;
pub use streams::nazhdivar_count;
use table::{Direction, Rules};

// The rules of what a device is sent.
pub(crate) const DOWN: Rules = Rules {
    direction: Direction::Down,
};
