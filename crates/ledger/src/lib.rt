// The ledger of parents (RULES: X1 to X17): a recorded exchange is replayed, and for each radio setting the request that set it is known.
#![tactic(auto)]

mod commands;
pub mod entries;
pub mod exchange;
mod judge;
mod lines;
mod memory;
pub mod settings;
mod taking;

ghost use Rattle.std.specs.Prelude.{◌≡◌};
ghost use Rattle.ledger.specs.Asked.{fresh_ledger};

pub use entries::{Entry, entry_at};
pub use exchange::{BadLine, replay_trace};
use memory::{CIDS, Parents, Queue, ROWS};
pub use settings::Parent;

#[derive(Clone, Copy)]
pub struct Ledger {
    // How many lines are counted and how many entries are listed, for callers to read.
    pub lines: u64,
    pub listed: usize,
    pending: [Queue; CIDS],
    held: [Parents; ROWS],
}

impl Ledger {
    // Before the first line: nothing is pending, and no setting has a parent.
    pub fn new() -> Ledger
        ensures { result ≡ fresh_ledger }
    {
        Ledger {
            lines: 0,
            listed: 0,
            pending: [Queue::default(); CIDS],
            held: [Parents::default(); ROWS],
        }
    }
}
