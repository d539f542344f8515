// Commands as records: those that a walk hands out, and what is built of any, the total and the bytes in order.
#![tactic(auto)]

pub mod handed;
pub mod list;
pub mod packed;
pub mod record;
pub mod sources;

pub use handed::{Handed, record_at};
pub use list::{BuildError, build_list, list_len};
pub use packed::{build_mac_commands, mac_commands_len};
pub use record::{Holds, Record};
