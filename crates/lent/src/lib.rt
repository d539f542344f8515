// The two forms over lent structs: an iterator that holds its stream, and the build over a slice of records.
#![tactic(auto)]

pub mod iterator;
pub mod records;

pub use iterator::{
    MacCommandIterator, nth_step, parse_downlink_mac_commands, parse_uplink_mac_commands,
};
pub use records::{build_four, build_records, records_len};
