// A stream of MAC commands, taken apart: one step, the whole walk, and where in a frame the stream is. The public functions take rules and stream
// as two parameters: as one struct, each call would put them together.
#![tactic(auto)]

pub mod chooser;
pub mod command;
mod lanes;
pub mod step;
pub mod whole;

pub use chooser::{choose, choose_verdict};
pub use command::{CommandStep, DownlinkStep, UplinkStep, downlink_at, uplink_at};
pub use step::{Step, after_steps, payload_at, step_at};
pub use whole::{Outcome, WalkEnd, walk, walk_from};
