// The small fields: three settings of one byte, the frequency, and the channel mask at two widths.
#![tactic(auto)]

pub mod channel_mask;
pub mod data_rate_range;
pub mod dl_settings;
pub mod frequency;
pub mod redundancy;

pub use channel_mask::{ChannelMask, ChannelMask2, ChannelMask9};
pub use data_rate_range::DataRateRange;
pub use dl_settings::DLSettings;
pub use frequency::Frequency;
pub use redundancy::Redundancy;
