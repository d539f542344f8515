// The creators: twenty images of CID and payload with their setters, and the two kinds that a list of commands is made of.
#![tactic(auto)]

pub mod creator;
pub mod dev_status;
pub mod device_time;
pub mod dl_channel;
pub mod duty_cycle;
mod engine;
pub mod kinds;
pub mod link_adr;
pub mod link_check;
pub mod new_channel;
pub mod rx_param_setup;
pub mod rx_timing_setup;
pub mod tx_param_setup;

pub use creator::Creator;
pub use dev_status::{DevStatusAnsCreator, DevStatusReqCreator};
pub use device_time::{DeviceTimeAnsCreator, DeviceTimeReqCreator};
pub use dl_channel::{DlChannelAnsCreator, DlChannelReqCreator};
pub use duty_cycle::{DutyCycleAnsCreator, DutyCycleReqCreator};
pub use kinds::{
    CommandKind, DownlinkKind, DownlinkMacCommandCreator, Entry, Image, MacCommandCreator,
    UplinkKind, UplinkMacCommandCreator,
};
pub use link_adr::{LinkADRAnsCreator, LinkADRReqCreator};
pub use link_check::{LinkCheckAnsCreator, LinkCheckReqCreator};
pub use new_channel::{NewChannelAnsCreator, NewChannelReqCreator};
pub use rx_param_setup::{RXParamSetupAnsCreator, RXParamSetupReqCreator};
pub use rx_timing_setup::{RXTimingSetupAnsCreator, RXTimingSetupReqCreator};
pub use tx_param_setup::{TXParamSetupAnsCreator, TXParamSetupReqCreator};
