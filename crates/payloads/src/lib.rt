// The payload of each command as a type of its own, with the readers of its fields, and the commands of each direction.
#![tactic(auto)]

pub mod command_type;
pub mod dev_status;
pub mod device_time;
pub mod dl_channel;
pub mod downlink;
pub mod duty_cycle;
pub mod link_adr;
pub mod link_check;
pub mod new_channel;
pub mod payload_bytes;
pub mod rx_param_setup;
pub mod rx_timing_setup;
pub mod tx_param_setup;
pub mod uplink;

pub use command_type::CommandType;
pub use dev_status::{DevStatusAnsPayload, DevStatusReqPayload};
pub use device_time::{DeviceTimeAnsPayload, DeviceTimeReqPayload};
pub use dl_channel::{DlChannelAnsPayload, DlChannelReqPayload};
pub use downlink::DownlinkMacCommand;
pub use duty_cycle::{DutyCycleAnsPayload, DutyCycleReqPayload};
pub use link_adr::{LinkADRAnsPayload, LinkADRReqPayload};
pub use link_check::{LinkCheckAnsPayload, LinkCheckReqPayload};
pub use new_channel::{NewChannelAnsPayload, NewChannelReqPayload};
pub use payload_bytes::PayloadBytes;
pub use rx_param_setup::{RXParamSetupAnsPayload, RXParamSetupReqPayload};
pub use rx_timing_setup::{RXTimingSetupAnsPayload, RXTimingSetupReqPayload};
pub use tx_param_setup::{TXParamSetupAnsPayload, TXParamSetupReqPayload};
pub use uplink::UplinkMacCommand;
