ghost use Rattle.std.specs.Prelude.{◌≡◌};
ghost use Rattle.table.specs.Table.{flag_of};
ghost use Rattle.payloads.specs.Commands.{uplink_entry, uplink_bytes, in_five};

use crate::command_type::CommandType;
use crate::dev_status::DevStatusAnsPayload;
use crate::device_time::DeviceTimeReqPayload;
use crate::dl_channel::DlChannelAnsPayload;
use crate::duty_cycle::DutyCycleAnsPayload;
use crate::link_adr::LinkADRAnsPayload;
use crate::link_check::LinkCheckReqPayload;
use crate::new_channel::NewChannelAnsPayload;
use crate::payload_bytes::PayloadBytes;
use crate::rx_param_setup::RXParamSetupAnsPayload;
use crate::rx_timing_setup::RXTimingSetupAnsPayload;
use crate::tx_param_setup::TXParamSetupAnsPayload;

// A command that a device sends.
#[derive(Clone, Copy, PartialEq, Eq)]
pub enum UplinkMacCommand {
    LinkCheckReq(LinkCheckReqPayload),
    LinkADRAns(LinkADRAnsPayload),
    DutyCycleAns(DutyCycleAnsPayload),
    RXParamSetupAns(RXParamSetupAnsPayload),
    DevStatusAns(DevStatusAnsPayload),
    NewChannelAns(NewChannelAnsPayload),
    RXTimingSetupAns(RXTimingSetupAnsPayload),
    TXParamSetupAns(TXParamSetupAnsPayload),
    DlChannelAns(DlChannelAnsPayload),
    DeviceTimeReq(DeviceTimeReqPayload),
}

// DownlinkMacCommand has the same four methods. A trait of both would be possible. It was left: its impls would repeat every arm below, or call these
// methods, and both types stand in public signatures.
impl UplinkMacCommand {
    pub fn len(self) -> usize
        ensures { result ≡ (uplink_entry self).size }
    {
        match self {
            UplinkMacCommand::LinkCheckReq(_) => LinkCheckReqPayload::len(),
            UplinkMacCommand::LinkADRAns(_) => LinkADRAnsPayload::len(),
            UplinkMacCommand::DutyCycleAns(_) => DutyCycleAnsPayload::len(),
            UplinkMacCommand::RXParamSetupAns(_) => RXParamSetupAnsPayload::len(),
            UplinkMacCommand::DevStatusAns(_) => DevStatusAnsPayload::len(),
            UplinkMacCommand::NewChannelAns(_) => NewChannelAnsPayload::len(),
            UplinkMacCommand::RXTimingSetupAns(_) => RXTimingSetupAnsPayload::len(),
            UplinkMacCommand::TXParamSetupAns(_) => TXParamSetupAnsPayload::len(),
            UplinkMacCommand::DlChannelAns(_) => DlChannelAnsPayload::len(),
            UplinkMacCommand::DeviceTimeReq(_) => DeviceTimeReqPayload::len(),
        }
    }

    pub fn uplink(self) -> bool
        ensures { result ≡ flag_of (uplink_entry self) }
    {
        true
    }

    pub fn cid(self) -> u8
        ensures { result ≡ (uplink_entry self).cid }
    {
        match self {
            UplinkMacCommand::LinkCheckReq(_) => LinkCheckReqPayload::cid(),
            UplinkMacCommand::LinkADRAns(_) => LinkADRAnsPayload::cid(),
            UplinkMacCommand::DutyCycleAns(_) => DutyCycleAnsPayload::cid(),
            UplinkMacCommand::RXParamSetupAns(_) => RXParamSetupAnsPayload::cid(),
            UplinkMacCommand::DevStatusAns(_) => DevStatusAnsPayload::cid(),
            UplinkMacCommand::NewChannelAns(_) => NewChannelAnsPayload::cid(),
            UplinkMacCommand::RXTimingSetupAns(_) => RXTimingSetupAnsPayload::cid(),
            UplinkMacCommand::TXParamSetupAns(_) => TXParamSetupAnsPayload::cid(),
            UplinkMacCommand::DlChannelAns(_) => DlChannelAnsPayload::cid(),
            UplinkMacCommand::DeviceTimeReq(_) => DeviceTimeReqPayload::cid(),
        }
    }

    pub fn bytes(self) -> PayloadBytes
        ensures { (result.len, result.bytes) ≡ in_five (uplink_bytes self) }
    {
        match self {
            UplinkMacCommand::LinkCheckReq(p) => PayloadBytes::of(p.bytes()),
            UplinkMacCommand::LinkADRAns(p) => PayloadBytes::of(p.bytes()),
            UplinkMacCommand::DutyCycleAns(p) => PayloadBytes::of(p.bytes()),
            UplinkMacCommand::RXParamSetupAns(p) => PayloadBytes::of(p.bytes()),
            UplinkMacCommand::DevStatusAns(p) => PayloadBytes::of(p.bytes()),
            UplinkMacCommand::NewChannelAns(p) => PayloadBytes::of(p.bytes()),
            UplinkMacCommand::RXTimingSetupAns(p) => PayloadBytes::of(p.bytes()),
            UplinkMacCommand::TXParamSetupAns(p) => PayloadBytes::of(p.bytes()),
            UplinkMacCommand::DlChannelAns(p) => PayloadBytes::of(p.bytes()),
            UplinkMacCommand::DeviceTimeReq(p) => PayloadBytes::of(p.bytes()),
        }
    }
}
