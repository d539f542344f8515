ghost use Rattle.std.specs.Prelude.{◌≡◌};
ghost use Rattle.table.specs.Table.{flag_of};
ghost use Rattle.payloads.specs.Commands.{downlink_entry, downlink_bytes, in_five};

use crate::command_type::CommandType;
use crate::dev_status::DevStatusReqPayload;
use crate::device_time::DeviceTimeAnsPayload;
use crate::dl_channel::DlChannelReqPayload;
use crate::duty_cycle::DutyCycleReqPayload;
use crate::link_adr::LinkADRReqPayload;
use crate::link_check::LinkCheckAnsPayload;
use crate::new_channel::NewChannelReqPayload;
use crate::payload_bytes::PayloadBytes;
use crate::rx_param_setup::RXParamSetupReqPayload;
use crate::rx_timing_setup::RXTimingSetupReqPayload;
use crate::tx_param_setup::TXParamSetupReqPayload;

// A command that the network sends.
#[derive(Clone, Copy, PartialEq, Eq)]
pub enum DownlinkMacCommand {
    LinkCheckAns(LinkCheckAnsPayload),
    LinkADRReq(LinkADRReqPayload),
    DutyCycleReq(DutyCycleReqPayload),
    RXParamSetupReq(RXParamSetupReqPayload),
    DevStatusReq(DevStatusReqPayload),
    NewChannelReq(NewChannelReqPayload),
    RXTimingSetupReq(RXTimingSetupReqPayload),
    TXParamSetupReq(TXParamSetupReqPayload),
    DlChannelReq(DlChannelReqPayload),
    DeviceTimeAns(DeviceTimeAnsPayload),
}

// UplinkMacCommand has the same four methods. A trait of both would be possible. It was left: its impls would repeat every arm below, or call these
// methods, and both types stand in public signatures.
impl DownlinkMacCommand {
    pub fn len(self) -> usize
        ensures { result ≡ (downlink_entry self).size }
    {
        match self {
            DownlinkMacCommand::LinkCheckAns(_) => LinkCheckAnsPayload::len(),
            DownlinkMacCommand::LinkADRReq(_) => LinkADRReqPayload::len(),
            DownlinkMacCommand::DutyCycleReq(_) => DutyCycleReqPayload::len(),
            DownlinkMacCommand::RXParamSetupReq(_) => RXParamSetupReqPayload::len(),
            DownlinkMacCommand::DevStatusReq(_) => DevStatusReqPayload::len(),
            DownlinkMacCommand::NewChannelReq(_) => NewChannelReqPayload::len(),
            DownlinkMacCommand::RXTimingSetupReq(_) => RXTimingSetupReqPayload::len(),
            DownlinkMacCommand::TXParamSetupReq(_) => TXParamSetupReqPayload::len(),
            DownlinkMacCommand::DlChannelReq(_) => DlChannelReqPayload::len(),
            DownlinkMacCommand::DeviceTimeAns(_) => DeviceTimeAnsPayload::len(),
        }
    }

    pub fn uplink(self) -> bool
        ensures { result ≡ flag_of (downlink_entry self) }
    {
        false
    }

    pub fn cid(self) -> u8
        ensures { result ≡ (downlink_entry self).cid }
    {
        match self {
            DownlinkMacCommand::LinkCheckAns(_) => LinkCheckAnsPayload::cid(),
            DownlinkMacCommand::LinkADRReq(_) => LinkADRReqPayload::cid(),
            DownlinkMacCommand::DutyCycleReq(_) => DutyCycleReqPayload::cid(),
            DownlinkMacCommand::RXParamSetupReq(_) => RXParamSetupReqPayload::cid(),
            DownlinkMacCommand::DevStatusReq(_) => DevStatusReqPayload::cid(),
            DownlinkMacCommand::NewChannelReq(_) => NewChannelReqPayload::cid(),
            DownlinkMacCommand::RXTimingSetupReq(_) => RXTimingSetupReqPayload::cid(),
            DownlinkMacCommand::TXParamSetupReq(_) => TXParamSetupReqPayload::cid(),
            DownlinkMacCommand::DlChannelReq(_) => DlChannelReqPayload::cid(),
            DownlinkMacCommand::DeviceTimeAns(_) => DeviceTimeAnsPayload::cid(),
        }
    }

    pub fn bytes(self) -> PayloadBytes
        ensures { (result.len, result.bytes) ≡ in_five (downlink_bytes self) }
    {
        match self {
            DownlinkMacCommand::LinkCheckAns(p) => PayloadBytes::of(p.bytes()),
            DownlinkMacCommand::LinkADRReq(p) => PayloadBytes::of(p.bytes()),
            DownlinkMacCommand::DutyCycleReq(p) => PayloadBytes::of(p.bytes()),
            DownlinkMacCommand::RXParamSetupReq(p) => PayloadBytes::of(p.bytes()),
            DownlinkMacCommand::DevStatusReq(p) => PayloadBytes::of(p.bytes()),
            DownlinkMacCommand::NewChannelReq(p) => PayloadBytes::of(p.bytes()),
            DownlinkMacCommand::RXTimingSetupReq(p) => PayloadBytes::of(p.bytes()),
            DownlinkMacCommand::TXParamSetupReq(p) => PayloadBytes::of(p.bytes()),
            DownlinkMacCommand::DlChannelReq(p) => PayloadBytes::of(p.bytes()),
            DownlinkMacCommand::DeviceTimeAns(p) => PayloadBytes::of(p.bytes()),
        }
    }
}
