// What the fields of the commands say that a device is sent.
ghost use Rattle.std.specs.Prelude.{◌≡◌};
ghost use Rattle.std.specs.Float.{binary32};
ghost use Rattle.std.specs.Float.Ieee.{to_bits};
ghost use Rattle.payloads.specs.Bytes.{
  device_time_ans_bytes,
  dl_channel_req_bytes,
  duty_cycle_req_bytes,
  link_adr_req_bytes,
  link_check_ans_bytes,
  new_channel_req_bytes,
  rx_param_setup_req_bytes,
  tx_param_setup_req_bytes,
};
ghost use Rattle.payloads.specs.Meanings.{max_duty_cycle_of};
ghost use Rattle.walk.specs.Command.{downlink_cmd};
ghost use Rattle.timed_reads.specs.Fields.{
  sum,
  worth,
  fields_of,
  device_time_ans_says,
  dl_channel_req_says,
  duty_cycle_req_says,
  link_adr_req_says,
  link_check_ans_says,
  new_channel_req_says,
  rx_param_setup_req_says,
  tx_param_setup_req_says,
};

use payloads::{
    DeviceTimeAnsPayload, DlChannelReqPayload, DownlinkMacCommand, DutyCycleReqPayload,
    LinkADRReqPayload, LinkCheckAnsPayload, NewChannelReqPayload, RXParamSetupReqPayload,
    TXParamSetupReqPayload,
};
use walk::{DownlinkStep, downlink_at};

fn link_check_ans(p: LinkCheckAnsPayload) -> u64
    ensures { result ≡ sum (link_check_ans_says (link_check_ans_bytes p)) }
{
    u64::from(p.margin()) + u64::from(p.gateway_count())
}

fn link_adr_req(p: LinkADRReqPayload) -> u64
    ensures { result ≡ sum (link_adr_req_says (link_adr_req_bytes p)) }
{
    let mask = p.channel_mask().as_ref();
    let redundancy = p.redundancy();
    u64::from(p.data_rate())
        + u64::from(p.tx_power())
        + u64::from(redundancy.channel_mask_control())
        + u64::from(redundancy.number_of_transmissions())
        + u64::from(mask[0])
        + u64::from(mask[1])
}

// The bits of the float.
fn max_duty_cycle_bits(p: DutyCycleReqPayload) -> u32
    ensures { result ≡ to_bits binary32 (max_duty_cycle_of (duty_cycle_req_bytes p)) }
{
    f32::to_bits(p.max_duty_cycle())
}

fn duty_cycle_req(p: DutyCycleReqPayload) -> u64
    ensures { result ≡ sum (duty_cycle_req_says (duty_cycle_req_bytes p)) }
{
    u64::from(p.max_duty_cycle_raw()) + u64::from(max_duty_cycle_bits(p))
}

fn rx_param_setup_req(p: RXParamSetupReqPayload) -> u64
    ensures { result ≡ sum (rx_param_setup_req_says (rx_param_setup_req_bytes p)) }
{
    let settings = p.dl_settings();
    u64::from(settings.rx1_dr_offset())
        + u64::from(settings.rx2_data_rate())
        + u64::from(p.frequency().value())
}

fn new_channel_req(p: NewChannelReqPayload) -> u64
    ensures { result ≡ sum (new_channel_req_says (new_channel_req_bytes p)) }
{
    let range = p.data_rate_range();
    u64::from(p.channel_index())
        + u64::from(p.frequency().value())
        + u64::from(range.max_data_rate())
        + u64::from(range.min_data_rate())
}

fn tx_param_setup_req(p: TXParamSetupReqPayload) -> u64
    ensures { result ≡ sum (tx_param_setup_req_says (tx_param_setup_req_bytes p)) }
{
    u64::from(p.downlink_dwell_time()) + u64::from(p.uplink_dwell_time()) + u64::from(p.max_eirp())
}

fn dl_channel_req(p: DlChannelReqPayload) -> u64
    ensures { result ≡ sum (dl_channel_req_says (dl_channel_req_bytes p)) }
{
    u64::from(p.channel_index()) + u64::from(p.frequency().value())
}

fn device_time_ans(p: DeviceTimeAnsPayload) -> u64
    ensures { result ≡ sum (device_time_ans_says (device_time_ans_bytes p)) }
{
    u64::from(p.seconds()) + u64::from(p.nano_seconds())
}

#[tactic(auto, unfolding(crate::specs::Fields::worth))]
fn command_worth(command: DownlinkMacCommand) -> u64
    ensures { result ≡ worth (downlink_cmd command) }
{
    match command {
        DownlinkMacCommand::LinkCheckAns(p) => link_check_ans(p),
        DownlinkMacCommand::LinkADRReq(p) => link_adr_req(p),
        DownlinkMacCommand::DutyCycleReq(p) => duty_cycle_req(p),
        DownlinkMacCommand::RXParamSetupReq(p) => rx_param_setup_req(p),
        DownlinkMacCommand::DevStatusReq(_) => 0,
        DownlinkMacCommand::NewChannelReq(p) => new_channel_req(p),
        DownlinkMacCommand::RXTimingSetupReq(p) => u64::from(p.delay()),
        DownlinkMacCommand::TXParamSetupReq(p) => tx_param_setup_req(p),
        DownlinkMacCommand::DlChannelReq(p) => dl_channel_req(p),
        DownlinkMacCommand::DeviceTimeAns(p) => device_time_ans(p),
    }
}

// Reads every field of every command that the walk hands out, and answers their sum modulo 2 ^ 32.
#[unsafe(no_mangle)]
pub extern "C" fn nazhdivar_fields(stream: &[u8]) -> u64
    ensures { result ≡ fields_of stream.now }
{
    let mut at: usize = 0;
    let mut total: u64 = 0;
    // A while, since there is no iterator over the steps: the proof speaks of the offset.
    while let DownlinkStep::Command(command, next) = downlink_at(stream, at) {
        total = (total + command_worth(command) % 4_294_967_296) % 4_294_967_296;
        at = next;
    }
    total
}
