// What a ledger holds of each setting: the request that set it, its parent, and what that request says, by the readers of its payload.
ghost use Rattle.std.specs.Prelude.{◌<◌, ◌≡◌, ℕ, get_or, map};
ghost use Rattle.bits.specs.Bits.{bit_of};
ghost use Rattle.fields.specs.Lists.{low_first};
ghost use Rattle.ledger.specs.Asked.{in_hand};
ghost use Rattle.ledger.specs.Memory.{five_of, request_of, parents_in, held_in, channel_row, no_parents};
ghost use Rattle.ledger.specs.Parents.{shown};
ghost use Rattle.ledger.specs.Rows.{setting_of, parents_told};
ghost use Rattle.ledger.specs.Settings.{
  data_rate,
  tx_power,
  channel_mask,
  redundancy,
  max_duty_cycle,
  rx1_dr_offset,
  rx2_data_rate,
  rx2_frequency,
  delay,
  downlink_dwell_time,
  uplink_dwell_time,
  max_eirp,
  channel_frequency,
  channel_rates,
  downlink_frequency,
  says,
};

use crate::Ledger;
use crate::memory::{
    DL_CHANNEL, DUTY_CYCLE, LINK_ADR, NEW_CHANNEL, Parents, ROWS, RX_PARAM_SETUP, RX_TIMING_SETUP,
    TX_PARAM_SETUP,
};
use payloads::{
    DlChannelReqPayload, DutyCycleReqPayload, LinkADRReqPayload, NewChannelReqPayload,
    RXParamSetupReqPayload, RXTimingSetupReqPayload, TXParamSetupReqPayload,
};

// A setting's parent: where that request stands, what it says of the setting, and whether the parent before it said the same.
#[derive(Clone, Copy, PartialEq, Eq)]
pub struct Parent {
    pub line: u64,
    pub frame: u64,
    pub offset: u64,
    pub value: u32,
    pub unchanged: bool,
}

// The setting that is asked for, of a channel by its index. An enum and no closure: a contract names the setting by it (`setting_of`), for which
// alone the channel is there.
#[derive(Clone, Copy)]
enum Which {
    DataRate,
    TxPower,
    ChannelMask,
    Redundancy,
    MaxDutyCycle,
    Rx1DrOffset,
    Rx2DataRate,
    Rx2Frequency,
    Delay,
    DownlinkDwellTime,
    UplinkDwellTime,
    MaxEirp,
    ChannelFrequency(u8),
    ChannelRates(u8),
    DownlinkFrequency(u8),
}

// ---- What a payload says of a setting, by its reader.

// Two bytes as a number, the low byte first.
fn mask_number(mask: [u8; 2]) -> u32
    ensures { result ≡ low_first mask }
{
    u16::from_le_bytes(mask) as u32
}

fn flag_number(flag: bool) -> u32
    ensures { result ≡ bit_of flag }
{
    flag as u32
}

// Of a payload as one number, whose low byte is the payload's first.
fn said(which: Which, n: u64) -> u32
    ensures { result ≡ says (setting_of which) (five_of n) }
{
    let [a, b, c, d, e, ..] = n.to_le_bytes();
    match which {
        Which::DataRate => LinkADRReqPayload(a, b, c, d).data_rate() as u32,
        Which::TxPower => LinkADRReqPayload(a, b, c, d).tx_power() as u32,
        Which::ChannelMask => mask_number(LinkADRReqPayload(a, b, c, d).channel_mask().as_ref()),
        Which::Redundancy => LinkADRReqPayload(a, b, c, d).redundancy().raw_value() as u32,
        Which::MaxDutyCycle => DutyCycleReqPayload(a).max_duty_cycle_raw() as u32,
        Which::Rx1DrOffset => RXParamSetupReqPayload(a, b, c, d)
            .dl_settings()
            .rx1_dr_offset() as u32,
        Which::Rx2DataRate => RXParamSetupReqPayload(a, b, c, d)
            .dl_settings()
            .rx2_data_rate() as u32,
        Which::Rx2Frequency => RXParamSetupReqPayload(a, b, c, d).frequency().value(),
        Which::Delay => RXTimingSetupReqPayload(a).delay() as u32,
        Which::DownlinkDwellTime => flag_number(TXParamSetupReqPayload(a).downlink_dwell_time()),
        Which::UplinkDwellTime => flag_number(TXParamSetupReqPayload(a).uplink_dwell_time()),
        Which::MaxEirp => TXParamSetupReqPayload(a).max_eirp() as u32,
        Which::ChannelFrequency(_) => NewChannelReqPayload(a, b, c, d, e).frequency().value(),
        Which::ChannelRates(_) => NewChannelReqPayload(a, b, c, d, e)
            .data_rate_range()
            .raw_value() as u32,
        Which::DownlinkFrequency(_) => DlChannelReqPayload(a, b, c, d).frequency().value(),
    }
}

// ---- Answers.

impl Parents {
    // What is shown of a setting of this row.
    fn parent(self, which: Which) -> Option<Parent>
        ensures { (cid : ℕ) → result ≡ in_hand (shown (setting_of which) (map (request_of cid) (parents_in self))) }
    {
        let last = self.last?;
        let value = said(which, last.payload);
        let unchanged = match self.before {
            Some(before) => said(which, before.payload) == value,
            None => false,
        };
        Some(Parent {
            line: last.at.line,
            frame: last.at.frame,
            offset: last.at.offset,
            value,
            unchanged,
        })
    }
}

// A channel's row, from the row of channel 0 on; none of a channel over 15, which is not held.
fn channel_row(held: &[Parents; ROWS], first: usize, channel: u8) -> Option<Parents>
    requires { first < 22 }
    ensures { parents_told result ≡ parents_in (get_or held.now (channel_row first channel) no_parents) }
{
    if 15 < channel {
        return None;
    }
    Some(held[first + channel as usize])
}

impl Ledger {
    pub fn data_rate(self) -> Option<Parent>
        ensures { result ≡ in_hand (shown data_rate (held_in self.held data_rate)) }
    {
        self.held[LINK_ADR].parent(Which::DataRate)
    }

    pub fn tx_power(self) -> Option<Parent>
        ensures { result ≡ in_hand (shown tx_power (held_in self.held tx_power)) }
    {
        self.held[LINK_ADR].parent(Which::TxPower)
    }

    // The two bytes as a number, the low byte first.
    pub fn channel_mask(self) -> Option<Parent>
        ensures { result ≡ in_hand (shown channel_mask (held_in self.held channel_mask)) }
    {
        self.held[LINK_ADR].parent(Which::ChannelMask)
    }

    // The whole byte.
    pub fn redundancy(self) -> Option<Parent>
        ensures { result ≡ in_hand (shown redundancy (held_in self.held redundancy)) }
    {
        self.held[LINK_ADR].parent(Which::Redundancy)
    }

    // The number n of 1 / 2^n.
    pub fn max_duty_cycle(self) -> Option<Parent>
        ensures { result ≡ in_hand (shown max_duty_cycle (held_in self.held max_duty_cycle)) }
    {
        self.held[DUTY_CYCLE].parent(Which::MaxDutyCycle)
    }

    pub fn rx1_dr_offset(self) -> Option<Parent>
        ensures { result ≡ in_hand (shown rx1_dr_offset (held_in self.held rx1_dr_offset)) }
    {
        self.held[RX_PARAM_SETUP].parent(Which::Rx1DrOffset)
    }

    pub fn rx2_data_rate(self) -> Option<Parent>
        ensures { result ≡ in_hand (shown rx2_data_rate (held_in self.held rx2_data_rate)) }
    {
        self.held[RX_PARAM_SETUP].parent(Which::Rx2DataRate)
    }

    pub fn rx2_frequency(self) -> Option<Parent>
        ensures { result ≡ in_hand (shown rx2_frequency (held_in self.held rx2_frequency)) }
    {
        self.held[RX_PARAM_SETUP].parent(Which::Rx2Frequency)
    }

    pub fn delay(self) -> Option<Parent>
        ensures { result ≡ in_hand (shown delay (held_in self.held delay)) }
    {
        self.held[RX_TIMING_SETUP].parent(Which::Delay)
    }

    pub fn downlink_dwell_time(self) -> Option<Parent>
        ensures { result ≡ in_hand (shown downlink_dwell_time (held_in self.held downlink_dwell_time)) }
    {
        self.held[TX_PARAM_SETUP].parent(Which::DownlinkDwellTime)
    }

    pub fn uplink_dwell_time(self) -> Option<Parent>
        ensures { result ≡ in_hand (shown uplink_dwell_time (held_in self.held uplink_dwell_time)) }
    {
        self.held[TX_PARAM_SETUP].parent(Which::UplinkDwellTime)
    }

    pub fn max_eirp(self) -> Option<Parent>
        ensures { result ≡ in_hand (shown max_eirp (held_in self.held max_eirp)) }
    {
        self.held[TX_PARAM_SETUP].parent(Which::MaxEirp)
    }

    // Of a channel over 15 no parent is known, here and in the two below.
    pub fn channel_frequency(self, channel: u8) -> Option<Parent>
        ensures { result ≡ in_hand (shown (channel_frequency channel) (held_in self.held (channel_frequency channel))) }
    {
        channel_row(&self.held, NEW_CHANNEL, channel)?.parent(Which::ChannelFrequency(channel))
    }

    pub fn channel_rates(self, channel: u8) -> Option<Parent>
        ensures { result ≡ in_hand (shown (channel_rates channel) (held_in self.held (channel_rates channel))) }
    {
        channel_row(&self.held, NEW_CHANNEL, channel)?.parent(Which::ChannelRates(channel))
    }

    pub fn downlink_frequency(self, channel: u8) -> Option<Parent>
        ensures { result ≡ in_hand (shown (downlink_frequency channel) (held_in self.held (downlink_frequency channel))) }
    {
        channel_row(&self.held, DL_CHANNEL, channel)?.parent(Which::DownlinkFrequency(channel))
    }
}
