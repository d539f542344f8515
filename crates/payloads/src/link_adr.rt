ghost use Rattle.std.specs.Prelude.{◌≡◌};
ghost use Rattle.table.specs.Table.{named};
ghost use Rattle.table.specs.Told.{told};
ghost use Rattle.fields.specs.Lists.{exactly};
ghost use Rattle.fields.specs.Places.{bytes_at, number_at, yes_at, link_adr_ans_channel_mask_ack, link_adr_ans_data_rate_ack, link_adr_ans_power_ack, link_adr_req_channel_mask, link_adr_req_data_rate, link_adr_req_redundancy, link_adr_req_tx_power};
ghost use Rattle.payloads.specs.Acceptance.{link_adr_ans_accepts};
ghost use Rattle.payloads.specs.Bytes.{link_adr_ans_bytes, link_adr_req_bytes};

use crate::command_type::CommandType;
use crate::payload_bytes::sized;
use fields::{ChannelMask2, Redundancy};
use table::Refusal;

// Sets the data rate, the power, the channels and the repetitions of the device.
#[derive(Clone, Copy, PartialEq, Eq)]
pub struct LinkADRReqPayload(pub u8, pub u8, pub u8, pub u8);

impl CommandType for LinkADRReqPayload {
    ghost command = { named "LinkADRReq" };

    fn cid() -> u8 {
        0x03
    }

    fn uplink() -> bool {
        false
    }

    fn len() -> usize {
        4
    }
}

impl From<[u8; 4]> for LinkADRReqPayload {
    ghost from_gives = { λ v r. link_adr_req_bytes r ≡ v };

    fn from([a, b, c, d]: [u8; 4]) -> Self {
        LinkADRReqPayload(a, b, c, d)
    }
}

impl LinkADRReqPayload {
    pub fn new(data: &[u8]) -> Result<Self, Refusal>
        ensures { told link_adr_req_bytes result ≡ exactly (named "LinkADRReq").size «data».now }
    {
        let [a, b, c, d]: [u8; 4] = sized(data)?;
        Ok(Self(a, b, c, d))
    }

    pub fn bytes(self) -> [u8; 4]
        ensures { result ≡ link_adr_req_bytes self }
    {
        [self.0, self.1, self.2, self.3]
    }

    // The data rate that the device should use for its next transmissions.
    pub fn data_rate(self) -> u8
        ensures { result ≡ number_at link_adr_req_data_rate (link_adr_req_bytes self) }
    {
        self.0 / 16
    }

    // The power that the device should use for its next transmissions.
    pub fn tx_power(self) -> u8
        ensures { result ≡ number_at link_adr_req_tx_power (link_adr_req_bytes self) }
    {
        self.0 % 16
    }

    // The channels usable for the next transmissions.
    pub fn channel_mask(self) -> ChannelMask2
        ensures { result.0 ≡ bytes_at link_adr_req_channel_mask (link_adr_req_bytes self) }
    {
        ChannelMask2::from([self.1, self.2])
    }

    // How the channel mask is to be understood, and how many times each message is to be sent.
    pub fn redundancy(self) -> Redundancy
        ensures { result.0 ≡ number_at link_adr_req_redundancy (link_adr_req_bytes self) }
    {
        Redundancy::new(self.3)
    }
}

// Tells which parts of a LinkADRReq the device applied.
#[derive(Clone, Copy, PartialEq, Eq)]
pub struct LinkADRAnsPayload(pub u8);

impl CommandType for LinkADRAnsPayload {
    ghost command = { named "LinkADRAns" };

    fn cid() -> u8 {
        0x03
    }

    fn uplink() -> bool {
        true
    }

    fn len() -> usize {
        1
    }
}

impl LinkADRAnsPayload {
    pub fn new(data: &[u8]) -> Result<Self, Refusal>
        ensures { told link_adr_ans_bytes result ≡ exactly (named "LinkADRAns").size «data».now }
    {
        let [a]: [u8; 1] = sized(data)?;
        Ok(Self(a))
    }

    pub fn bytes(self) -> [u8; 1]
        ensures { result ≡ link_adr_ans_bytes self }
    {
        [self.0]
    }

    // Whether the channel mask was applied.
    pub fn channel_mask_ack(self) -> bool
        ensures { result ≡ yes_at link_adr_ans_channel_mask_ack (link_adr_ans_bytes self) }
    {
        bits::flag(self.0, 0)
    }

    // Whether the data rate was applied.
    pub fn data_rate_ack(self) -> bool
        ensures { result ≡ yes_at link_adr_ans_data_rate_ack (link_adr_ans_bytes self) }
    {
        bits::flag(self.0, 1)
    }

    // Whether the power was applied.
    pub fn powert_ack(self) -> bool
        ensures { result ≡ yes_at link_adr_ans_power_ack (link_adr_ans_bytes self) }
    {
        bits::flag(self.0, 2)
    }

    // Whether the device accepted the whole request.
    pub fn ack(self) -> bool
        ensures { result ≡ link_adr_ans_accepts (link_adr_ans_bytes self) }
    {
        self.0 == 0x07
    }
}
