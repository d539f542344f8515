ghost use Rattle.std.proofs.Common.{rules};
ghost use Rattle.std.specs.Prelude.{◌≡◌};
ghost use Rattle.bits.specs.Bits.{bit_of};
ghost use Rattle.table.specs.Table.{named};
ghost use Rattle.table.specs.Told.{told_verdict};
ghost use Rattle.fields.specs.Places.{link_adr_req_data_rate, link_adr_req_tx_power, link_adr_req_channel_mask, link_adr_req_redundancy, link_adr_ans_channel_mask_ack, link_adr_ans_data_rate_ack, link_adr_ans_power_ack};
ghost use Rattle.creators.specs.Image.{default_of, checked_at, put_bytes, put_at};

use crate::creator::Creator;
use crate::engine::{flag, nibble};
use crate::kinds::{DownlinkKind, UplinkKind};
use fields::{ChannelMask2, Redundancy};
use table::Refusal;

#[derive(Clone, Copy)]
pub struct LinkADRReqCreator {
    pub(crate) data: [u8; 5],
}

impl Default for LinkADRReqCreator {
    ghost is_default = { λ r. r.«data» ≡ default_of (named "LinkADRReq") };

    // Not filled in: even the CID is 0.
    fn default() -> Self {
        LinkADRReqCreator { data: [0; 5] }
    }
}

impl Creator<5> for LinkADRReqCreator {
    type Kind = DownlinkKind;

    ghost command = { named "LinkADRReq" };

    ghost image = { λ c. c.«data» };

    ghost short = { Prim.search rules };

    fn new() -> Self {
        LinkADRReqCreator {
            data: [0x03, 0, 0, 0, 0],
        }
    }

    fn build(self) -> [u8; 5] {
        self.data
    }

    fn kind(self) -> DownlinkKind {
        DownlinkKind::LinkADRReq
    }
}

#[tactic(auto, unfolding(crate::specs::Image::checked_at, crate::specs::Image::put_at, crate::specs::Image::put_bytes))]
impl LinkADRReqCreator {
    // The data rate index, 0 to 15. A refusal leaves the creator as it was (RULES: F2).
    pub fn set_data_rate(&mut self, data_rate: u8) -> Result<(), Refusal>
        ensures { (told_verdict result, self.new.«data») ≡ checked_at link_adr_req_data_rate 7 self.old.«data» data_rate }
    {
        self.data[1] = nibble(self.data[1], 4, data_rate, Refusal::InvalidDataRate)?;
        Ok(())
    }

    // The TX power index, 0 to 15. A refusal leaves the creator as it was.
    pub fn set_tx_power(&mut self, tx_power: u8) -> Result<(), Refusal>
        ensures { (told_verdict result, self.new.«data») ≡ checked_at link_adr_req_tx_power 8 self.old.«data» tx_power }
    {
        self.data[1] = nibble(self.data[1], 0, tx_power, Refusal::InvalidTxPower)?;
        Ok(())
    }

    pub fn set_channel_mask(mut self, channel_mask: ChannelMask2) -> Self
        ensures { result.«data» ≡ put_bytes link_adr_req_channel_mask self.«data» channel_mask.0 }
    {
        self.data[2..4].copy_from_slice(&channel_mask.as_ref());
        self
    }

    pub fn set_redundancy(mut self, redundancy: Redundancy) -> Self
        ensures { result.«data» ≡ put_at link_adr_req_redundancy self.«data» redundancy.0 }
    {
        self.data[4] = redundancy.raw_value();
        self
    }
}

#[derive(Clone, Copy)]
pub struct LinkADRAnsCreator {
    pub(crate) data: [u8; 2],
}

impl Default for LinkADRAnsCreator {
    ghost is_default = { λ r. r.«data» ≡ default_of (named "LinkADRAns") };

    // Not filled in: even the CID is 0.
    fn default() -> Self {
        LinkADRAnsCreator { data: [0; 2] }
    }
}

impl Creator<2> for LinkADRAnsCreator {
    type Kind = UplinkKind;

    ghost command = { named "LinkADRAns" };

    ghost image = { λ c. c.«data» };

    ghost short = { Prim.search rules };

    fn new() -> Self {
        LinkADRAnsCreator { data: [0x03, 0] }
    }

    fn build(self) -> [u8; 2] {
        self.data
    }

    fn kind(self) -> UplinkKind {
        UplinkKind::LinkADRAns
    }
}

#[tactic(auto, unfolding(crate::specs::Image::put_at))]
impl LinkADRAnsCreator {
    // Whether the channel mask was acceptable.
    pub fn set_channel_mask_ack(mut self, ack: bool) -> Self
        ensures { result.«data» ≡ put_at link_adr_ans_channel_mask_ack self.«data» (bit_of ack) }
    {
        self.data[1] = flag(self.data[1], 0, ack);
        self
    }

    // Whether the data rate was acceptable.
    pub fn set_data_rate_ack(mut self, ack: bool) -> Self
        ensures { result.«data» ≡ put_at link_adr_ans_data_rate_ack self.«data» (bit_of ack) }
    {
        self.data[1] = flag(self.data[1], 1, ack);
        self
    }

    // Whether the TX power was acceptable.
    pub fn set_tx_power_ack(mut self, ack: bool) -> Self
        ensures { result.«data» ≡ put_at link_adr_ans_power_ack self.«data» (bit_of ack) }
    {
        self.data[1] = flag(self.data[1], 2, ack);
        self
    }
}
