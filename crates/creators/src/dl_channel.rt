ghost use Rattle.std.proofs.Common.{rules};
ghost use Rattle.std.specs.Prelude.{◌≡◌};
ghost use Rattle.bits.specs.Bits.{bit_of};
ghost use Rattle.table.specs.Table.{named};
ghost use Rattle.fields.specs.Frequency.{bytes_of};
ghost use Rattle.fields.specs.Places.{dl_channel_req_channel_index, dl_channel_req_frequency, dl_channel_ans_channel_freq_ack, dl_channel_ans_uplink_freq_ack};
ghost use Rattle.creators.specs.Image.{default_of, put_at, put_bytes};

use crate::creator::Creator;
use crate::engine::flag;
use crate::kinds::{DownlinkKind, UplinkKind};
use fields::Frequency;

#[derive(Clone, Copy)]
pub struct DlChannelReqCreator {
    pub(crate) data: [u8; 5],
}

impl Default for DlChannelReqCreator {
    ghost is_default = { λ r. r.«data» ≡ default_of (named "DlChannelReq") };

    // Not filled in: even the CID is 0.
    fn default() -> Self {
        DlChannelReqCreator { data: [0; 5] }
    }
}

impl Creator<5> for DlChannelReqCreator {
    type Kind = DownlinkKind;

    ghost command = { named "DlChannelReq" };

    ghost image = { λ c. c.«data» };

    ghost short = { Prim.search rules };

    fn new() -> Self {
        DlChannelReqCreator {
            data: [0x0A, 0, 0, 0, 0],
        }
    }

    fn build(self) -> [u8; 5] {
        self.data
    }

    fn kind(self) -> DownlinkKind {
        DownlinkKind::DlChannelReq
    }
}

#[tactic(auto, unfolding(crate::specs::Image::put_at, crate::specs::Image::put_bytes))]
impl DlChannelReqCreator {
    // The index of the channel whose downlink frequency is set.
    pub fn set_channel_index(mut self, index: u8) -> Self
        ensures { result.«data» ≡ put_at dl_channel_req_channel_index self.«data» index }
    {
        self.data[1] = index;
        self
    }

    pub fn set_frequency(mut self, frequency: Frequency) -> Self
        ensures { result.«data» ≡ put_bytes dl_channel_req_frequency self.«data» (bytes_of frequency) }
    {
        self.data[2..5].copy_from_slice(&frequency.as_ref());
        self
    }
}

#[derive(Clone, Copy)]
pub struct DlChannelAnsCreator {
    pub(crate) data: [u8; 2],
}

impl Default for DlChannelAnsCreator {
    ghost is_default = { λ r. r.«data» ≡ default_of (named "DlChannelAns") };

    // Not filled in: even the CID is 0.
    fn default() -> Self {
        DlChannelAnsCreator { data: [0; 2] }
    }
}

impl Creator<2> for DlChannelAnsCreator {
    type Kind = UplinkKind;

    ghost command = { named "DlChannelAns" };

    ghost image = { λ c. c.«data» };

    ghost short = { Prim.search rules };

    fn new() -> Self {
        DlChannelAnsCreator { data: [0x0A, 0] }
    }

    fn build(self) -> [u8; 2] {
        self.data
    }

    fn kind(self) -> UplinkKind {
        UplinkKind::DlChannelAns
    }
}

#[tactic(auto, unfolding(crate::specs::Image::put_at))]
impl DlChannelAnsCreator {
    // Whether the channel frequency was acceptable.
    pub fn set_channel_frequency_ack(mut self, ack: bool) -> Self
        ensures { result.«data» ≡ put_at dl_channel_ans_channel_freq_ack self.«data» (bit_of ack) }
    {
        self.data[1] = flag(self.data[1], 0, ack);
        self
    }

    // Whether the channel has an uplink frequency.
    pub fn set_uplink_frequency_exists_ack(mut self, ack: bool) -> Self
        ensures { result.«data» ≡ put_at dl_channel_ans_uplink_freq_ack self.«data» (bit_of ack) }
    {
        self.data[1] = flag(self.data[1], 1, ack);
        self
    }
}
