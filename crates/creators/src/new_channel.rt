ghost use Rattle.std.proofs.Common.{rules};
ghost use Rattle.std.specs.Prelude.{◌≡◌};
ghost use Rattle.bits.specs.Bits.{bit_of};
ghost use Rattle.table.specs.Table.{named};
ghost use Rattle.fields.specs.Frequency.{bytes_of};
ghost use Rattle.fields.specs.Places.{new_channel_req_channel_index, new_channel_req_frequency, new_channel_req_data_rate_range, new_channel_ans_channel_freq_ack, new_channel_ans_data_rate_range_ack};
ghost use Rattle.creators.specs.Image.{default_of, put_at, put_bytes};

use crate::creator::Creator;
use crate::engine::flag;
use crate::kinds::{DownlinkKind, UplinkKind};
use fields::{DataRateRange, Frequency};

#[derive(Clone, Copy)]
pub struct NewChannelReqCreator {
    pub(crate) data: [u8; 6],
}

impl Default for NewChannelReqCreator {
    ghost is_default = { λ r. r.«data» ≡ default_of (named "NewChannelReq") };

    // Not filled in: even the CID is 0.
    fn default() -> Self {
        NewChannelReqCreator { data: [0; 6] }
    }
}

impl Creator<6> for NewChannelReqCreator {
    type Kind = DownlinkKind;

    ghost command = { named "NewChannelReq" };

    ghost image = { λ c. c.«data» };

    ghost short = { Prim.search rules };

    fn new() -> Self {
        NewChannelReqCreator {
            data: [0x07, 0, 0, 0, 0, 0],
        }
    }

    fn build(self) -> [u8; 6] {
        self.data
    }

    fn kind(self) -> DownlinkKind {
        DownlinkKind::NewChannelReq
    }
}

#[tactic(auto, unfolding(crate::specs::Image::put_at, crate::specs::Image::put_bytes))]
impl NewChannelReqCreator {
    // The index of the channel that is made or changed.
    pub fn set_channel_index(mut self, channel_index: u8) -> Self
        ensures { result.«data» ≡ put_at new_channel_req_channel_index self.«data» channel_index }
    {
        self.data[1] = channel_index;
        self
    }

    pub fn set_frequency(mut self, frequency: Frequency) -> Self
        ensures { result.«data» ≡ put_bytes new_channel_req_frequency self.«data» (bytes_of frequency) }
    {
        self.data[2..5].copy_from_slice(&frequency.as_ref());
        self
    }

    pub fn set_data_rate_range(mut self, data_rate_range: DataRateRange) -> Self
        ensures { result.«data» ≡ put_at new_channel_req_data_rate_range self.«data» data_rate_range.0 }
    {
        self.data[5] = data_rate_range.raw_value();
        self
    }
}

#[derive(Clone, Copy)]
pub struct NewChannelAnsCreator {
    pub(crate) data: [u8; 2],
}

impl Default for NewChannelAnsCreator {
    ghost is_default = { λ r. r.«data» ≡ default_of (named "NewChannelAns") };

    // Not filled in: even the CID is 0.
    fn default() -> Self {
        NewChannelAnsCreator { data: [0; 2] }
    }
}

impl Creator<2> for NewChannelAnsCreator {
    type Kind = UplinkKind;

    ghost command = { named "NewChannelAns" };

    ghost image = { λ c. c.«data» };

    ghost short = { Prim.search rules };

    fn new() -> Self {
        NewChannelAnsCreator { data: [0x07, 0] }
    }

    fn build(self) -> [u8; 2] {
        self.data
    }

    fn kind(self) -> UplinkKind {
        UplinkKind::NewChannelAns
    }
}

#[tactic(auto, unfolding(crate::specs::Image::put_at))]
impl NewChannelAnsCreator {
    // Whether the channel frequency was acceptable.
    pub fn set_channel_frequency_ack(mut self, ack: bool) -> Self
        ensures { result.«data» ≡ put_at new_channel_ans_channel_freq_ack self.«data» (bit_of ack) }
    {
        self.data[1] = flag(self.data[1], 0, ack);
        self
    }

    // Whether the data rate range was acceptable.
    pub fn set_data_rate_range_ack(mut self, ack: bool) -> Self
        ensures { result.«data» ≡ put_at new_channel_ans_data_rate_range_ack self.«data» (bit_of ack) }
    {
        self.data[1] = flag(self.data[1], 1, ack);
        self
    }
}
