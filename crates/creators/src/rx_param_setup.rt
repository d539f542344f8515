ghost use Rattle.std.proofs.Common.{rules};
ghost use Rattle.std.specs.Prelude.{◌≡◌};
ghost use Rattle.bits.specs.Bits.{bit_of};
ghost use Rattle.table.specs.Table.{named};
ghost use Rattle.fields.specs.Frequency.{bytes_of};
ghost use Rattle.fields.specs.Places.{rx_param_setup_req_dl_settings, rx_param_setup_req_frequency, rx_param_setup_ans_channel_ack, rx_param_setup_ans_rx2_data_rate_ack, rx_param_setup_ans_rx1_dr_offset_ack};
ghost use Rattle.creators.specs.Image.{default_of, put_at, put_bytes};

use crate::creator::Creator;
use crate::engine::flag;
use crate::kinds::{DownlinkKind, UplinkKind};
use fields::{DLSettings, Frequency};

#[derive(Clone, Copy)]
pub struct RXParamSetupReqCreator {
    pub(crate) data: [u8; 5],
}

impl Default for RXParamSetupReqCreator {
    ghost is_default = { λ r. r.«data» ≡ default_of (named "RXParamSetupReq") };

    // Not filled in: even the CID is 0.
    fn default() -> Self {
        RXParamSetupReqCreator { data: [0; 5] }
    }
}

impl Creator<5> for RXParamSetupReqCreator {
    type Kind = DownlinkKind;

    ghost command = { named "RXParamSetupReq" };

    ghost image = { λ c. c.«data» };

    ghost short = { Prim.search rules };

    fn new() -> Self {
        RXParamSetupReqCreator {
            data: [0x05, 0, 0, 0, 0],
        }
    }

    fn build(self) -> [u8; 5] {
        self.data
    }

    fn kind(self) -> DownlinkKind {
        DownlinkKind::RXParamSetupReq
    }
}

#[tactic(auto, unfolding(crate::specs::Image::put_at, crate::specs::Image::put_bytes))]
impl RXParamSetupReqCreator {
    pub fn set_dl_settings(mut self, dl_settings: DLSettings) -> Self
        ensures { result.«data» ≡ put_at rx_param_setup_req_dl_settings self.«data» dl_settings.0 }
    {
        self.data[1] = dl_settings.raw_value();
        self
    }

    pub fn set_frequency(mut self, frequency: Frequency) -> Self
        ensures { result.«data» ≡ put_bytes rx_param_setup_req_frequency self.«data» (bytes_of frequency) }
    {
        self.data[2..5].copy_from_slice(&frequency.as_ref());
        self
    }
}

#[derive(Clone, Copy)]
pub struct RXParamSetupAnsCreator {
    pub(crate) data: [u8; 2],
}

impl Default for RXParamSetupAnsCreator {
    ghost is_default = { λ r. r.«data» ≡ default_of (named "RXParamSetupAns") };

    // Not filled in: even the CID is 0.
    fn default() -> Self {
        RXParamSetupAnsCreator { data: [0; 2] }
    }
}

impl Creator<2> for RXParamSetupAnsCreator {
    type Kind = UplinkKind;

    ghost command = { named "RXParamSetupAns" };

    ghost image = { λ c. c.«data» };

    ghost short = { Prim.search rules };

    fn new() -> Self {
        RXParamSetupAnsCreator { data: [0x05, 0] }
    }

    fn build(self) -> [u8; 2] {
        self.data
    }

    fn kind(self) -> UplinkKind {
        UplinkKind::RXParamSetupAns
    }
}

#[tactic(auto, unfolding(crate::specs::Image::put_at))]
impl RXParamSetupAnsCreator {
    // Whether the channel was acceptable.
    pub fn set_channel_ack(mut self, ack: bool) -> Self
        ensures { result.«data» ≡ put_at rx_param_setup_ans_channel_ack self.«data» (bit_of ack) }
    {
        self.data[1] = flag(self.data[1], 0, ack);
        self
    }

    // Whether the RX2 data rate was acceptable.
    pub fn set_rx2_data_rate_ack(mut self, ack: bool) -> Self
        ensures { result.«data» ≡ put_at rx_param_setup_ans_rx2_data_rate_ack self.«data» (bit_of ack) }
    {
        self.data[1] = flag(self.data[1], 1, ack);
        self
    }

    // Whether the RX1 data rate offset was acceptable.
    pub fn set_rx1_data_rate_offset_ack(mut self, ack: bool) -> Self
        ensures { result.«data» ≡ put_at rx_param_setup_ans_rx1_dr_offset_ack self.«data» (bit_of ack) }
    {
        self.data[1] = flag(self.data[1], 2, ack);
        self
    }
}
