ghost use Rattle.std.proofs.Common.{rules};
ghost use Rattle.std.specs.Prelude.{◌≡◌};
ghost use Rattle.table.specs.Table.{named};
ghost use Rattle.fields.specs.Places.{link_check_ans_margin, link_check_ans_gateway_count};
ghost use Rattle.creators.specs.Image.{new_of, default_of, put_at};

use crate::creator::Creator;
use crate::kinds::{DownlinkKind, UplinkKind};

#[derive(Clone, Copy, Default)]
pub struct LinkCheckReqCreator {}

impl Creator<1> for LinkCheckReqCreator {
    type Kind = UplinkKind;

    ghost command = { named "LinkCheckReq" };

    ghost image = { λ _. new_of (named "LinkCheckReq") };

    ghost short = { Prim.search rules };

    fn new() -> Self {
        LinkCheckReqCreator {}
    }

    fn build(self) -> [u8; 1] {
        [0x02]
    }

    fn kind(self) -> UplinkKind {
        UplinkKind::LinkCheckReq
    }
}

#[derive(Clone, Copy)]
pub struct LinkCheckAnsCreator {
    pub(crate) data: [u8; 3],
}

impl Default for LinkCheckAnsCreator {
    ghost is_default = { λ r. r.«data» ≡ default_of (named "LinkCheckAns") };

    // Not filled in: even the CID is 0.
    fn default() -> Self {
        LinkCheckAnsCreator { data: [0; 3] }
    }
}

impl Creator<3> for LinkCheckAnsCreator {
    type Kind = DownlinkKind;

    ghost command = { named "LinkCheckAns" };

    ghost image = { λ c. c.«data» };

    ghost short = { Prim.search rules };

    fn new() -> Self {
        LinkCheckAnsCreator { data: [0x02, 0, 0] }
    }

    fn build(self) -> [u8; 3] {
        self.data
    }

    fn kind(self) -> DownlinkKind {
        DownlinkKind::LinkCheckAns
    }
}

#[tactic(auto, unfolding(crate::specs::Image::put_at))]
impl LinkCheckAnsCreator {
    // The margin in dB, relative to the demodulation floor; 255 is reserved.
    pub fn set_margin(mut self, margin: u8) -> Self
        ensures { result.«data» ≡ put_at link_check_ans_margin self.«data» margin }
    {
        self.data[1] = margin;
        self
    }

    // How many gateways received the LinkCheckReq.
    pub fn set_gateway_count(mut self, gateway_count: u8) -> Self
        ensures { result.«data» ≡ put_at link_check_ans_gateway_count self.«data» gateway_count }
    {
        self.data[2] = gateway_count;
        self
    }
}
