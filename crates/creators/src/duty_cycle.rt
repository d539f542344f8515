ghost use Rattle.std.proofs.Common.{rules};
ghost use Rattle.std.specs.Prelude.{◌≡◌};
ghost use Rattle.table.specs.Table.{named};
ghost use Rattle.fields.specs.Places.{duty_cycle_req_whole};
ghost use Rattle.creators.specs.Image.{new_of, default_of, put_at};

use crate::creator::Creator;
use crate::kinds::{DownlinkKind, UplinkKind};

#[derive(Clone, Copy)]
pub struct DutyCycleReqCreator {
    pub(crate) data: [u8; 2],
}

impl Default for DutyCycleReqCreator {
    ghost is_default = { λ r. r.«data» ≡ default_of (named "DutyCycleReq") };

    // Not filled in: even the CID is 0.
    fn default() -> Self {
        DutyCycleReqCreator { data: [0; 2] }
    }
}

impl Creator<2> for DutyCycleReqCreator {
    type Kind = DownlinkKind;

    ghost command = { named "DutyCycleReq" };

    ghost image = { λ c. c.«data» };

    ghost short = { Prim.search rules };

    fn new() -> Self {
        DutyCycleReqCreator { data: [0x04, 0] }
    }

    fn build(self) -> [u8; 2] {
        self.data
    }

    fn kind(self) -> DownlinkKind {
        DownlinkKind::DutyCycleReq
    }
}

#[tactic(auto, unfolding(crate::specs::Image::put_at))]
impl DutyCycleReqCreator {
    // The exponent n of the aggregated duty cycle 1 / 2^n. Every byte is taken, and written whole.
    pub fn set_max_duty_cycle(mut self, max_duty_cycle: u8) -> Self
        ensures { result.«data» ≡ put_at duty_cycle_req_whole self.«data» max_duty_cycle }
    {
        self.data[1] = max_duty_cycle;
        self
    }
}

#[derive(Clone, Copy, Default)]
pub struct DutyCycleAnsCreator {}

impl Creator<1> for DutyCycleAnsCreator {
    type Kind = UplinkKind;

    ghost command = { named "DutyCycleAns" };

    ghost image = { λ _. new_of (named "DutyCycleAns") };

    ghost short = { Prim.search rules };

    fn new() -> Self {
        DutyCycleAnsCreator {}
    }

    fn build(self) -> [u8; 1] {
        [0x04]
    }

    fn kind(self) -> UplinkKind {
        UplinkKind::DutyCycleAns
    }
}
