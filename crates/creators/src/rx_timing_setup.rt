ghost use Rattle.std.proofs.Common.{rules};
ghost use Rattle.std.specs.Prelude.{◌≡◌};
ghost use Rattle.table.specs.Table.{named};
ghost use Rattle.table.specs.Told.{told_verdict};
ghost use Rattle.fields.specs.Places.{rx_timing_setup_req_delay};
ghost use Rattle.creators.specs.Image.{new_of, default_of, checked_at};

use crate::creator::Creator;
use crate::engine::nibble;
use crate::kinds::{DownlinkKind, UplinkKind};
use table::Refusal;

#[derive(Clone, Copy)]
pub struct RXTimingSetupReqCreator {
    pub(crate) data: [u8; 2],
}

impl Default for RXTimingSetupReqCreator {
    ghost is_default = { λ r. r.«data» ≡ default_of (named "RXTimingSetupReq") };

    // Not filled in: even the CID is 0.
    fn default() -> Self {
        RXTimingSetupReqCreator { data: [0; 2] }
    }
}

impl Creator<2> for RXTimingSetupReqCreator {
    type Kind = DownlinkKind;

    ghost command = { named "RXTimingSetupReq" };

    ghost image = { λ c. c.«data» };

    ghost short = { Prim.search rules };

    fn new() -> Self {
        RXTimingSetupReqCreator { data: [0x08, 0] }
    }

    fn build(self) -> [u8; 2] {
        self.data
    }

    fn kind(self) -> DownlinkKind {
        DownlinkKind::RXTimingSetupReq
    }
}

#[tactic(auto, unfolding(crate::specs::Image::checked_at, crate::specs::Image::put_at))]
impl RXTimingSetupReqCreator {
    // The delay code, 0 to 15. A refusal leaves the creator as it was (RULES: F2).
    pub fn set_delay(&mut self, delay: u8) -> Result<(), Refusal>
        ensures { (told_verdict result, self.new.«data») ≡ checked_at rx_timing_setup_req_delay 10 self.old.«data» delay }
    {
        self.data[1] = nibble(self.data[1], 0, delay, Refusal::DelayOutOfRange)?;
        Ok(())
    }
}

#[derive(Clone, Copy, Default)]
pub struct RXTimingSetupAnsCreator {}

impl Creator<1> for RXTimingSetupAnsCreator {
    type Kind = UplinkKind;

    ghost command = { named "RXTimingSetupAns" };

    ghost image = { λ _. new_of (named "RXTimingSetupAns") };

    ghost short = { Prim.search rules };

    fn new() -> Self {
        RXTimingSetupAnsCreator {}
    }

    fn build(self) -> [u8; 1] {
        [0x08]
    }

    fn kind(self) -> UplinkKind {
        UplinkKind::RXTimingSetupAns
    }
}
