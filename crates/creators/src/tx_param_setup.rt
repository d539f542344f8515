ghost use Rattle.std.proofs.Common.{rules};
ghost use Rattle.std.specs.Prelude.{◌≡◌, ◌<◌};
ghost use Rattle.table.specs.Table.{named};
ghost use Rattle.table.specs.Told.{told_verdict};
ghost use Rattle.fields.specs.Places.{bit, tx_param_setup_req_downlink_dwell_time, tx_param_setup_req_uplink_dwell_time, tx_param_setup_req_max_eirp};
ghost use Rattle.creators.specs.Image.{new_of, default_of, checked_at};
ghost use Rattle.creators.specs.Setters.{dwell_at};

use crate::creator::Creator;
use crate::engine::{flag, nibble};
use crate::kinds::{DownlinkKind, UplinkKind};
use table::Refusal;

#[derive(Clone, Copy)]
pub struct TXParamSetupReqCreator {
    pub(crate) data: [u8; 2],
}

impl Default for TXParamSetupReqCreator {
    ghost is_default = { λ r. r.«data» ≡ default_of (named "TXParamSetupReq") };

    // Not filled in: even the CID is 0.
    fn default() -> Self {
        TXParamSetupReqCreator { data: [0; 2] }
    }
}

impl Creator<2> for TXParamSetupReqCreator {
    type Kind = DownlinkKind;

    ghost command = { named "TXParamSetupReq" };

    ghost image = { λ c. c.«data» };

    ghost short = { Prim.search rules };

    fn new() -> Self {
        TXParamSetupReqCreator { data: [0x09, 0] }
    }

    fn build(self) -> [u8; 2] {
        self.data
    }

    fn kind(self) -> DownlinkKind {
        DownlinkKind::TXParamSetupReq
    }
}

#[tactic(auto, unfolding(crate::specs::Image::checked_at, crate::specs::Image::put_at, crate::specs::Setters::dwell_at))]
impl TXParamSetupReqCreator {
    // Bit k, set. Bit 0 is cleared, as in the Rust, so the power limit may drop by one.
    fn set_dwell_time(mut self, k: u8) -> Self
        requires { k < 8 }
        ensures { result.«data» ≡ dwell_at (bit 0 k) self.«data» }
    {
        self.data[1] = flag(self.data[1], 0, false);
        self.data[1] = flag(self.data[1], k, true);
        self
    }

    pub fn set_downlink_dwell_time(self) -> Self
        ensures { result.«data» ≡ dwell_at tx_param_setup_req_downlink_dwell_time self.«data» }
    {
        self.set_dwell_time(5)
    }

    pub fn set_uplink_dwell_time(self) -> Self
        ensures { result.«data» ≡ dwell_at tx_param_setup_req_uplink_dwell_time self.«data» }
    {
        self.set_dwell_time(4)
    }

    // The index of the power limit, 0 to 15. A refusal leaves the creator as it was (RULES: F2).
    pub fn set_max_eirp(&mut self, max_eirp: u8) -> Result<(), Refusal>
        ensures { (told_verdict result, self.new.«data») ≡ checked_at tx_param_setup_req_max_eirp 11 self.old.«data» max_eirp }
    {
        self.data[1] = nibble(self.data[1], 0, max_eirp, Refusal::MaxEirpOutOfRange)?;
        Ok(())
    }
}

#[derive(Clone, Copy, Default)]
pub struct TXParamSetupAnsCreator {}

impl Creator<1> for TXParamSetupAnsCreator {
    type Kind = UplinkKind;

    ghost command = { named "TXParamSetupAns" };

    ghost image = { λ _. new_of (named "TXParamSetupAns") };

    ghost short = { Prim.search rules };

    fn new() -> Self {
        TXParamSetupAnsCreator {}
    }

    fn build(self) -> [u8; 1] {
        [0x09]
    }

    fn kind(self) -> UplinkKind {
        UplinkKind::TXParamSetupAns
    }
}
