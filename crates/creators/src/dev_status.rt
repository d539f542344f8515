ghost use Rattle.std.proofs.Common.{rules};
ghost use Rattle.std.specs.Prelude.{◌≡◌};
ghost use Rattle.table.specs.Table.{named};
ghost use Rattle.table.specs.Told.{told_verdict};
ghost use Rattle.fields.specs.Places.{dev_status_ans_battery};
ghost use Rattle.creators.specs.Image.{new_of, default_of, put_at};
ghost use Rattle.creators.specs.Setters.{margin_at};

use crate::creator::Creator;
use crate::kinds::{DownlinkKind, UplinkKind};
use table::Refusal;

#[derive(Clone, Copy, Default)]
pub struct DevStatusReqCreator {}

impl Creator<1> for DevStatusReqCreator {
    type Kind = DownlinkKind;

    ghost command = { named "DevStatusReq" };

    ghost image = { λ _. new_of (named "DevStatusReq") };

    ghost short = { Prim.search rules };

    fn new() -> Self {
        DevStatusReqCreator {}
    }

    fn build(self) -> [u8; 1] {
        [0x06]
    }

    fn kind(self) -> DownlinkKind {
        DownlinkKind::DevStatusReq
    }
}

#[derive(Clone, Copy)]
pub struct DevStatusAnsCreator {
    pub(crate) data: [u8; 3],
}

impl Default for DevStatusAnsCreator {
    ghost is_default = { λ r. r.«data» ≡ default_of (named "DevStatusAns") };

    // Not filled in: even the CID is 0.
    fn default() -> Self {
        DevStatusAnsCreator { data: [0; 3] }
    }
}

impl Creator<3> for DevStatusAnsCreator {
    type Kind = UplinkKind;

    ghost command = { named "DevStatusAns" };

    ghost image = { λ c. c.«data» };

    ghost short = { Prim.search rules };

    fn new() -> Self {
        DevStatusAnsCreator { data: [0x06, 0, 0] }
    }

    fn build(self) -> [u8; 3] {
        self.data
    }

    fn kind(self) -> UplinkKind {
        UplinkKind::DevStatusAns
    }
}

#[tactic(auto, unfolding(crate::specs::Image::put_at))]
impl DevStatusAnsCreator {
    // The battery level: 0 for an external source, 1 to 254 from the lowest to the highest, 255 where it could not be measured.
    pub fn set_battery(mut self, battery: u8) -> Self
        ensures { result.«data» ≡ put_at dev_status_ans_battery self.«data» battery }
    {
        self.data[1] = battery;
        self
    }

    // The margin, -32 to 31. A refusal leaves the creator as it was (RULES: F2).
    #[tactic(auto, using(crate::proofs::Margin::low_six), unfolding(crate::specs::Image::put_at, crate::specs::Setters::margin_at, crate::specs::Setters::is_margin, crate::specs::Setters::six_bits))]
    pub fn set_margin(&mut self, margin: i8) -> Result<(), Refusal>
        ensures { (told_verdict result, self.new.«data») ≡ margin_at self.old.«data» margin }
    {
        if margin < -32 || 31 < margin {
            return Err(Refusal::MarginOutOfRange);
        }
        // Its low six bits, in two's complement
        self.data[2] = margin.cast_unsigned() % 64;
        Ok(())
    }
}
