ghost use Rattle.std.proofs.Common.{rules};
ghost use Rattle.std.specs.Prelude.{◌≡◌, ◌/◌, ◌%◌};
ghost use Rattle.table.specs.Table.{named};
ghost use Rattle.table.specs.Told.{told_verdict};
ghost use Rattle.creators.specs.Image.{new_of, default_of};
ghost use Rattle.creators.specs.Setters.{seconds_at, nano_seconds_at};

use crate::creator::Creator;
use crate::kinds::{DownlinkKind, UplinkKind};
use table::Refusal;

// Whole steps of 1/256 second. A whole second, 256 steps, is 0.
fn steps(nano_seconds: u32) -> u8
    ensures { result ≡ nano_seconds / 3_906_250 % 256 }
{
    (nano_seconds / 3_906_250 % 256) as u8
}

#[derive(Clone, Copy, Default)]
pub struct DeviceTimeReqCreator {}

impl Creator<1> for DeviceTimeReqCreator {
    type Kind = UplinkKind;

    ghost command = { named "DeviceTimeReq" };

    ghost image = { λ _. new_of (named "DeviceTimeReq") };

    ghost short = { Prim.search rules };

    fn new() -> Self {
        DeviceTimeReqCreator {}
    }

    fn build(self) -> [u8; 1] {
        [0x0D]
    }

    fn kind(self) -> UplinkKind {
        UplinkKind::DeviceTimeReq
    }
}

#[derive(Clone, Copy)]
pub struct DeviceTimeAnsCreator {
    pub(crate) data: [u8; 6],
}

impl Default for DeviceTimeAnsCreator {
    ghost is_default = { λ r. r.«data» ≡ default_of (named "DeviceTimeAns") };

    // Not filled in: even the CID is 0.
    fn default() -> Self {
        DeviceTimeAnsCreator { data: [0; 6] }
    }
}

impl Creator<6> for DeviceTimeAnsCreator {
    type Kind = DownlinkKind;

    ghost command = { named "DeviceTimeAns" };

    ghost image = { λ c. c.«data» };

    ghost short = { Prim.search rules };

    fn new() -> Self {
        DeviceTimeAnsCreator {
            data: [0x0D, 0, 0, 0, 0, 0],
        }
    }

    fn build(self) -> [u8; 6] {
        self.data
    }

    fn kind(self) -> DownlinkKind {
        DownlinkKind::DeviceTimeAns
    }
}

impl DeviceTimeAnsCreator {
    // The seconds, low byte first.
    #[tactic(auto, unfolding(crate::specs::Image::put_bytes, crate::specs::Setters::seconds_at, crate::specs::Setters::low_bytes))]
    pub fn set_seconds(mut self, seconds: u32) -> Self
        ensures { result.«data» ≡ seconds_at self.«data» seconds }
    {
        self.data[1..5].copy_from_slice(&seconds.to_le_bytes());
        self
    }

    // The nanoseconds, at most 1,000,000,000, in steps of 3,906,250, which is 1/256 second. A refusal leaves the creator as it was (RULES: F2).
    #[tactic(auto, unfolding(crate::specs::Image::put_at, crate::specs::Setters::nano_seconds_at))]
    pub fn set_nano_seconds(&mut self, nano_seconds: u32) -> Result<(), Refusal>
        ensures { (told_verdict result, self.new.«data») ≡ nano_seconds_at self.old.«data» nano_seconds }
    {
        if 1_000_000_000 < nano_seconds {
            return Err(Refusal::NanoSecondsOutOfRange);
        }
        self.data[5] = steps(nano_seconds);
        Ok(())
    }
}
