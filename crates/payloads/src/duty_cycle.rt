ghost use Rattle.std.specs.Prelude.{◌≡◌};
ghost use Rattle.table.specs.Table.{named};
ghost use Rattle.table.specs.Told.{told};
ghost use Rattle.fields.specs.Lists.{exactly};
ghost use Rattle.fields.specs.Places.{number_at, duty_cycle_req_max_duty_cycle};
ghost use Rattle.payloads.specs.Bytes.{duty_cycle_ans_bytes, duty_cycle_req_bytes};
ghost use Rattle.payloads.specs.Meanings.{max_duty_cycle_of};

use crate::command_type::CommandType;
use crate::payload_bytes::sized;
use table::Refusal;

// Limits the part of the time in which the device may send.
#[derive(Clone, Copy, PartialEq, Eq)]
pub struct DutyCycleReqPayload(pub u8);

impl CommandType for DutyCycleReqPayload {
    ghost command = { named "DutyCycleReq" };

    fn cid() -> u8 {
        0x04
    }

    fn uplink() -> bool {
        false
    }

    fn len() -> usize {
        1
    }
}

impl DutyCycleReqPayload {
    pub fn new(data: &[u8]) -> Result<Self, Refusal>
        ensures { told duty_cycle_req_bytes result ≡ exactly (named "DutyCycleReq").size «data».now }
    {
        let [a]: [u8; 1] = sized(data)?;
        Ok(Self(a))
    }

    pub fn bytes(self) -> [u8; 1]
        ensures { result ≡ duty_cycle_req_bytes self }
    {
        [self.0]
    }

    // The limit as the number that the payload holds.
    pub fn max_duty_cycle_raw(self) -> u8
        ensures { result ≡ number_at duty_cycle_req_max_duty_cycle (duty_cycle_req_bytes self) }
    {
        self.0 % 16
    }

    // The limit as a part of the time, for instance 0.5. An f32 keeps 127 more than its exponent, which for 1 / 2^n is -n, above the 23 bits of its
    // fraction, which are zeros here.
    pub fn max_duty_cycle(self) -> f32
        ensures { result ≡ max_duty_cycle_of (duty_cycle_req_bytes self) }
    {
        f32::from_bits((127 - (self.max_duty_cycle_raw() as u32)) << 23)
    }
}

// Tells that a DutyCycleReq was received.
#[derive(Clone, Copy, PartialEq, Eq)]
pub struct DutyCycleAnsPayload();

impl CommandType for DutyCycleAnsPayload {
    ghost command = { named "DutyCycleAns" };

    fn cid() -> u8 {
        0x04
    }

    fn uplink() -> bool {
        true
    }

    fn len() -> usize {
        0
    }
}

impl DutyCycleAnsPayload {
    // Any slice, of which nothing is kept.
    pub fn new(_data: &[u8]) -> Self
        ensures { result ≡ record {} }
    {
        Self()
    }

    pub fn bytes(self) -> [u8; 0]
        ensures { result ≡ duty_cycle_ans_bytes self }
    {
        []
    }
}
