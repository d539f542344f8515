ghost use Rattle.std.specs.Prelude.{◌≡◌};
ghost use Rattle.table.specs.Table.{named};
ghost use Rattle.table.specs.Told.{told};
ghost use Rattle.fields.specs.Lists.{exactly};
ghost use Rattle.payloads.specs.Bytes.{rx_timing_setup_ans_bytes, rx_timing_setup_req_bytes};
ghost use Rattle.payloads.specs.Meanings.{delay_of};

use crate::command_type::CommandType;
use crate::payload_bytes::sized;
use table::Refusal;

// Sets when the first receive window opens.
#[derive(Clone, Copy, PartialEq, Eq)]
pub struct RXTimingSetupReqPayload(pub u8);

impl CommandType for RXTimingSetupReqPayload {
    ghost command = { named "RXTimingSetupReq" };

    fn cid() -> u8 {
        0x08
    }

    fn uplink() -> bool {
        false
    }

    fn len() -> usize {
        1
    }
}

impl RXTimingSetupReqPayload {
    pub fn new(data: &[u8]) -> Result<Self, Refusal>
        ensures { told rx_timing_setup_req_bytes result ≡ exactly (named "RXTimingSetupReq").size «data».now }
    {
        let [a]: [u8; 1] = sized(data)?;
        Ok(Self(a))
    }

    pub fn bytes(self) -> [u8; 1]
        ensures { result ≡ rx_timing_setup_req_bytes self }
    {
        [self.0]
    }

    // The seconds until the first receive window opens, 1 to 15.
    pub fn delay(self) -> u8
        ensures { result ≡ delay_of (rx_timing_setup_req_bytes self) }
    {
        let code = self.0 % 16;
        code.max(1)
    }
}

// Tells that an RXTimingSetupReq was received.
#[derive(Clone, Copy, PartialEq, Eq)]
pub struct RXTimingSetupAnsPayload();

impl CommandType for RXTimingSetupAnsPayload {
    ghost command = { named "RXTimingSetupAns" };

    fn cid() -> u8 {
        0x08
    }

    fn uplink() -> bool {
        true
    }

    fn len() -> usize {
        0
    }
}

impl RXTimingSetupAnsPayload {
    // Any slice, of which nothing is kept.
    pub fn new(_data: &[u8]) -> Self
        ensures { result ≡ record {} }
    {
        Self()
    }

    pub fn bytes(self) -> [u8; 0]
        ensures { result ≡ rx_timing_setup_ans_bytes self }
    {
        []
    }
}
