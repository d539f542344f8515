ghost use Rattle.std.specs.Prelude.{◌≡◌};
ghost use Rattle.table.specs.Table.{named};
ghost use Rattle.table.specs.Told.{told};
ghost use Rattle.fields.specs.Lists.{exactly};
ghost use Rattle.fields.specs.Places.{number_at, dev_status_ans_battery};
ghost use Rattle.payloads.specs.Bytes.{dev_status_ans_bytes, dev_status_req_bytes};
ghost use Rattle.payloads.specs.Meanings.{margin_of};

use crate::command_type::CommandType;
use crate::payload_bytes::sized;
use table::Refusal;

// Asks for the status of the device.
#[derive(Clone, Copy, PartialEq, Eq)]
pub struct DevStatusReqPayload();

impl CommandType for DevStatusReqPayload {
    ghost command = { named "DevStatusReq" };

    fn cid() -> u8 {
        0x06
    }

    fn uplink() -> bool {
        false
    }

    fn len() -> usize {
        0
    }
}

impl DevStatusReqPayload {
    // Any slice, of which nothing is kept.
    pub fn new(_data: &[u8]) -> Self
        ensures { result ≡ record {} }
    {
        Self()
    }

    pub fn bytes(self) -> [u8; 0]
        ensures { result ≡ dev_status_req_bytes self }
    {
        []
    }
}

// Tells the status of the device.
#[derive(Clone, Copy, PartialEq, Eq)]
pub struct DevStatusAnsPayload(pub u8, pub u8);

impl CommandType for DevStatusAnsPayload {
    ghost command = { named "DevStatusAns" };

    fn cid() -> u8 {
        0x06
    }

    fn uplink() -> bool {
        true
    }

    fn len() -> usize {
        2
    }
}

impl DevStatusAnsPayload {
    pub fn new(data: &[u8]) -> Result<Self, Refusal>
        ensures { told dev_status_ans_bytes result ≡ exactly (named "DevStatusAns").size «data».now }
    {
        let [a, b]: [u8; 2] = sized(data)?;
        Ok(Self(a, b))
    }

    pub fn bytes(self) -> [u8; 2]
        ensures { result ≡ dev_status_ans_bytes self }
    {
        [self.0, self.1]
    }

    // The battery level: 0 is an external source, 255 a level that could not be measured.
    pub fn battery(self) -> u8
        ensures { result ≡ number_at dev_status_ans_battery (dev_status_ans_bytes self) }
    {
        self.0
    }

    // The signal-to-noise ratio in dB of the last DevStatusReq received.
    pub fn margin(self) -> i8
        ensures { result ≡ margin_of (dev_status_ans_bytes self) }
    {
        let low = self.1 % 64;
        if low < 32 {
            low as i8
        } else {
            (low as i8) - 64
        }
    }
}
