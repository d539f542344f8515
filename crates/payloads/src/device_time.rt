ghost use Rattle.std.specs.Prelude.{◌≡◌};
ghost use Rattle.table.specs.Table.{named};
ghost use Rattle.table.specs.Told.{told};
ghost use Rattle.fields.specs.Lists.{exactly};
ghost use Rattle.payloads.specs.Bytes.{device_time_ans_bytes, device_time_req_bytes};
ghost use Rattle.payloads.specs.Meanings.{nano_seconds_of, seconds_of};

use crate::command_type::CommandType;
use crate::payload_bytes::sized;
use table::Refusal;

// Asks for the network time.
#[derive(Clone, Copy, PartialEq, Eq)]
pub struct DeviceTimeReqPayload();

impl CommandType for DeviceTimeReqPayload {
    ghost command = { named "DeviceTimeReq" };

    fn cid() -> u8 {
        0x0D
    }

    fn uplink() -> bool {
        true
    }

    fn len() -> usize {
        0
    }
}

impl DeviceTimeReqPayload {
    // Any slice, of which nothing is kept.
    pub fn new(_data: &[u8]) -> Self
        ensures { result ≡ record {} }
    {
        Self()
    }

    pub fn bytes(self) -> [u8; 0]
        ensures { result ≡ device_time_req_bytes self }
    {
        []
    }
}

// Tells the network time: the seconds, and steps of 1/256 second.
#[derive(Clone, Copy, PartialEq, Eq)]
pub struct DeviceTimeAnsPayload(pub u8, pub u8, pub u8, pub u8, pub u8);

impl CommandType for DeviceTimeAnsPayload {
    ghost command = { named "DeviceTimeAns" };

    fn cid() -> u8 {
        0x0D
    }

    fn uplink() -> bool {
        false
    }

    fn len() -> usize {
        5
    }
}

impl DeviceTimeAnsPayload {
    pub fn new(data: &[u8]) -> Result<Self, Refusal>
        ensures { told device_time_ans_bytes result ≡ exactly (named "DeviceTimeAns").size «data».now }
    {
        let [a, b, c, d, e]: [u8; 5] = sized(data)?;
        Ok(Self(a, b, c, d, e))
    }

    pub fn bytes(self) -> [u8; 5]
        ensures { result ≡ device_time_ans_bytes self }
    {
        [self.0, self.1, self.2, self.3, self.4]
    }

    // The whole seconds of the network time.
    pub fn seconds(self) -> u32
        ensures { result ≡ seconds_of (device_time_ans_bytes self) }
    {
        u32::from_le_bytes([self.0, self.1, self.2, self.3])
    }

    // The rest of the network time.
    pub fn nano_seconds(self) -> u32
        ensures { result ≡ nano_seconds_of (device_time_ans_bytes self) }
    {
        (self.4 as u32) * 3906250
    }
}
