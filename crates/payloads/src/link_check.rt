ghost use Rattle.std.specs.Prelude.{◌≡◌};
ghost use Rattle.table.specs.Table.{named};
ghost use Rattle.table.specs.Told.{told};
ghost use Rattle.fields.specs.Lists.{exactly};
ghost use Rattle.fields.specs.Places.{number_at, link_check_ans_gateway_count, link_check_ans_margin};
ghost use Rattle.payloads.specs.Bytes.{link_check_ans_bytes, link_check_req_bytes};

use crate::command_type::CommandType;
use crate::payload_bytes::sized;
use table::Refusal;

// Asks the network whether it hears the device.
#[derive(Clone, Copy, PartialEq, Eq)]
pub struct LinkCheckReqPayload();

impl CommandType for LinkCheckReqPayload {
    ghost command = { named "LinkCheckReq" };

    fn cid() -> u8 {
        0x02
    }

    fn uplink() -> bool {
        true
    }

    fn len() -> usize {
        0
    }
}

impl LinkCheckReqPayload {
    // Any slice, of which nothing is kept.
    pub fn new(_data: &[u8]) -> Self
        ensures { result ≡ record {} }
    {
        Self()
    }

    pub fn bytes(self) -> [u8; 0]
        ensures { result ≡ link_check_req_bytes self }
    {
        []
    }
}

// Tells how well the network heard the LinkCheckReq.
#[derive(Clone, Copy, PartialEq, Eq)]
pub struct LinkCheckAnsPayload(pub u8, pub u8);

impl CommandType for LinkCheckAnsPayload {
    ghost command = { named "LinkCheckAns" };

    fn cid() -> u8 {
        0x02
    }

    fn uplink() -> bool {
        false
    }

    fn len() -> usize {
        2
    }
}

impl From<[u8; 2]> for LinkCheckAnsPayload {
    ghost from_gives = { λ v r. link_check_ans_bytes r ≡ v };

    fn from([a, b]: [u8; 2]) -> Self {
        LinkCheckAnsPayload(a, b)
    }
}

impl LinkCheckAnsPayload {
    pub fn new(data: &[u8]) -> Result<Self, Refusal>
        ensures { told link_check_ans_bytes result ≡ exactly (named "LinkCheckAns").size «data».now }
    {
        let [a, b]: [u8; 2] = sized(data)?;
        Ok(Self(a, b))
    }

    pub fn bytes(self) -> [u8; 2]
        ensures { result ≡ link_check_ans_bytes self }
    {
        [self.0, self.1]
    }

    // The link margin in dB of the last LinkCheckReq received.
    pub fn margin(self) -> u8
        ensures { result ≡ number_at link_check_ans_margin (link_check_ans_bytes self) }
    {
        self.0
    }

    // How many gateways received the last LinkCheckReq.
    pub fn gateway_count(self) -> u8
        ensures { result ≡ number_at link_check_ans_gateway_count (link_check_ans_bytes self) }
    {
        self.1
    }
}
