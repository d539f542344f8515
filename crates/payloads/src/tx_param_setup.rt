ghost use Rattle.std.specs.Prelude.{◌≡◌};
ghost use Rattle.table.specs.Table.{named};
ghost use Rattle.table.specs.Told.{told};
ghost use Rattle.fields.specs.Lists.{exactly};
ghost use Rattle.fields.specs.Places.{yes_at, tx_param_setup_req_downlink_dwell_time, tx_param_setup_req_uplink_dwell_time};
ghost use Rattle.payloads.specs.Bytes.{tx_param_setup_ans_bytes, tx_param_setup_req_bytes};
ghost use Rattle.payloads.specs.Meanings.{max_eirp_of};

use crate::command_type::CommandType;
use crate::payload_bytes::sized;
use table::Refusal;

// Limits the dwell times and the power of the device.
#[derive(Clone, Copy, PartialEq, Eq)]
pub struct TXParamSetupReqPayload(pub u8);

impl CommandType for TXParamSetupReqPayload {
    ghost command = { named "TXParamSetupReq" };

    fn cid() -> u8 {
        0x09
    }

    fn uplink() -> bool {
        false
    }

    fn len() -> usize {
        1
    }
}

impl TXParamSetupReqPayload {
    pub fn new(data: &[u8]) -> Result<Self, Refusal>
        ensures { told tx_param_setup_req_bytes result ≡ exactly (named "TXParamSetupReq").size «data».now }
    {
        let [a]: [u8; 1] = sized(data)?;
        Ok(Self(a))
    }

    pub fn bytes(self) -> [u8; 1]
        ensures { result ≡ tx_param_setup_req_bytes self }
    {
        [self.0]
    }

    // Whether the dwell time of downlinks is limited.
    pub fn downlink_dwell_time(self) -> bool
        ensures { result ≡ yes_at tx_param_setup_req_downlink_dwell_time (tx_param_setup_req_bytes self) }
    {
        bits::flag(self.0, 5)
    }

    // Whether the dwell time of uplinks is limited.
    pub fn uplink_dwell_time(self) -> bool
        ensures { result ≡ yes_at tx_param_setup_req_uplink_dwell_time (tx_param_setup_req_bytes self) }
    {
        bits::flag(self.0, 4)
    }

    // The greatest power allowed, in dBm.
    pub fn max_eirp(self) -> u8
        ensures { result ≡ max_eirp_of (tx_param_setup_req_bytes self) }
    {
        const POWERS: [u8; 16] = [
            8, 10, 12, 13, 14, 16, 18, 20, 21, 24, 26, 27, 29, 30, 33, 36,
        ];
        POWERS[(self.0 % 16) as usize]
    }
}

// Tells that a TXParamSetupReq was received.
#[derive(Clone, Copy, PartialEq, Eq)]
pub struct TXParamSetupAnsPayload();

impl CommandType for TXParamSetupAnsPayload {
    ghost command = { named "TXParamSetupAns" };

    fn cid() -> u8 {
        0x09
    }

    fn uplink() -> bool {
        true
    }

    fn len() -> usize {
        0
    }
}

impl TXParamSetupAnsPayload {
    // Any slice, of which nothing is kept.
    pub fn new(_data: &[u8]) -> Self
        ensures { result ≡ record {} }
    {
        Self()
    }

    pub fn bytes(self) -> [u8; 0]
        ensures { result ≡ tx_param_setup_ans_bytes self }
    {
        []
    }
}
