ghost use Rattle.std.specs.Prelude.{◌≡◌};
ghost use Rattle.table.specs.Table.{named};
ghost use Rattle.table.specs.Told.{told};
ghost use Rattle.fields.specs.Frequency.{bytes_of};
ghost use Rattle.fields.specs.Lists.{exactly};
ghost use Rattle.fields.specs.Places.{bytes_at, number_at, yes_at, rx_param_setup_ans_channel_ack, rx_param_setup_ans_rx1_dr_offset_ack, rx_param_setup_ans_rx2_data_rate_ack, rx_param_setup_req_dl_settings, rx_param_setup_req_frequency};
ghost use Rattle.payloads.specs.Acceptance.{rx_param_setup_ans_accepts};
ghost use Rattle.payloads.specs.Bytes.{rx_param_setup_ans_bytes, rx_param_setup_req_bytes};

use crate::command_type::CommandType;
use crate::payload_bytes::sized;
use fields::{DLSettings, Frequency};
use table::Refusal;

// Sets the receive windows of the device.
#[derive(Clone, Copy, PartialEq, Eq)]
pub struct RXParamSetupReqPayload(pub u8, pub u8, pub u8, pub u8);

impl CommandType for RXParamSetupReqPayload {
    ghost command = { named "RXParamSetupReq" };

    fn cid() -> u8 {
        0x05
    }

    fn uplink() -> bool {
        false
    }

    fn len() -> usize {
        4
    }
}

impl RXParamSetupReqPayload {
    pub fn new(data: &[u8]) -> Result<Self, Refusal>
        ensures { told rx_param_setup_req_bytes result ≡ exactly (named "RXParamSetupReq").size «data».now }
    {
        let [a, b, c, d]: [u8; 4] = sized(data)?;
        Ok(Self(a, b, c, d))
    }

    pub fn bytes(self) -> [u8; 4]
        ensures { result ≡ rx_param_setup_req_bytes self }
    {
        [self.0, self.1, self.2, self.3]
    }

    // The offset of the first window and the data rate of the second.
    pub fn dl_settings(self) -> DLSettings
        ensures { result.0 ≡ number_at rx_param_setup_req_dl_settings (rx_param_setup_req_bytes self) }
    {
        DLSettings::new(self.0)
    }

    // The frequency of the second window.
    pub fn frequency(self) -> Frequency
        ensures { bytes_of result ≡ bytes_at rx_param_setup_req_frequency (rx_param_setup_req_bytes self) }
    {
        Frequency::from([self.1, self.2, self.3])
    }
}

// Tells which parts of an RXParamSetupReq the device applied.
#[derive(Clone, Copy, PartialEq, Eq)]
pub struct RXParamSetupAnsPayload(pub u8);

impl CommandType for RXParamSetupAnsPayload {
    ghost command = { named "RXParamSetupAns" };

    fn cid() -> u8 {
        0x05
    }

    fn uplink() -> bool {
        true
    }

    fn len() -> usize {
        1
    }
}

impl RXParamSetupAnsPayload {
    pub fn new(data: &[u8]) -> Result<Self, Refusal>
        ensures { told rx_param_setup_ans_bytes result ≡ exactly (named "RXParamSetupAns").size «data».now }
    {
        let [a]: [u8; 1] = sized(data)?;
        Ok(Self(a))
    }

    pub fn bytes(self) -> [u8; 1]
        ensures { result ≡ rx_param_setup_ans_bytes self }
    {
        [self.0]
    }

    // Whether the frequency of the second window was applied.
    pub fn channel_ack(self) -> bool
        ensures { result ≡ yes_at rx_param_setup_ans_channel_ack (rx_param_setup_ans_bytes self) }
    {
        bits::flag(self.0, 0)
    }

    // Whether the data rate of the second window was applied.
    pub fn rx2_data_rate_ack(self) -> bool
        ensures { result ≡ yes_at rx_param_setup_ans_rx2_data_rate_ack (rx_param_setup_ans_bytes self) }
    {
        bits::flag(self.0, 1)
    }

    // Whether the offset of the first window was applied.
    pub fn rx1_dr_offset_ack(self) -> bool
        ensures { result ≡ yes_at rx_param_setup_ans_rx1_dr_offset_ack (rx_param_setup_ans_bytes self) }
    {
        bits::flag(self.0, 2)
    }

    // Whether the device accepted the whole request.
    pub fn ack(self) -> bool
        ensures { result ≡ rx_param_setup_ans_accepts (rx_param_setup_ans_bytes self) }
    {
        self.0 == 0x07
    }
}
