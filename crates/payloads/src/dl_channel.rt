ghost use Rattle.std.specs.Prelude.{◌≡◌};
ghost use Rattle.table.specs.Table.{named};
ghost use Rattle.table.specs.Told.{told};
ghost use Rattle.fields.specs.Frequency.{bytes_of};
ghost use Rattle.fields.specs.Lists.{exactly};
ghost use Rattle.fields.specs.Places.{bytes_at, number_at, yes_at, dl_channel_ans_channel_freq_ack, dl_channel_ans_uplink_freq_ack, dl_channel_req_channel_index, dl_channel_req_frequency};
ghost use Rattle.payloads.specs.Acceptance.{dl_channel_ans_accepts};
ghost use Rattle.payloads.specs.Bytes.{dl_channel_ans_bytes, dl_channel_req_bytes};

use crate::command_type::CommandType;
use crate::payload_bytes::sized;
use fields::Frequency;
use table::Refusal;

// Sets the downlink frequency of a channel.
#[derive(Clone, Copy, PartialEq, Eq)]
pub struct DlChannelReqPayload(pub u8, pub u8, pub u8, pub u8);

impl CommandType for DlChannelReqPayload {
    ghost command = { named "DlChannelReq" };

    fn cid() -> u8 {
        0x0A
    }

    fn uplink() -> bool {
        false
    }

    fn len() -> usize {
        4
    }
}

impl DlChannelReqPayload {
    pub fn new(data: &[u8]) -> Result<Self, Refusal>
        ensures { told dl_channel_req_bytes result ≡ exactly (named "DlChannelReq").size «data».now }
    {
        let [a, b, c, d]: [u8; 4] = sized(data)?;
        Ok(Self(a, b, c, d))
    }

    pub fn bytes(self) -> [u8; 4]
        ensures { result ≡ dl_channel_req_bytes self }
    {
        [self.0, self.1, self.2, self.3]
    }

    // The index of the channel.
    pub fn channel_index(self) -> u8
        ensures { result ≡ number_at dl_channel_req_channel_index (dl_channel_req_bytes self) }
    {
        self.0
    }

    // The downlink frequency of the channel.
    pub fn frequency(self) -> Frequency
        ensures { bytes_of result ≡ bytes_at dl_channel_req_frequency (dl_channel_req_bytes self) }
    {
        Frequency::from([self.1, self.2, self.3])
    }
}

// Tells which parts of a DlChannelReq the device applied.
#[derive(Clone, Copy, PartialEq, Eq)]
pub struct DlChannelAnsPayload(pub u8);

impl CommandType for DlChannelAnsPayload {
    ghost command = { named "DlChannelAns" };

    fn cid() -> u8 {
        0x0A
    }

    fn uplink() -> bool {
        true
    }

    fn len() -> usize {
        1
    }
}

impl DlChannelAnsPayload {
    pub fn new(data: &[u8]) -> Result<Self, Refusal>
        ensures { told dl_channel_ans_bytes result ≡ exactly (named "DlChannelAns").size «data».now }
    {
        let [a]: [u8; 1] = sized(data)?;
        Ok(Self(a))
    }

    pub fn bytes(self) -> [u8; 1]
        ensures { result ≡ dl_channel_ans_bytes self }
    {
        [self.0]
    }

    // Whether the device can use the frequency.
    pub fn channel_freq_ack(self) -> bool
        ensures { result ≡ yes_at dl_channel_ans_channel_freq_ack (dl_channel_ans_bytes self) }
    {
        bits::flag(self.0, 0)
    }

    // Whether the channel has an uplink frequency.
    pub fn uplink_freq_ack(self) -> bool
        ensures { result ≡ yes_at dl_channel_ans_uplink_freq_ack (dl_channel_ans_bytes self) }
    {
        bits::flag(self.0, 1)
    }

    // Whether the device accepted the downlink frequency.
    pub fn ack(self) -> bool
        ensures { result ≡ dl_channel_ans_accepts (dl_channel_ans_bytes self) }
    {
        self.0 % 4 == 3
    }
}
