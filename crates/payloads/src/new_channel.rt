ghost use Rattle.std.specs.Prelude.{◌≡◌};
ghost use Rattle.table.specs.Table.{named};
ghost use Rattle.table.specs.Told.{told};
ghost use Rattle.fields.specs.Frequency.{bytes_of};
ghost use Rattle.fields.specs.Lists.{exactly};
ghost use Rattle.fields.specs.Places.{bytes_at, number_at, yes_at, new_channel_ans_channel_freq_ack, new_channel_ans_data_rate_range_ack, new_channel_req_channel_index, new_channel_req_data_rate_range, new_channel_req_frequency};
ghost use Rattle.payloads.specs.Acceptance.{new_channel_ans_accepts};
ghost use Rattle.payloads.specs.Bytes.{new_channel_ans_bytes, new_channel_req_bytes};

use crate::command_type::CommandType;
use crate::payload_bytes::sized;
use fields::{DataRateRange, Frequency};
use table::Refusal;

// Makes or changes a channel.
#[derive(Clone, Copy, PartialEq, Eq)]
pub struct NewChannelReqPayload(pub u8, pub u8, pub u8, pub u8, pub u8);

impl CommandType for NewChannelReqPayload {
    ghost command = { named "NewChannelReq" };

    fn cid() -> u8 {
        0x07
    }

    fn uplink() -> bool {
        false
    }

    fn len() -> usize {
        5
    }
}

impl NewChannelReqPayload {
    pub fn new(data: &[u8]) -> Result<Self, Refusal>
        ensures { told new_channel_req_bytes result ≡ exactly (named "NewChannelReq").size «data».now }
    {
        let [a, b, c, d, e]: [u8; 5] = sized(data)?;
        Ok(Self(a, b, c, d, e))
    }

    pub fn bytes(self) -> [u8; 5]
        ensures { result ≡ new_channel_req_bytes self }
    {
        [self.0, self.1, self.2, self.3, self.4]
    }

    // The index of the channel.
    pub fn channel_index(self) -> u8
        ensures { result ≡ number_at new_channel_req_channel_index (new_channel_req_bytes self) }
    {
        self.0
    }

    // The frequency of the channel.
    pub fn frequency(self) -> Frequency
        ensures { bytes_of result ≡ bytes_at new_channel_req_frequency (new_channel_req_bytes self) }
    {
        Frequency::from([self.1, self.2, self.3])
    }

    // The data rates allowed on the channel, unchecked.
    pub fn data_rate_range(self) -> DataRateRange
        ensures { result.0 ≡ number_at new_channel_req_data_rate_range (new_channel_req_bytes self) }
    {
        DataRateRange::new_from_raw(self.4)
    }
}

// Tells which parts of a NewChannelReq the device applied.
#[derive(Clone, Copy, PartialEq, Eq)]
pub struct NewChannelAnsPayload(pub u8);

impl CommandType for NewChannelAnsPayload {
    ghost command = { named "NewChannelAns" };

    fn cid() -> u8 {
        0x07
    }

    fn uplink() -> bool {
        true
    }

    fn len() -> usize {
        1
    }
}

impl NewChannelAnsPayload {
    pub fn new(data: &[u8]) -> Result<Self, Refusal>
        ensures { told new_channel_ans_bytes result ≡ exactly (named "NewChannelAns").size «data».now }
    {
        let [a]: [u8; 1] = sized(data)?;
        Ok(Self(a))
    }

    pub fn bytes(self) -> [u8; 1]
        ensures { result ≡ new_channel_ans_bytes self }
    {
        [self.0]
    }

    // Whether the frequency was applied.
    pub fn channel_freq_ack(self) -> bool
        ensures { result ≡ yes_at new_channel_ans_channel_freq_ack (new_channel_ans_bytes self) }
    {
        bits::flag(self.0, 0)
    }

    // Whether the range of data rates was applied.
    pub fn data_rate_range_ack(self) -> bool
        ensures { result ≡ yes_at new_channel_ans_data_rate_range_ack (new_channel_ans_bytes self) }
    {
        bits::flag(self.0, 1)
    }

    // Whether the device accepted the channel.
    pub fn ack(self) -> bool
        ensures { result ≡ new_channel_ans_accepts (new_channel_ans_bytes self) }
    {
        self.0 == 0x03
    }
}
