// The channels that a device may use, at both widths: 16 channels in two bytes, or 72 in nine.
ghost use Rattle.std.specs.Prelude.{◌≡◌};
ghost use Rattle.table.specs.Told.{told, told_verdict};
ghost use Rattle.fields.specs.Mask.{
  channel_on,
  all_on,
  mask_of,
  bank_of,
  set_bank,
  enabled_of,
  set_channel,
  statuses_of,
  channels_on,
};

use std::array;
use table::Refusal;

// Eight channels to a byte, the first of them in its lowest bit.
#[derive(Clone, Copy, PartialEq, Eq)]
pub struct ChannelMask<const N: usize>([u8; N]);

pub type ChannelMask2 = ChannelMask<2>;

pub type ChannelMask9 = ChannelMask<9>;

// Every channel switched on.
impl<const N: usize> Default for ChannelMask<N> {
    ghost is_default = { λ mask. mask.0 ≡ all_on N };

    fn default() -> Self {
        ChannelMask([255; N])
    }
}

impl<const N: usize> From<[u8; N]> for ChannelMask<N> {
    ghost from_gives = { λ banks mask. mask.0 ≡ banks };

    fn from(banks: [u8; N]) -> Self {
        ChannelMask(banks)
    }
}

impl<const N: usize> ChannelMask<N> {
    // The first bytes of data, as many as the mask has. The Rust's name: a `TryFrom` beside it would be the same once more.
    pub fn new(data: &[u8]) -> Result<Self, Refusal>
        ensures { told (λ mask. mask.0) result ≡ mask_of N «data».now }
    {
        let banks = data.first_chunk().ok_or(Refusal::BufferTooShort)?;
        Ok(ChannelMask(*banks))
    }

    // A method of its own: std's `AsRef` promises nothing of what it lends.
    pub fn as_ref(self) -> [u8; N]
        ensures { result ≡ self.entry.0 }
    {
        self.0
    }

    // A refused call leaves the mask as it was (RULES: F2). A bank that get_mut lends is lost to the proof (tried), so here and in set_channel
    // the place is tested first.
    pub fn set_bank(&mut self, index: usize, value: u8) -> Result<(), Refusal>
        ensures { (told_verdict result, self.new.0) ≡ set_bank self.old.0 index value }
    {
        if N <= index {
            return Err(Refusal::InvalidIndex);
        }
        self.0[index] = value;
        Ok(())
    }

    pub fn get_index(self, index: usize) -> Result<u8, Refusal>
        ensures { told (λ bank. bank) result ≡ bank_of self.entry.0 index }
    {
        self.0.get(index).copied().ok_or(Refusal::InvalidIndex)
    }

    // A refused call leaves the mask as it was (RULES: F2).
    pub fn set_channel(&mut self, channel: usize, set: bool) -> Result<(), Refusal>
        ensures { (told_verdict result, self.new.0) ≡ set_channel self.old.0 channel set }
    {
        let index = channel / 8;
        if N <= index {
            return Err(Refusal::InvalidIndex);
        }
        self.0[index] = bits::put_flag(self.0[index], (channel % 8) as u8, set);
        Ok(())
    }

    pub fn is_enabled(self, index: usize) -> Result<bool, Refusal>
        ensures { told (λ on. on) result ≡ enabled_of self.entry.0 index }
    {
        let bank = self.get_index(index / 8)?;
        Ok(bits::flag(bank, (index % 8) as u8))
    }

    // Whether the channel is switched on. A channel past the mask is not.
    fn is_on(&self, channel: usize) -> bool
        ensures { result ≡ channel_on self.now.0 channel }
    {
        match self.0.get(channel / 8) {
            Some(bank) => bits::flag(*bank, (channel % 8) as u8),
            None => false,
        }
    }

    // The first channels one by one, as many as the array has.
    fn first_statuses<const CHANNELS: usize>(&self) -> [bool; CHANNELS]
        ensures { result ≡ statuses_of CHANNELS self.now.0 }
    {
        array::from_fn(
            |channel| -> bool
                ensures { result ≡ channel_on self.entry.now.0 channel }
            { self.is_on(channel) },
        )
    }
}

// statuses stands once for each width: an array of 8 N channels is a computed const argument, which the language has not.
impl ChannelMask<2> {
    // Channel by channel, whether it is switched on.
    pub fn statuses(self) -> [bool; 16]
        ensures { result ≡ statuses_of 16 self.0 }
    {
        self.first_statuses()
    }

    // How many channels are switched on (RULES: S12).
    pub fn channels_on(self) -> u32
        ensures { result ≡ channels_on self.0 }
    {
        u16::from_le_bytes(self.0).count_ones()
    }
}

impl ChannelMask<9> {
    // Channel by channel, whether it is switched on.
    pub fn statuses(self) -> [bool; 72]
        ensures { result ≡ statuses_of 72 self.0 }
    {
        self.first_statuses()
    }
}
