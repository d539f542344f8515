ghost use Rattle.std.specs.Prelude.{◌≡◌};
ghost use Rattle.table.specs.Told.{told, told_verdict};
ghost use Rattle.fields.specs.Settings.{max_data_rate, min_data_rate, range_of, range_verdict};

use table::Refusal;

// The data rates that a channel may use.
#[derive(Clone, Copy, PartialEq, Eq)]
pub struct DataRateRange(u8);

// Any byte, unchecked.
impl From<u8> for DataRateRange {
    ghost from_gives = { λ byte range. range.0 ≡ byte };

    fn from(byte: u8) -> Self {
        DataRateRange(byte)
    }
}

impl DataRateRange {
    // Any byte, unchecked: `From` under the name that the Rust has.
    pub fn new_from_raw(byte: u8) -> Self
        ensures { result.0 ≡ byte }
    {
        DataRateRange(byte)
    }

    // The Rust's name, and no `TryFrom`: for every type with a `From`, as here, the library has that already.
    pub fn new(byte: u8) -> Result<Self, Refusal>
        ensures { told (λ range. range.0) result ≡ range_of byte }
    {
        DataRateRange::can_build_from(byte)?;
        Ok(DataRateRange(byte))
    }

    // Whether `new` takes the byte.
    pub fn can_build_from(byte: u8) -> Result<(), Refusal>
        ensures { told_verdict result ≡ range_verdict byte }
    {
        if byte / 16 < byte % 16 {
            return Err(Refusal::InvalidDataRateRange);
        }
        Ok(())
    }

    // The highest data rate allowed on the channel.
    pub fn max_data_rate(self) -> u8
        ensures { result ≡ max_data_rate self.0 }
    {
        self.0 / 16
    }

    // The lowest data rate allowed on the channel.
    pub fn min_data_rate(self) -> u8
        ensures { result ≡ min_data_rate self.0 }
    {
        self.0 % 16
    }

    pub fn raw_value(self) -> u8
        ensures { result ≡ self.0 }
    {
        self.0
    }
}
