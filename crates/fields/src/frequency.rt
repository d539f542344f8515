ghost use Rattle.std.specs.Prelude.{◌≡◌};
ghost use Rattle.table.specs.Told.{told};
ghost use Rattle.fields.specs.Frequency.{bytes_of, hertz};
ghost use Rattle.fields.specs.Lists.{exactly};

use table::Refusal;

// A channel's central frequency, in steps of 100 Hz: three bytes, low byte first.
#[derive(Clone, Copy, PartialEq, Eq)]
pub struct Frequency([u8; 3]);

impl From<[u8; 3]> for Frequency {
    ghost from_gives = { λ bytes frequency. bytes_of frequency ≡ bytes };

    fn from(bytes: [u8; 3]) -> Self {
        Frequency(bytes)
    }
}

impl Frequency {
    // The Rust's name: a `TryFrom` beside it would be the same once more.
    pub fn new(bytes: &[u8]) -> Result<Self, Refusal>
        ensures { told bytes_of result ≡ exactly 3 bytes.now }
    {
        let bytes = bytes.as_array().ok_or(Refusal::WrongLength)?;
        Ok(Frequency(*bytes))
    }

    // The frequency in Hz.
    pub fn value(self) -> u32
        ensures { result ≡ hertz (bytes_of self) }
    {
        let [low, middle, high] = self.0;
        u32::from_le_bytes([low, middle, high, 0]) * 100
    }

    // A method of its own: std's `AsRef` promises nothing of what it lends.
    pub fn as_ref(self) -> [u8; 3]
        ensures { result ≡ bytes_of self }
    {
        self.0
    }
}
