ghost use Rattle.std.specs.Prelude.{◌≡◌};
ghost use Rattle.fields.specs.Settings.{rx1_dr_offset, rx2_data_rate};

// The downlink settings of RXParamSetupReq.
#[derive(Clone, Copy, PartialEq, Eq)]
pub struct DLSettings(u8);

impl From<u8> for DLSettings {
    ghost from_gives = { λ byte settings. settings.0 ≡ byte };

    fn from(byte: u8) -> Self {
        DLSettings(byte)
    }
}

impl DLSettings {
    // `From` under the name that the Rust has.
    pub fn new(byte: u8) -> Self
        ensures { result.0 ≡ byte }
    {
        DLSettings(byte)
    }

    // The offset between the uplink data rate and the downlink data rate in the first receive window.
    pub fn rx1_dr_offset(self) -> u8
        ensures { result ≡ rx1_dr_offset self.0 }
    {
        self.0 / 16 % 8
    }

    // The data rate of a downlink in the second receive window.
    pub fn rx2_data_rate(self) -> u8
        ensures { result ≡ rx2_data_rate self.0 }
    {
        self.0 % 16
    }

    pub fn raw_value(self) -> u8
        ensures { result ≡ self.0 }
    {
        self.0
    }
}
