ghost use Rattle.std.specs.Prelude.{◌≡◌};
ghost use Rattle.fields.specs.Settings.{channel_mask_control, number_of_transmissions};

// The redundancy byte of LinkADRReq: a type of its own beside DLSettings, with readers of its own (RULES: S1, M2).
#[derive(Clone, Copy, PartialEq, Eq)]
pub struct Redundancy(u8);

impl From<u8> for Redundancy {
    ghost from_gives = { λ byte redundancy. redundancy.0 ≡ byte };

    fn from(byte: u8) -> Self {
        Redundancy(byte)
    }
}

impl Redundancy {
    // `From` under the name that the Rust has.
    pub fn new(data: u8) -> Self
        ensures { result.0 ≡ «data» }
    {
        Redundancy(data)
    }

    // How the channel mask beside it is to be understood.
    pub fn channel_mask_control(self) -> u8
        ensures { result ≡ channel_mask_control self.0 }
    {
        self.0 / 16 % 8
    }

    // How many times each message is to be sent.
    pub fn number_of_transmissions(self) -> u8
        ensures { result ≡ number_of_transmissions self.0 }
    {
        self.0 % 16
    }

    pub fn raw_value(self) -> u8
        ensures { result ≡ self.0 }
    {
        self.0
    }
}
