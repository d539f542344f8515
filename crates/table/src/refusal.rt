// The refusals, R1 to R19 of docs/RULES.md in their order. Each is given when its line says so, and in no other case.
ghost use Rattle.std.specs.Prelude.{◌≡◌};
ghost use Rattle.table.specs.Refusals.{number_of};

#[derive(Clone, Copy, PartialEq, Eq)]
pub enum Refusal {
    // A byte that the direction has no command for.
    UnknownMacCommand = 1,
    // A command whose payload is cut off.
    TruncatedPayload = 2,
    // More or fewer bytes than a sized payload or a `Frequency` has; a record that states another length than the table.
    WrongLength = 3,
    // No room for the total, or for a stream's entries; too few bytes for a mask; no entry that covers a command.
    BufferTooShort = 4,
    // A channel or a bank that the mask has not; an offset or an entry behind the end of the stream; a stream too long for entries.
    InvalidIndex = 5,
    // A range, made with the check, whose highest rate is below its lowest.
    InvalidDataRateRange = 6,
    // A setter's data rate over 15.
    InvalidDataRate = 7,
    // A setter's power over 15.
    InvalidTxPower = 8,
    // A margin below -32 or over 31.
    MarginOutOfRange = 9,
    // A delay's code over 15.
    DelayOutOfRange = 10,
    // A power limit over 15.
    MaxEirpOutOfRange = 11,
    // Nanoseconds over 1,000,000,000.
    NanoSecondsOutOfRange = 12,
    // Chooser: commands in the payload, by port 0, and in FOpts too.
    BothPlaces = 13,
    // Chooser: more than 15 bytes of FOpts.
    FOptsTooLong = 14,
    // Chooser: a payload, and no port.
    PayloadWithoutPort = 15,
    // Over 4,096 records.
    ListTooLong = 16,
    // Ledger: a ninth open request of one CID.
    PendingFull = 17,
    // Ledger: a line of a trace that has not the form.
    BadTraceLine = 18,
    // Jump: the walk from the entry stops or ends before the command.
    NoSuchCommand = 19,
}

impl Refusal {
    // The refusal's number in docs/RULES.md. A method and no `From`: docs/CLAIMS.md names it.
    pub fn number(self) -> u8
        ensures { result ≡ number_of self }
    {
        self as u8
    }
}
