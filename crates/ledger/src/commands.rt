// A command of a stream: whether it is a request, what an answer says, and a payload as one number.
ghost use Rattle.std.specs.Prelude.{[], ◌∷◌, ◌≡◌, ◌<◌, get_or};
ghost use Rattle.payloads.specs.Commands.{in_five};
ghost use Rattle.ledger.specs.Events.{is_request, agrees_with};
ghost use Rattle.ledger.specs.Memory.{five_of};

use payloads::{
    DlChannelAnsPayload, LinkADRAnsPayload, NewChannelAnsPayload, RXParamSetupAnsPayload,
};
use table::{Direction, Rules};

// A command of a stream, by its CID, and its payload.
#[derive(Clone, Copy)]
pub(crate) struct Command<'a> {
    pub cid: u8,
    pub payload: &'a [u8],
    ghost low: { cid < 16 },
}

// Five bytes as one number, the low byte first.
fn low_first(a: u8, b: u8, c: u8, d: u8, e: u8) -> u64
    ensures { five_of result ≡ a ∷ b ∷ c ∷ d ∷ e ∷ [] }
{
    u64::from_le_bytes([a, b, c, d, e, 0, 0, 0])
}

impl Command<'_> {
    // Whether it is named Req, by the rows of the table.
    pub(crate) fn is_request(self, rules: Rules) -> bool
        ensures { result ≡ is_request rules self.entry.cid }
    {
        let cid = self.cid;
        match rules.direction {
            Direction::Down => if cid < 0x03 { false } else { cid < 0x0B },
            Direction::Up => if cid == 0x02 { true } else { cid == 0x0D },
        }
    }

    // Byte i of its payload; 0 past the end.
    fn payload_byte(self, i: usize) -> u8
        ensures { result ≡ get_or self.entry.payload.now i 0 }
    {
        if i < self.payload.len() {
            self.payload[i]
        } else {
            0
        }
    }

    // Whether an answer says yes, by its `ack`; yes where it has none.
    pub(crate) fn says_yes(self) -> bool
        ensures { result ≡ agrees_with self.entry.cid self.entry.payload.now }
    {
        let first = self.payload_byte(0);
        match self.cid {
            0x03 => LinkADRAnsPayload(first).ack(),
            0x05 => RXParamSetupAnsPayload(first).ack(),
            0x07 => NewChannelAnsPayload(first).ack(),
            0x0A => DlChannelAnsPayload(first).ack(),
            _ => true,
        }
    }

    // Its payload as one number, the low byte first.
    pub(crate) fn payload_number(self) -> u64
        ensures { five_of result ≡ (in_five self.entry.payload.now).1 }
    {
        let a = self.payload_byte(0);
        let b = self.payload_byte(1);
        let c = self.payload_byte(2);
        let d = self.payload_byte(3);
        let e = self.payload_byte(4);
        low_first(a, b, c, d, e)
    }
}
