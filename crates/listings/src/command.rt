// A command of a stream, as a line lists it: its bytes, and how many they are.
ghost use Rattle.std.specs.Prelude.{[], ◌∷◌, ◌≡◌, ◌+◌, ◌*◌, ◌≤◌, true, cond, eqb, length};
ghost use Rattle.std.proofs.Math.Option.{some};
ghost use Rattle.bits.specs.Memory.{written_at};
ghost use Rattle.table.specs.Table.{length_of};
ghost use Rattle.text.specs.Characters.{ascii, letter_of};
ghost use Rattle.text.specs.Hex.{hex_field};
ghost use Rattle.text.specs.Lines.{line};
ghost use Rattle.listings.specs.Listing.{channels};
ghost use Rattle.listings.specs.Passes.{body_at, is_counted, Stands};

use payloads::LinkADRReqPayload;
use table::{Direction, Rules};
use text::{decimal_len, name_len, put_byte, put_bytes, put_decimal, put_hex, put_hexes, put_name};

#[derive(Clone, Copy)]
pub(crate) struct Command<'a> {
    rules: Rules,
    at: usize,
    cid: u8,
    payload: &'a [u8],
    // Of the length that the rules give the CID.
    ghost known: { length_of rules cid ≡ some (length payload.now) },
}

fn field_len(len: usize) -> usize
    requires { len ≤ 5 }
    ensures { result ≡ cond (eqb len 0) 1 (2 * len) }
{
    if len == 0 { 1 } else { 2 * len }
}

impl<'a> Command<'a> {
    ghost use Rattle.listings.specs.Shown.{line_of, before, behind};

    // The command at an offset, by what the step there tells of it.
    pub(crate) fn new(rules: Rules, stream: &'a [u8], at: usize, cid: u8, len: usize) -> Command<'a>
        requires { Stands rules stream.now at cid len }
        ensures rules { result.rules ≡ rules }
        ensures at { result.at ≡ at }
        ensures cid { result.cid ≡ cid }
        ensures payload { result.payload.now ≡ body_at stream.now at len }
    {
        Command {
            rules,
            at,
            cid,
            payload: &stream[at + 1..at + 1 + len],
        }
    }

    // Whether it is LinkADRReq, which alone has one field more (RULES: L4).
    fn is_counted(self) -> bool
        ensures { result ≡ is_counted self.entry.rules self.entry.cid }
    {
        match self.rules.direction {
            // By number, as everywhere: a CID is a byte of the stream, any of 256, and no enum.
            Direction::Down => self.cid == 0x03,
            Direction::Up => false,
        }
    }

    // How many channels a LinkADRReq switches on.
    fn channels(self) -> usize
        requires { is_counted self.rules self.cid ≡ true }
        ensures { result ≡ channels self.entry.payload.now }
    {
        // By index: of a slice pattern the proof of the arm for other lengths didn't close.
        let payload = self.payload;
        let [a, b, c, d] = [payload[0], payload[1], payload[2], payload[3]];
        let request = LinkADRReqPayload(a, b, c, d);
        request.channel_mask().channels_on() as usize
    }

    // ---- How long its line is.

    #[tactic(auto, using(crate::proofs::Lining::digits_few))]
    fn behind_len(self) -> usize
        ensures { result ≡ length (behind self.entry) }
    {
        if self.is_counted() {
            2 + decimal_len(self.channels())
        } else {
            1
        }
    }

    pub(crate) fn len(self) -> usize
        ensures value { result ≡ length (line (line_of self.entry)) }
        ensures upper_bound { result ≤ 57 }
    {
        let offset = decimal_len(self.at);
        let name = name_len(self.rules, self.cid);
        let payload = field_len(self.payload.len());
        let rest = self.behind_len();
        // With the offset, the name and the payload go four tabs, the letter and the CID.
        offset + 7 + name + payload + rest
    }

    // ---- Its bytes, where there is room for them.

    fn put_before(self, out: &mut [u8], to: usize) -> usize
        requires { to + length (before self) ≤ length out.old }
        ensures { (result, out.new) ≡ written_at out.old to (before self.entry) }
    {
        let a = put_decimal(out, to, self.at);
        let b = put_bytes(out, a, &[b'\t', letter(self.rules), b'\t']);
        let c = put_hex(out, b, self.cid);
        let d = put_byte(out, c, b'\t');
        let e = put_name(self.rules, out, d, self.cid);
        put_byte(out, e, b'\t')
    }

    #[tactic(auto, using(crate::proofs::Lining::dash_is))]
    fn put_payload(self, out: &mut [u8], to: usize) -> usize
        ensures { (result, out.new) ≡ written_at out.old to (hex_field self.entry.payload.now) }
    {
        if self.payload.is_empty() {
            put_byte(out, to, b'-')
        } else {
            put_hexes(out, to, self.payload)
        }
    }

    fn put_behind(self, out: &mut [u8], to: usize) -> usize
        requires { to + length (behind self) ≤ length out.old }
        ensures { (result, out.new) ≡ written_at out.old to (behind self.entry) }
    {
        if self.is_counted() {
            let a = put_byte(out, to, b'\t');
            let b = put_decimal(out, a, self.channels());
            put_byte(out, b, b'\n')
        } else {
            put_byte(out, to, b'\n')
        }
    }

    pub(crate) fn put(self, out: &mut [u8], to: usize) -> usize
        requires { to + length (line (line_of self)) ≤ length out.old }
        ensures { (result, out.new) ≡ written_at out.old to (line (line_of self.entry)) }
    {
        let a = self.put_before(out, to);
        let b = self.put_payload(out, a);
        self.put_behind(out, b)
    }
}

#[tactic(auto, using(crate::proofs::Lining::letter_down, crate::proofs::Lining::letter_up))]
fn letter(rules: Rules) -> u8
    ensures { result ∷ [] ≡ ascii (letter_of rules.direction) }
{
    match rules.direction {
        Direction::Down => b'D',
        Direction::Up => b'U',
    }
}
