// The names of the commands, by the table (RULES: T1).
ghost use Rattle.std.specs.Prelude.{◌≡◌, length};
ghost use Rattle.bits.specs.Memory.{written_at};
ghost use Rattle.table.specs.Table.{rows, name_in, name_of};
ghost use Rattle.table.specs.declared.rules.Direction.TheVariants.{Down, Up};
ghost use Rattle.text.specs.Characters.{ascii};

use crate::raw::put_bytes;
use table::{Direction, Rules};

// By number, and no enum: a CID is a byte of the stream, any of 256.
// The letters of a CID's two commands, the one sent down and the one sent up: none for a byte that is no CID.
#[tactic(auto, using(crate::proofs::Naming::ascii_cond, std::proofs::lemmas::Bool::Decides::nat_tests), unfolding(crate::specs::Characters::ascii))]
fn names(cid: u8) -> (&'static [u8], &'static [u8])
    ensures down { result.0.now ≡ ascii (name_in rows Down cid) }
    ensures up { result.1.now ≡ ascii (name_in rows Up cid) }
{
    match cid {
        0x02 => (b"LinkCheckAns", b"LinkCheckReq"),
        0x03 => (b"LinkADRReq", b"LinkADRAns"),
        0x04 => (b"DutyCycleReq", b"DutyCycleAns"),
        0x05 => (b"RXParamSetupReq", b"RXParamSetupAns"),
        0x06 => (b"DevStatusReq", b"DevStatusAns"),
        0x07 => (b"NewChannelReq", b"NewChannelAns"),
        0x08 => (b"RXTimingSetupReq", b"RXTimingSetupAns"),
        0x09 => (b"TXParamSetupReq", b"TXParamSetupAns"),
        0x0A => (b"DlChannelReq", b"DlChannelAns"),
        0x0D => (b"DeviceTimeAns", b"DeviceTimeReq"),
        _ => (b"", b""),
    }
}

// Those of the command in one direction.
fn name(rules: Rules, cid: u8) -> &'static [u8]
    ensures { result.now ≡ ascii (name_of rules cid) }
{
    let (down, up) = names(cid);
    match rules.direction {
        Direction::Down => down,
        Direction::Up => up,
    }
}

// How many letters a command's name has.
pub fn name_len(rules: Rules, cid: u8) -> usize
    ensures { result ≡ length (ascii (name_of rules cid)) }
{
    name(rules, cid).len()
}

// By each length that names have: of a copy whose length it doesn't know the compiler makes a call of memmove, which an archive for C would need
// from outside.
pub fn put_name(rules: Rules, out: &mut [u8], at: usize, cid: u8) -> usize
    ensures { (result, out.new) ≡ written_at out.old at (ascii (name_of rules cid)) }
{
    let letters = name(rules, cid);
    if let Some(&ten) = letters.as_array::<10>() {
        return put_bytes(out, at, &ten);
    }
    if let Some(&twelve) = letters.as_array::<12>() {
        return put_bytes(out, at, &twelve);
    }
    if let Some(&thirteen) = letters.as_array::<13>() {
        return put_bytes(out, at, &thirteen);
    }
    if let Some(&fifteen) = letters.as_array::<15>() {
        return put_bytes(out, at, &fifteen);
    }
    if let Some(&sixteen) = letters.as_array::<16>() {
        return put_bytes(out, at, &sixteen);
    }
    // A byte that is no CID has no name.
    at
}
