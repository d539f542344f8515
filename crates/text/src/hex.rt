// Bytes in hex.
ghost use Rattle.std.specs.Prelude.{◌≡◌, ◌<◌};
ghost use Rattle.bits.specs.Memory.{written_at};
ghost use Rattle.text.specs.Hex.{hex_digit, hex_byte, hex_of};

use crate::raw::put_bytes;

fn hex_digit(d: u8) -> u8
    requires { d < 16 }
    ensures { result ≡ hex_digit d }
{
    b"0123456789ABCDEF"[d as usize]
}

fn digits(byte: u8) -> [u8; 2]
    ensures { result ≡ hex_byte byte }
{
    [hex_digit(byte / 16), hex_digit(byte % 16)]
}

// One byte.
pub fn put_hex(out: &mut [u8], at: usize, byte: u8) -> usize
    ensures { (result, out.new) ≡ written_at out.old at (hex_byte byte) }
{
    put_bytes(out, at, &digits(byte))
}

// Bytes, one behind the other.
#[tactic(auto, using(crate::proofs::Writing::wrote_not))]
pub fn put_hexes(out: &mut [u8], at: usize, bytes: &[u8]) -> usize
    ensures { (result, out.new) ≡ written_at out.old at (hex_of bytes.now) }
{
    // Two tests, as in `put_bytes`.
    if out.len() < at {
        return at;
    }
    // Half of the room, since twice the bytes could be too large a number.
    if (out.len() - at) / 2 < bytes.len() {
        return at;
    }
    let mut next = at;
    for byte in bytes {
        let [high, low] = digits(*byte);
        out[next] = high;
        out[next + 1] = low;
        next += 2;
    }
    next
}
