// What the setters write into a byte of the image.
ghost use Rattle.std.specs.Prelude.{◌≡◌, ◌<◌, ◌≤◌, cond, ltb, Ok, Err};
ghost use Rattle.bits.specs.Bits.{set_field, bit_of};

use table::Refusal;

// Four bits of the byte, from bit lo on. A number that they can't hold is refused.
pub(crate) fn nibble(byte: u8, lo: u8, v: u8, refusal: Refusal) -> Result<u8, Refusal>
    requires { lo ≤ 4 }
    ensures { result ≡ cond (ltb v 16) (Ok (set_field lo 4 byte v)) (Err refusal) }
{
    if 15 < v {
        return Err(refusal);
    }
    Ok(bits::put(byte, lo, 4, v))
}

// One bit of the byte.
pub(crate) fn flag(byte: u8, k: u8, on: bool) -> u8
    requires { k < 8 }
    ensures { result ≡ set_field k 1 byte (bit_of on) }
{
    bits::put_flag(byte, k, on)
}
