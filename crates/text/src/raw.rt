// Bytes as they are.
ghost use Rattle.std.specs.Prelude.{[], ◌∷◌, ◌≡◌};
ghost use Rattle.bits.specs.Memory.{written_at};

// Public, for a caller that has one byte.
pub fn put_byte(out: &mut [u8], at: usize, byte: u8) -> usize
    ensures { (result, out.new) ≡ written_at out.old at (byte ∷ []) }
{
    put_bytes(out, at, &[byte])
}

#[tactic(auto, using(bits::proofs::Memory::no_room, crate::proofs::Writing::copied))]
pub fn put_bytes(out: &mut [u8], at: usize, bytes: &[u8]) -> usize
    ensures { (result, out.new) ≡ written_at out.old at bytes.now }
{
    // Two tests, in each writer by itself: `at` may lie behind the end. A function that answers the room has 0 there as at the end itself,
    // where alone no bytes have a place.
    if out.len() < at {
        return at;
    }
    if out.len() - at < bytes.len() {
        return at;
    }
    let end = at + bytes.len();
    out[at..end].copy_from_slice(bytes);
    end
}
