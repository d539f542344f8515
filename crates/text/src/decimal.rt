// Numbers in decimal.
ghost use Rattle.std.specs.Prelude.{◌≡◌, ◌+◌, ◌<◌, length};
ghost use Rattle.bits.specs.Memory.{written_at};
ghost use Rattle.text.specs.Decimal.{decimal};

// The number of digits that `put_decimal` needs room for.
#[tactic(auto, using(crate::proofs::Decimals::decimal_power, crate::proofs::Decimals::decimal_zero))]
pub fn decimal_len(n: usize) -> usize
    ensures { result ≡ length (decimal n) }
{
    n.checked_ilog10().map_or(1, |k| k as usize + 1)
}

fn digit(d: usize) -> u8
    requires { d < 10 }
    ensures { result ≡ 48 + d }
{
    b'0' + d as u8
}

#[tactic(auto, using(bits::proofs::Memory::no_room, crate::proofs::Decimals::decimal_some))]
pub fn put_decimal(out: &mut [u8], at: usize, n: usize) -> usize
    ensures { (result, out.new) ≡ written_at out.old at (decimal n) }
{
    let k = decimal_len(n);
    // Two tests, as in `put_bytes`.
    if out.len() < at {
        return at;
    }
    if out.len() - at < k {
        return at;
    }
    let end = at + k;
    let mut rest = n;
    for i in (at + 1..end).rev() {
        out[i] = digit(rest % 10);
        rest /= 10;
    }
    out[at] = digit(rest);
    end
}
