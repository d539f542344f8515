// The entries of a stream, in lent numbers.
ghost use Rattle.std.specs.Prelude.{◌≤◌, ◌≡◌, length};
ghost use Rattle.table.specs.Table.{length_of};
ghost use Rattle.jumps.specs.Entries.{entries_of, made};
ghost use Rattle.jumps.specs.Told.{told_entries};

use table::{Refusal, Rules};
use walk::{after_steps, walk};

// The most bytes of a stream whose offsets, the end among them, are numbers of 32 bits.
const LARGEST: usize = 4_294_967_295;

// The entries, one behind the other: as many as there are numbers for them.
fn write_entries(rules: Rules, stream: &[u8], numbers: &mut [u32])
    requires total_value { length numbers.old ≡ length (entries_of (length_of rules) stream.now) }
    requires stream_len_bound { length stream.now ≤ 4_294_967_295 }
    ensures { numbers.new ≡ entries_of (length_of rules) stream.now }
{
    let mut at: usize = 0;
    for number in numbers.iter_mut() {
        *number = at as u32;
        at = after_steps(rules, stream, at, 16);
    }
}

// Writes where the commands 0, 16, 32 and so on are, and answers how many they are; all behind them is left as it was. A refusal writes nothing.
pub fn make_entries(rules: Rules, stream: &[u8], numbers: &mut [u32]) -> Result<usize, Refusal>
    ensures { (told_entries result, numbers.new) ≡ made (length_of rules) stream.now numbers.old }
{
    let end = walk(rules, stream);
    let total = end.count.div_ceil(16);
    if numbers.len() < total {
        return Err(Refusal::BufferTooShort);
    }
    if LARGEST < stream.len() {
        return Err(Refusal::InvalidIndex);
    }
    write_entries(rules, stream, &mut numbers[..total]);
    Ok(total)
}
