// Records that are packed in bytes, eight a slot.
ghost use Rattle.std.specs.Prelude.{◌≡◌};
ghost use Rattle.table.specs.Table.{length_of};
ghost use Rattle.build.specs.Build.{total_of, build_of};
ghost use Rattle.build.specs.Records.{slots_of};
ghost use Rattle.build.specs.Told.{told_build};

use crate::list::{BuildError, build_list, list_len};
use crate::record::{Holds, Record};
use table::Rules;

// A slot: CID, length, five payload bytes, and one that is ignored.
impl Holds for [u8; 8] {
    ghost use Rattle.build.specs.Records.{frameless, slot_at};

    ghost held = { λ s. frameless (slot_at s 0) };

    fn record(&self) -> Record {
        Record::new(
            self[0],
            self[1] as usize,
            [self[2], self[3], self[4], self[5], self[6]],
        )
    }
}

// This and the build below are public under these names (docs/CLAIMS.md); the loops are those of the list, for every form of record.
// The bytes that the records take, or the build's refusal of the list. Bytes at the end that make no whole slot are a record too, cut off.
pub fn mac_commands_len(rules: Rules, records: &[u8]) -> Result<usize, BuildError>
    ensures { told_build result ≡ total_of (length_of rules) (slots_of records.now) }
{
    let (slots, rest) = records.as_chunks::<8>();
    list_len(rules, slots, !rest.is_empty())
}

// Writes the commands of the records, one behind the other, and answers how many bytes that were; all behind them is left as it was. A refusal
// writes nothing.
pub fn build_mac_commands(rules: Rules, records: &[u8], out: &mut [u8]) -> Result<usize, BuildError>
    ensures { (told_build result, out.new) ≡ build_of (length_of rules) (slots_of records.now) out.old }
{
    let (slots, rest) = records.as_chunks::<8>();
    build_list(rules, slots, !rest.is_empty(), out)
}
