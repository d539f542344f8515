// Lists of records, in whatever form they are lent: their total, and the build.
ghost use Rattle.std.specs.Prelude.{◌≡◌, map, length, IfOk};
ghost use Rattle.table.specs.Table.{length_of};
ghost use Rattle.walk.specs.Walk.{encode};
ghost use Rattle.build.specs.Build.{total_of, build_of};
ghost use Rattle.build.specs.Records.{recs_held, cmd_of, listed};
ghost use Rattle.build.specs.Told.{told_build};

use crate::record::Holds;
use table::{Refusal, Rules};

// Why a list is refused: the record at this place, counted from 0, is at fault; or the list as a whole, or the room for it.
#[derive(Clone, Copy, PartialEq, Eq)]
pub enum BuildError {
    At { reason: Refusal, place: usize },
    Whole(Refusal),
}

// The most records of a list.
const MOST: usize = 4096;

// The bytes that the records take. Behind them a record may be cut off, which counts as one and is refused. A flag tells so, as it does in the
// definition of what is judged, `listed`.
pub fn list_len<T: Holds>(rules: Rules, records: &[T], cut_off: bool) -> Result<usize, BuildError>
    ensures total { told_build result ≡ total_of (length_of rules) (listed (recs_held T.held records.now) cut_off) }
    ensures written { IfOk result (λ n. n ≡ length (encode (map cmd_of (recs_held T.held records.now)))) }
{
    let most = MOST - usize::from(cut_off);
    if most < records.len() {
        return Err(BuildError::Whole(Refusal::ListTooLong));
    }
    let mut sum = 0;
    for (place, record) in records.iter().enumerate() {
        // A `match`, and no `map_err` and `?`: of a closure in a generic function the proof has no plain fact (tried).
        match record.record().judge(rules) {
            Ok(size) => sum += size,
            Err(reason) => return Err(BuildError::At { reason, place }),
        }
    }
    if cut_off {
        return Err(BuildError::At {
            reason: Refusal::WrongLength,
            place: records.len(),
        });
    }
    Ok(sum)
}

// The commands of all records, one behind the other: they fill `out`.
fn write_list<T: Holds>(records: &[T], out: &mut [u8])
    requires { length out.old ≡ length (encode (map cmd_of (recs_held T.held records.now))) }
    ensures { out.new ≡ encode (map cmd_of (recs_held T.held records.now)) }
{
    let mut at = 0;
    for record in records {
        at = record.record().lay(out, at);
    }
}

// Writes the commands of the records, one behind the other, and answers how many bytes that were; all behind them is left as it was. A refusal
// writes nothing.
pub fn build_list<T: Holds>(
    rules: Rules,
    records: &[T],
    cut_off: bool,
    out: &mut [u8],
) -> Result<usize, BuildError>
    ensures { (told_build result, out.new) ≡ build_of (length_of rules) (listed (recs_held T.held records.now) cut_off) out.old }
{
    let total = list_len(rules, records, cut_off)?;
    if out.len() < total {
        return Err(BuildError::Whole(Refusal::BufferTooShort));
    }
    write_list(records, &mut out[..total]);
    Ok(total)
}
