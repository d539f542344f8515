// Records that are lent as structs. The functions are public under these names (docs/CLAIMS.md); the loops are those of the list in `build`.
ghost use Rattle.std.specs.Prelude.{◌≡◌};
ghost use Rattle.table.specs.Table.{length_of};
ghost use Rattle.build.specs.Build.{total_of, build_of};
ghost use Rattle.build.specs.Told.{told_build};
ghost use Rattle.lent.specs.Records.{items_of};

use build::{BuildError, Record, build_list, list_len};
use table::Rules;

// The bytes that the records take, or the build's refusal of the list.
pub fn records_len(rules: Rules, records: &[Record]) -> Result<usize, BuildError>
    ensures { told_build result ≡ total_of (length_of rules) (items_of records.now) }
{
    list_len(rules, records, false)
}

// Writes the commands of the records, one behind the other, and answers how many bytes that were; all behind them is left as it was. A refusal
// writes nothing.
pub fn build_records(rules: Rules, records: &[Record], out: &mut [u8]) -> Result<usize, BuildError>
    ensures { (told_build result, out.new) ≡ build_of (length_of rules) (items_of records.now) out.old }
{
    build_list(rules, records, false, out)
}

// `build_records` for callers that hold the records in an array: of four, and no const parameter, since docs/CLAIMS.md and its theorems name it so.
pub fn build_four(rules: Rules, records: [Record; 4], out: &mut [u8]) -> Result<usize, BuildError>
    ensures { (told_build result, out.new) ≡ build_of (length_of rules) (items_of records) out.old }
{
    build_records(rules, &records, out)
}
