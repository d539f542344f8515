ghost use Rattle.std.specs.Prelude.{◌≡◌};
ghost use Rattle.table.specs.Table.{length_of};
ghost use Rattle.payloads.specs.Commands.{sent_down};
ghost use Rattle.build.specs.Build.{build_of};
ghost use Rattle.build.specs.Records.{slots_of};
ghost use Rattle.exports.specs.Answer.{with_one};

use crate::DOWN;
use build::{BuildError, build_mac_commands};

// Writes the commands of packed records, eight bytes each, that a device is sent. Answers the bytes written, or, from 2 ^ 32 on, a
// refusal: its number times 2 ^ 32, and the place of the record at fault.
#[unsafe(no_mangle)]
pub extern "C" fn nazhdivar_build(records: &[u8], out: &mut [u8]) -> u64
    ensures { (result, out.new) ≡ with_one (build_of (length_of sent_down) (slots_of records.now) out.old) }
{
    // One number, for C.
    match build_mac_commands(DOWN, records, out) {
        Ok(total) => total as u64,
        Err(BuildError::At { reason, place }) => {
            (reason.number() as u64) * 4_294_967_296 + (place as u64)
        }
        Err(BuildError::Whole(reason)) => (reason.number() as u64) * 4_294_967_296,
    }
}
