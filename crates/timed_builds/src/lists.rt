// Lists that are built, down: from bytes that say what to set, and from a stream that is read.
ghost use Rattle.std.specs.Prelude.{◌≡◌, ◌≤◌, length};
ghost use Rattle.build.specs.Told.{told_build};
ghost use Rattle.timed_builds.specs.Written.{written};

use crate::setting::wished;
use build::{BuildError, Record, build_mac_commands};
use lent::build_four;
use table::{Direction, Rules};
use walk::{CommandStep, downlink_at};

// The bytes that were written, and none for a refusal.
fn written(answer: Result<usize, BuildError>) -> u64
    ensures { result ≡ written (told_build answer) }
{
    answer.unwrap_or(0) as u64
}

// Builds the records in the first slots.
fn build_first(slots: &[u8], count: usize, out: &mut [u8]) -> u64
    ensures { result ≤ length out.old }
{
    if slots.len() / 8 < count {
        return 0;
    }
    written(build_mac_commands(Rules::new(Direction::Down), &slots[..8 * count], out))
}

// Makes and sets a creator for each wish, packs the records into slots, and builds them.
#[unsafe(no_mangle)]
pub extern "C" fn nazhdivar_set(wishes: &[u8], slots: &mut [u8], out: &mut [u8]) -> u64
    ensures { result ≤ length out.old }
{
    let (wishes, _) = wishes.as_chunks::<6>();
    for (i, wish) in wishes.iter().enumerate() {
        wished(*wish).pack(slots, i);
    }
    build_first(slots, wishes.len(), out)
}

// The same for four wishes, whose records are lent as structs.
#[unsafe(no_mangle)]
pub extern "C" fn nazhdivar_set_four(wishes: &[u8], out: &mut [u8]) -> u64
    ensures { result ≤ length out.old }
{
    let (wishes, _) = wishes.as_chunks::<6>();
    let [a, b, c, d, ..] = wishes else {
        return 0;
    };
    let records = [wished(*a), wished(*b), wished(*c), wished(*d)];
    written(build_four(Rules::new(Direction::Down), records, out))
}

// Reads the commands of a stream, packs their records into slots, and builds them.
#[unsafe(no_mangle)]
pub extern "C" fn nazhdivar_resend(stream: &[u8], slots: &mut [u8], out: &mut [u8]) -> u64
    ensures { result ≤ length out.old }
{
    let mut at = 0;
    let mut count = 0;
    // A while, since there is no iterator over the steps: the proof speaks of the offset.
    while let CommandStep::Command(command, next) = downlink_at(stream, at) {
        Record::from(command).pack(slots, count);
        count += 1;
        at = next;
    }
    build_first(slots, count, out)
}
