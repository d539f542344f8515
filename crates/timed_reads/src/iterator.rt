ghost use Rattle.std.specs.Prelude.{◌≡◌};
ghost use Rattle.table.specs.Table.{length_of};
ghost use Rattle.payloads.specs.Commands.{sent_down};
ghost use Rattle.walk.specs.Told.{told_step};
ghost use Rattle.lent.specs.Iterator.{nth_answer};
ghost use Rattle.timed_reads.specs.Nth.{is_command};

use lent::nth_step;
use table::{Direction, Rules};
use walk::Step;

// 1 for a command, and 0 for anything else.
fn is_command(found: Step) -> u64
    ensures { result ≡ is_command (told_step found) }
{
    u64::from(matches!(found, Step::Command { .. }))
}

// Makes an iterator, calls its `next` n times and once more, and answers whether the last call gave a command.
#[unsafe(no_mangle)]
pub extern "C" fn nazhdivar_nth(stream: &[u8], n: usize) -> u64
    ensures { result ≡ is_command (nth_answer (length_of sent_down) stream.now n) }
{
    is_command(nth_step(Rules::new(Direction::Down), stream, n))
}
