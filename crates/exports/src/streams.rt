// A stream that a device is sent: how many commands it has.
ghost use Rattle.std.specs.Prelude.{◌≡◌, length};
ghost use Rattle.table.specs.Table.{length_of};
ghost use Rattle.payloads.specs.Commands.{sent_down};
ghost use Rattle.walk.specs.Walk.{walk_of};

use crate::DOWN;
use walk::walk;

// How many commands the walk hands out.
#[unsafe(no_mangle)]
pub extern "C" fn nazhdivar_count(stream: &[u8]) -> usize
    ensures { result ≡ length (walk_of (length_of sent_down) stream.now).cmds }
{
    walk(DOWN, stream).count
}
