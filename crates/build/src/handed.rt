// The commands of a stream as records, each with where it came from.
ghost use Rattle.std.specs.Prelude.{◌≡◌, ◌+◌, ◌≤◌, length, get_or, take, drop};
ghost use Rattle.table.specs.Table.{length_of};
ghost use Rattle.walk.specs.Walk.{placed};
ghost use Rattle.build.specs.Handed.{from_frame, handed_at};
ghost use Rattle.build.specs.Told.{told_handed};

use crate::record::Record;
use table::Rules;
use walk::{Step, step_at};

// What stands at an offset of a stream, and the record of it where it is a command. Else the record is that of no command. The two stand side by
// side, and no `Option` has the record, since the definition of what is handed out, `handed_at`, and the claims on it speak of both.
#[derive(Clone, Copy)]
pub struct Handed {
    pub step: Step,
    pub record: Record,
}

// The record of a command that stands at an offset with its whole payload. Its bytes past the payload's end are 0.
fn from_frame(frame: u32, stream: &[u8], at: usize, cid: u8, len: usize) -> Record
    requires { at + 1 + len ≤ length stream.now }
    ensures { result ≡ from_frame frame (placed at cid (take len (drop (at + 1) stream.now))) }
{
    let body = &stream[at + 1..at + 1 + len];
    let byte = |i: usize| -> u8
        ensures { result ≡ get_or body.entry.now i 0 }
    { body.get(i).copied().unwrap_or(0) };
    Record {
        cid,
        payload: [byte(0), byte(1), byte(2), byte(3), byte(4)],
        frame,
        len,
        offset: at,
    }
}

// What stands at an offset of the stream of a frame, as a record.
pub fn record_at(rules: Rules, frame: u32, stream: &[u8], at: usize) -> Handed
    ensures { told_handed result ≡ handed_at (length_of rules) frame stream.now at }
{
    let step = step_at(rules, stream, at);
    match step {
        Step::Command { cid, len, .. } => Handed {
            step,
            record: from_frame(frame, stream, at, cid, len),
        },
        Step::End | Step::Stop { .. } | Step::Refused(_) => Handed {
            step,
            record: Record::none(),
        },
    }
}
