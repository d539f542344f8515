// A line is judged before anything of it is written. In a line every command of a CID is a request, or every one an answer, so what its commands
// will find is known from the open requests before it and from how many commands of each CID went before in the line.
ghost use Rattle.std.specs.Prelude.{◌%◌, ◌≡◌, ltb, length, drop};
ghost use mathlib.Core.List.{head?};
ghost use Rattle.bits.specs.Bits.{bit_of};
ghost use Rattle.ledger.specs.Events.{is_request, agrees_with};
ghost use Rattle.ledger.specs.Memory.{request_of, open_requests};
ghost use Rattle.ledger.specs.Parents.{brought_by};
ghost use Rattle.ledger.specs.Settings.{is_beyond};
ghost use Rattle.table.specs.Told.{told, told_verdict};
ghost use Rattle.ledger.specs.Working.{reply_of, taking, left_behind, Judges};

use crate::Ledger;
use crate::commands::Command;
use crate::memory::{Asked, CIDS, MOST_OPEN, Queue};
use table::{Refusal, Rules};
use walk::{Step, step_at};

// Whether the low byte of a request's payload is the index of no channel that is held.
fn is_far(payload: u64) -> bool
    ensures { result ≡ ltb 15 (payload % 256) }
{
    15 < payload % 256
}

// Whether a request is for a channel that is not held.
fn is_beyond(cid: u8, request: Asked) -> bool
    ensures { result ≡ is_beyond (request_of cid request) }
{
    match cid {
        0x07 | 0x0A => is_far(request.payload),
        _ => false,
    }
}

// Whether an answer brings an entry, so many answers of its CID going before it. What it says is asked last, since it counts for few.
fn is_due(queue: &Queue, before: usize, command: Command) -> bool
    ensures { bit_of result ≡ length (brought_by (reply_of command.entry.cid (agrees_with command.entry.cid command.entry.payload.now) 0 0 0)
        (head? (drop before (open_requests command.entry.cid queue.now)))) }
{
    let Some(request) = queue.get(before) else {
        return true;
    };
    if !is_beyond(command.cid, request) {
        return false;
    }
    command.says_yes()
}

// An entry takes the room of one: so much is left behind it of what was before.
fn room_after(left: usize) -> Result<usize, Refusal>
    ensures { told (λ n. n) result ≡ taking 1 left }
{
    left.checked_sub(1).ok_or(Refusal::BufferTooShort)
}

// A command that so many of its CID go before, in a line with room left for so many entries: how many have room behind it.
fn left_after(
    rules: Rules,
    queue: &Queue,
    before: usize,
    command: Command,
    left: usize,
) -> Result<usize, Refusal>
    ensures { told (λ n. n) result ≡ left_behind (open_requests command.entry.cid queue.now) (is_request rules command.entry.cid) before
        command.entry.cid (agrees_with command.entry.cid command.entry.payload.now) left }
{
    if command.is_request(rules) {
        let free = MOST_OPEN - queue.open();
        return if before < free {
            Ok(left)
        } else {
            Err(Refusal::PendingFull)
        };
    }
    if is_due(queue, before, command) {
        room_after(left)
    } else {
        Ok(left)
    }
}

impl Ledger {
    // Whether a line is taken, where a list has room for so many entries, or the first refusal in it, in the order of its stream.
    pub(crate) fn judge(&self, rules: Rules, stream: &[u8], room: usize) -> Result<(), Refusal>
        ensures { Judges rules stream.now self.now.pending self.now.listed room (told_verdict result) }
    {
        let mut seen = [0usize; CIDS];
        let mut left = room.saturating_sub(self.listed);
        let mut at: usize = 0;
        // No plainer as an iterator: the proof speaks of the offset, which one would hide. The label is the loop's name in the proof.
        'commands: loop {
            match step_at(rules, stream, at) {
                Step::Command { cid, next, .. } => {
                    let row = cid as usize;
                    let before = seen[row];
                    seen[row] = before + 1;
                    let payload = &stream[at + 1..next];
                    let command = Command { cid, payload };
                    left = left_after(rules, &self.pending[row], before, command, left)?;
                    at = next;
                }
                Step::End => return Ok(()),
                Step::Stop { .. } => {
                    room_after(left)?;
                    return Ok(());
                }
                Step::Refused(_) => return Ok(()),
            }
        }
    }
}
