// A line that was judged: its commands and its stop, one after another.
ghost use Rattle.std.specs.Prelude.{◌≡◌, ◌<◌};
ghost use Rattle.table.specs.Answers.{given};
ghost use Rattle.walk.specs.Walk.{placed};
ghost use Rattle.ledger.specs.Book.{step, steps};
ghost use Rattle.ledger.specs.Events.{event_of};
ghost use Rattle.ledger.specs.Memory.{book_of};
ghost use Rattle.ledger.specs.Working.{fault_in, events_from};

use crate::Ledger;
use crate::commands::Command;
use crate::memory::{Asked, Kind, Place};
use table::Rules;
use walk::{Step, step_at};

impl Ledger {
    // A command: a request is open behind the others of its CID, an answer goes to the earliest.
    fn take_command(&mut self, list: &mut [u64], rules: Rules, command: Command, at: Place)
        requires { fault_in
            (step (event_of rules at.line at.frame (placed at.offset command.cid command.payload.now)) (book_of self.old list.old)) ≡ 0 }
        ensures { given (book_of self.new list.new)
            ≡ step (event_of rules at.line at.frame (placed at.offset command.entry.cid command.entry.payload.now)) (book_of self.old list.old) }
    {
        if command.is_request(rules) {
            let payload = command.payload_number();
            let row = command.cid as usize;
            self.pending[row].push(Asked { at, payload });
        } else {
            let agrees = command.says_yes();
            self.answer(list, command.cid, agrees, at);
        }
    }

    // The events of a stream, none of which is at fault. Their line is the last that is counted.
    pub(crate) fn apply(&mut self, list: &mut [u64], rules: Rules, stream: &[u8], frame: u64)
        requires { fault_in (steps (events_from rules self.old.lines frame stream.now 0) (book_of self.old list.old)) ≡ 0 }
        ensures { given (book_of self.new list.new) ≡ steps (events_from rules self.old.lines frame stream.now 0) (book_of self.old list.old) }
    {
        let line = self.lines;
        let mut at: usize = 0;
        // No plainer as an iterator: the proof speaks of the offset, which one would hide. The label is the loop's name in the proof.
        'commands: loop {
            let place = Place {
                line,
                frame,
                offset: at as u64,
            };
            match step_at(rules, stream, at) {
                Step::Command { cid, next, .. } => {
                    let payload = &stream[at + 1..next];
                    self.take_command(list, rules, Command { cid, payload }, place);
                    at = next;
                }
                Step::End => return,
                Step::Stop { .. } => {
                    self.note(list, Kind::Stopped, place);
                    return;
                }
                Step::Refused(_) => return,
            }
        }
    }
}
