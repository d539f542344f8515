// A recorded exchange, line by line.
ghost use Rattle.std.specs.Prelude.{◌≡◌, ◌<◌, length};
ghost use Rattle.ledger.specs.Book.{replayed};
ghost use Rattle.ledger.specs.Events.{following};
ghost use Rattle.ledger.specs.Memory.{book_of};
ghost use Rattle.table.specs.Told.{told};
ghost use Rattle.ledger.specs.Told.{told_replay, told_line};
ghost use Rattle.ledger.specs.Working.{front_at, at_line};

use crate::Ledger;
use crate::lines::{MOST_BYTES, line_at};
use table::{Refusal, Rules};

// The line that a replay refuses, by its number, and why.
#[derive(Clone, Copy, PartialEq, Eq)]
pub struct BadLine {
    pub reason: Refusal,
    pub line: u64,
}

fn number_after(lines: u64) -> u64
    ensures { result ≡ following lines }
{
    lines.saturating_add(1)
}

impl Ledger {
    // The line at an offset is taken, and the offset behind it is answered. It is judged before anything is written, so a refused one leaves ledger
    // and list as they were.
    fn take_line(
        &mut self,
        list: &mut [u64],
        text: &[u8],
        at: usize,
        stream: &mut [u8; MOST_BYTES],
    ) -> Result<usize, Refusal>
        requires { at < length text.now }
        ensures { (told (λ n. n) result, book_of self.new list.new) ≡ at_line (front_at text.now at) (book_of self.old list.old) }
    {
        let found = line_at(text, at, stream).ok_or(Refusal::BadTraceLine)?;
        let rules = Rules::new(found.direction);
        let bytes = &stream[..found.len];
        let room = list.len() / 4;
        self.judge(rules, bytes, room)?;
        self.lines = number_after(self.lines);
        self.apply(list, rules, bytes, found.frame as u64);
        Ok(found.next)
    }
}

// Replays a text into a ledger and a lent list, of four numbers an entry. A refused line leaves ledger and list as they were before it, and what
// the lines before it did stays.
pub fn replay_trace(ledger: &mut Ledger, text: &[u8], list: &mut [u64]) -> Result<(), BadLine>
    ensures { (told_replay result, told_line result, book_of ledger.new list.new) ≡ replayed text.now (book_of ledger.old list.old) }
{
    let mut stream = [0; MOST_BYTES];
    let mut at = 0;
    // No plainer as an iterator over lines: each would carry this offset, of which the proof speaks.
    while at < text.len() {
        let line = number_after(ledger.lines);
        match ledger.take_line(list, text, at, &mut stream) {
            Ok(next) => at = next,
            Err(reason) => return Err(BadLine { reason, line }),
        }
    }
    Ok(())
}
