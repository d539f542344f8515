ghost use Rattle.std.specs.Prelude.{◌≡◌};
ghost use Rattle.table.specs.Table.{length_of};
ghost use Rattle.payloads.specs.Commands.{sent_up, sent_down};
ghost use Rattle.walk.specs.Stepping.{moved_to};
ghost use Rattle.walk.specs.Told.{told_step};
ghost use Rattle.build.specs.Told.{told_handed};
ghost use Rattle.lent.specs.Iterator.{fresh, nexted, nexted_record, nth_answer};

use build::{Handed, record_at};
use table::{Direction, Rules};
use walk::{Step, step_at};

// A stream, the offset in it at which the next command stands, and the rules that it is read by.
#[derive(Clone, Copy)]
pub struct MacCommandIterator<'a> {
    pub data: &'a [u8],
    pub index: usize,
    pub rules: Rules,
}

// Where the step after this one is: behind a command, and at the same offset where there is none.
fn behind(found: Step, at: usize) -> usize
    ensures { result ≡ moved_to (told_step found) at }
{
    match found {
        Step::Command { next, .. } => next,
        Step::End | Step::Stop { .. } | Step::Refused(_) => at,
    }
}

impl<'a> MacCommandIterator<'a> {
    pub fn new(data: &'a [u8], rules: Rules) -> MacCommandIterator<'a>
        ensures { result ≡ fresh «data».entry rules }
    {
        MacCommandIterator {
            data,
            index: 0,
            rules,
        }
    }

    // What stands at the index. The index moves behind a command, and stays at the end or a stop. It is no `Iterator` of std's, since what
    // it answers there is the end or the stop, again and again, and no `None`.
    pub fn next(&mut self) -> Step
        ensures { (told_step result, self.new) ≡ nexted self.old }
    {
        let found = step_at(self.rules, self.data, self.index);
        self.index = behind(found, self.index);
        found
    }

    // The same as a record, for a stream that came in this frame.
    pub fn next_record(&mut self, frame: u32) -> Handed
        ensures { (told_handed result, self.new) ≡ nexted_record frame self.old }
    {
        let handed = record_at(self.rules, frame, self.data, self.index);
        self.index = behind(handed.step, self.index);
        handed
    }

    pub fn data(self) -> &'a [u8]
        ensures { result ≡ self.entry.«data» }
    {
        self.data
    }

    pub fn index(self) -> usize
        ensures { result ≡ self.entry.index }
    {
        self.index
    }
}

// Two functions, a constant apart: these are the names that the Rust has (docs/PORT-OTHER.md).
pub fn parse_uplink_mac_commands<'a>(data: &'a [u8]) -> MacCommandIterator<'a>
    ensures { result ≡ fresh «data».entry sent_up }
{
    MacCommandIterator::new(data, Rules::new(Direction::Up))
}

pub fn parse_downlink_mac_commands<'a>(data: &'a [u8]) -> MacCommandIterator<'a>
    ensures { result ≡ fresh «data».entry sent_down }
{
    MacCommandIterator::new(data, Rules::new(Direction::Down))
}

// What the call of `next` after n others answers. A stream has no more commands than bytes, and behind them the iterator stays.
pub fn nth_step(rules: Rules, stream: &[u8], n: usize) -> Step
    ensures { told_step result ≡ nth_answer (length_of rules) stream.now n }
{
    let mut iterator = MacCommandIterator::new(stream, rules);
    for _call in 0..n.min(stream.len()) {
        iterator.next();
    }
    iterator.next()
}
