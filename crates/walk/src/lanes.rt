// A long stream is walked in three places at once. A step waits for the one before it, since only that tells where it is; steps in three
// lanes do not wait for each other. Where a lane comes to the place at which the next one began, that one's steps are the walk's.
ghost use Rattle.std.specs.Prelude.{◌+◌, ◌≤◌, length, IfSome};
ghost use Rattle.table.specs.Table.{length_of};
ghost use Rattle.walk.specs.Lanes.{Leads, Comes};

use crate::step::{Step, step_at};
use table::Rules;

// How far a walk has come: the offset where it stands, and the number of commands handed out.
#[derive(Clone, Copy, Default)]
pub(crate) struct Way {
    pub(crate) at: usize,
    pub(crate) count: usize,
}

// Three lanes, each as many commands behind its beginning.
#[derive(Clone, Copy)]
struct Lanes {
    first: usize,
    second: usize,
    third: usize,
    count: usize,
}

// A stream, and the rules that it is read by. That an offset is in the stream stands in each contract below: a type for such offsets would have to hold
// the stream too.
#[derive(Clone, Copy)]
struct Reading<'a> {
    rules: Rules,
    stream: &'a [u8],
}

// In a shorter stream, to find the places for three lanes costs more than they save.
const LONG: usize = 192;

// Of so many offsets in a row, one is a command's, unless the walk has stopped before: no command has more bytes.
const LONGEST: usize = 6;

impl Reading<'_> {
    // The offset behind the command at an offset, if one stands there.
    #[tactic(auto, using(crate::proofs::Steps::step_on, crate::proofs::Steps::leads_behind))]
    fn behind(self, at: usize) -> Option<usize>
        ensures { Comes (length_of self.entry.rules) self.entry.stream.now at result }
    {
        match step_at(self.rules, self.stream, at) {
            Step::Command { next, .. } => Some(next),
            _ => None,
        }
    }

    // The offset behind three commands in a row.
    fn behind_three(self, at: usize) -> Option<usize>
        ensures { IfSome result (λ next. next ≤ length self.entry.stream.now) }
    {
        let second = self.behind(at)?;
        let third = self.behind(second)?;
        self.behind(third)
    }

    // Where a lane may begin: behind three commands in a row that start at one of the next offsets, or else at the stream's end. That the
    // walk comes there is likely, and is not promised.
    fn place_near(self, near: usize) -> usize
        requires { near + 6 ≤ length self.stream.now }
        ensures { result ≤ length self.entry.stream.now }
    {
        (near..near + LONGEST)
            .find_map(|at| self.behind_three(at))
            .unwrap_or(self.stream.len())
    }

    // The same as `behind`, where the stream has room for any command, and so without a test of the room.
    #[tactic(auto, using(crate::proofs::Onward::any))]
    fn behind_any(self, at: usize) -> Option<usize>
        requires { at + 6 ≤ length self.stream.now }
        ensures { Comes (length_of self.entry.rules) self.entry.stream.now at result }
    {
        let len = self.rules.payload_len(self.stream[at])?;
        Some(at + 1 + len)
    }

    // Steps in all three lanes, until one ends, comes to where the next began, or to where the stream may have no room for a command.
    fn together(self, second: usize, third: usize, last: usize) -> Lanes
        requires { (second ≤ last) × (third ≤ last) × (last + 6 ≤ length self.stream.now) }
        ensures { Leads (length_of self.entry.rules) self.entry.stream.now 0 result.count result.first
            × Leads (length_of self.entry.rules) self.entry.stream.now second result.count result.second
            × Leads (length_of self.entry.rules) self.entry.stream.now third result.count result.third
            × (result.first ≤ length self.entry.stream.now)
            × (result.second ≤ length self.entry.stream.now)
            × (result.third ≤ length self.entry.stream.now) }
    {
        // No `for`, here and in `alone`: only a step tells where the next one is.
        let mut a: usize = 0;
        let mut b = second;
        let mut c = third;
        let mut count: usize = 0;
        while a < second && b < third && c < last {
            let Some(x) = self.behind_any(a) else { break };
            let Some(y) = self.behind_any(b) else { break };
            let Some(z) = self.behind_any(c) else { break };
            a = x;
            b = y;
            c = z;
            count += 1;
        }
        Lanes {
            first: a,
            second: b,
            third: c,
            count,
        }
    }

    // One lane, up to a place or past it, or to where no command stands.
    fn alone(self, from: usize, place: usize) -> Way
        requires { from ≤ length self.stream.now }
        ensures { Leads (length_of self.entry.rules) self.entry.stream.now from result.count result.at × (result.at ≤ length self.entry.stream.now) }
    {
        let mut at = from;
        let mut count: usize = 0;
        while at < place {
            let Some(next) = self.behind(at) else { break };
            at = next;
            count += 1;
        }
        Way { at, count }
    }
}

// The front of the walk that three lanes make. Of a short stream, nothing.
pub(crate) fn in_lanes(rules: Rules, stream: &[u8]) -> Way
    ensures { Leads (length_of rules) stream.now 0 result.count result.at }
{
    if stream.len() < LONG {
        return Way::default();
    }
    let reading = Reading { rules, stream };
    let near = stream.len() / 3;
    let second_place = reading.place_near(near);
    let third_place = reading.place_near(near + near);
    let last = stream.len() - LONGEST;
    if last < second_place || last < third_place {
        return Way::default();
    }
    let lanes = reading.together(second_place, third_place, last);
    let first = reading.alone(lanes.first, second_place);
    let one = lanes.count + first.count;
    if first.at != second_place {
        return Way {
            at: first.at,
            count: one,
        };
    }
    let second = reading.alone(lanes.second, third_place);
    let more = lanes.count + second.count;
    let two = one + more;
    if second.at != third_place {
        return Way {
            at: second.at,
            count: two,
        };
    }
    let three = two + lanes.count;
    Way {
        at: lanes.third,
        count: three,
    }
}
