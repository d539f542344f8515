// Entries A0 to A5: the walk over a stream, an iterator's calls, and a command as a record, each down and up. At each offset of a walk
// the step in numbers, the typed command and the payload part must agree, and the walk's records must build the stream again.
use crate::answer::Answer;
use crate::reading::{from, two};
use crate::{fronts, rebuilt};
use build::Record;
use payloads::PayloadBytes;
use table::{Direction, Rules};
use walk::{CommandStep, Outcome, Step, WalkEnd};

// ---- The walk.

fn told_ending(told: Answer, outcome: Outcome) -> Answer {
    match outcome {
        Outcome::End(place) => told.byte(0).two(place),
        Outcome::Stop { reason, at } => told.byte(reason.number()).two(at),
        Outcome::Refused(reason) => told.byte(reason.number()),
    }
}

fn told_walk(end: WalkEnd) -> Answer {
    told_ending(Answer::new().two(end.count), end.outcome)
}

// The offset after the command that the step in numbers finds.
fn behind(rules: Rules, stream: &[u8], at: usize) -> usize {
    match walk::step_at(rules, stream, at) {
        Step::Command { next, .. } => next,
        _ => at,
    }
}

// A typed command's payload, and the part of the stream that holds it; and that its step ends where the step in numbers does.
fn told_payload(
    told: Answer,
    rules: Rules,
    stream: &[u8],
    at: usize,
    payload: PayloadBytes,
    next: usize,
) -> Answer {
    let part = walk::payload_at(rules, stream, at);
    let alike = payload
        .bytes
        .get(..payload.len)
        .is_some_and(|bytes| bytes == part);
    told.only_where(next == behind(rules, stream, at))
        .all(part)
        .only_where(alike)
}

// Two arms alike, since the two directions' enums share no trait (payloads/src/downlink.rt): a closure for each would be the same line twice.
fn command_at(rules: Rules, stream: &[u8], at: usize) -> Answer {
    let told = Answer::new().two(at);
    match rules.direction {
        Direction::Down => match walk::downlink_at(stream, at) {
            CommandStep::Command(c, next) => {
                let told = told.heading(c.cid(), c.uplink(), c.len());
                told_payload(told, rules, stream, at, c.bytes(), next)
            }
            _ => Answer::new(),
        },
        Direction::Up => match walk::uplink_at(stream, at) {
            CommandStep::Command(c, next) => {
                let told = told.heading(c.cid(), c.uplink(), c.len());
                told_payload(told, rules, stream, at, c.bytes(), next)
            }
            _ => Answer::new(),
        },
    }
}

fn whole(rules: Rules, stream: &[u8], out: &mut [u8]) -> usize {
    let walked = walk::walk(rules, stream);
    let told = told_walk(walked).only_where(rebuilt::same(rules, stream, walked.count));
    let mut end = told.put(out, 0);
    let mut at = 0;
    for _ in 0..walked.count {
        end = command_at(rules, stream, at).put(out, end);
        at = behind(rules, stream, at);
    }
    end
}

// ---- An iterator's calls, so many as the input says.

fn told_step(step: Step) -> Answer {
    match step {
        Step::End => Answer::new().byte(0).four(0),
        Step::Command { cid, len, next } => Answer::new().byte(3).byte(cid).length(len).two(next),
        Step::Stop { reason, at } => Answer::new().byte(reason.number()).two(0).two(at),
        Step::Refused(reason) => Answer::new().byte(reason.number()),
    }
}

fn iterator(rules: Rules, input: &[u8], out: &mut [u8]) -> usize {
    let stream = from(input, 2);
    let mut end = 0;
    for n in 0..two(input) {
        end = told_step(fronts::nth_step(rules, stream, n)).put(out, end);
    }
    end
}

// ---- The command at the stream's front, as a record.

fn told_record<C>(found: CommandStep<C>) -> Answer
where
    C: Drop,
    Record: From<C>,
{
    match found {
        CommandStep::Command(command, _) => Answer::new().record(Record::from(command)),
        _ => Answer::new(),
    }
}

pub(crate) fn answer(which: u8, input: &[u8], out: &mut [u8]) -> usize {
    let down = Rules::new(Direction::Down);
    let up = Rules::new(Direction::Up);
    match which {
        0 => whole(down, input, out),
        1 => whole(up, input, out),
        2 => iterator(down, input, out),
        3 => iterator(up, input, out),
        4 => told_record(walk::downlink_at(input, 0)).put(out, 0),
        5 => told_record(walk::uplink_at(input, 0)).put(out, 0),
        _ => 0,
    }
}
