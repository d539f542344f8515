ghost use Rattle.std.specs.Prelude.{◌≡◌};
ghost use Rattle.table.specs.Table.{length_of};
ghost use Rattle.walk.specs.Part.{shown, payload_part};
ghost use Rattle.walk.specs.Step.{step_at};
ghost use Rattle.walk.specs.Stepping.{after_steps};
ghost use Rattle.walk.specs.Told.{told_step};

use table::{Refusal, Rules};

// What stands at an offset of a stream. No CommandStep: a command has two numbers here, whose names its callers match.
#[derive(Clone, Copy, PartialEq, Eq)]
pub enum Step {
    // The stream's end.
    End,
    // A command: its CID, the bytes of its payload, and the offset behind it.
    Command { cid: u8, len: usize, next: usize },
    // No command, and why: an unknown CID, or a payload cut short. A stop stays: its offset is the step's own.
    Stop { reason: Refusal, at: usize },
    // The offset is past the stream.
    Refused(Refusal),
}

#[tactic(auto, using(crate::proofs::Steps::step_past, crate::proofs::Steps::step_end, crate::proofs::Steps::step_by))]
pub fn step_at(rules: Rules, stream: &[u8], at: usize) -> Step
    ensures { told_step result ≡ step_at (length_of rules) stream.now at }
{
    if stream.len() <= at {
        if stream.len() < at {
            return Step::Refused(Refusal::InvalidIndex);
        }
        return Step::End;
    }
    let cid = stream[at];
    match rules.payload_len(cid) {
        None => Step::Stop {
            reason: Refusal::UnknownMacCommand,
            at,
        },
        Some(len) => {
            // Of the bytes left, one is the CID.
            if len < stream.len() - at {
                Step::Command {
                    cid,
                    len,
                    next: at + 1 + len,
                }
            } else {
                Step::Stop {
                    reason: Refusal::TruncatedPayload,
                    at,
                }
            }
        }
    }
}

// The payload of the command at an offset: the part of the stream that begins behind its CID. Where there is no command, the front of the
// stream, with no bytes.
#[tactic(auto, using(crate::proofs::Steps::step_on, crate::proofs::Parts::part_is))]
pub fn payload_at(rules: Rules, stream: &[u8], at: usize) -> &[u8]
    ensures { shown result ≡ payload_part stream.entry at (step_at (length_of rules) stream.now at) }
{
    match step_at(rules, stream, at) {
        Step::Command { next, .. } => &stream[at + 1..next],
        _ => &stream[..0],
    }
}

// The offset after n steps, the first of them at an offset. Where a step finds no command, those behind it stay there.
#[tactic(auto, using(crate::proofs::Stepping::none_made, crate::proofs::Stepping::step_made))]
pub fn after_steps(rules: Rules, stream: &[u8], from: usize, n: usize) -> usize
    ensures { result ≡ after_steps (length_of rules) stream.now from n }
{
    let mut at = from;
    for _made in 0..n {
        let Step::Command { next, .. } = step_at(rules, stream, at) else {
            break;
        };
        at = next;
    }
    at
}
