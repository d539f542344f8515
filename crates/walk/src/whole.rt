ghost use Rattle.std.specs.Prelude.{◌≡◌};
ghost use Rattle.table.specs.Table.{length_of};
ghost use Rattle.walk.specs.Step.{tally, tally_from};
ghost use Rattle.walk.specs.Told.{told_walk};
ghost use Rattle.walk.specs.Walk.{walk_of};

use crate::lanes::in_lanes;
use crate::step::{Step, step_at};
use table::{Refusal, Rules};

// How a walk ends, and at which offset. No Result: a stop is no refusal (RULES: F3).
#[derive(Clone, Copy, PartialEq, Eq)]
pub enum Outcome {
    End(usize),
    Stop { reason: Refusal, at: usize },
    // The walk was to begin past the stream.
    Refused(Refusal),
}

#[derive(Clone, Copy, PartialEq, Eq)]
pub struct WalkEnd {
    pub outcome: Outcome,
    // The number of commands handed out.
    pub count: usize,
}

// The walk from an offset on, step by step. No iterator goes over the steps: a proof speaks of the offset, a variable here.
#[tactic(auto, using(crate::proofs::Steps::step_on, crate::proofs::Steps::tally_step))]
pub fn walk_from(rules: Rules, stream: &[u8], from: usize) -> WalkEnd
    ensures { told_walk result ≡ tally_from (length_of rules) stream.now from }
{
    let mut at = from;
    let mut count: usize = 0;
    let outcome = loop {
        match step_at(rules, stream, at) {
            Step::Command { next, .. } => {
                at = next;
                count += 1;
            }
            Step::End => break Outcome::End(at),
            Step::Stop { reason, at } => break Outcome::Stop { reason, at },
            Step::Refused(reason) => break Outcome::Refused(reason),
        }
    };
    WalkEnd { outcome, count }
}

// The whole walk. A long stream's front is walked in lanes.
pub fn walk(rules: Rules, stream: &[u8]) -> WalkEnd
    ensures { told_walk result ≡ tally (walk_of (length_of rules) stream.now) }
{
    let front = in_lanes(rules, stream);
    let rest = walk_from(rules, stream, front.at);
    let count = front.count + rest.count;
    WalkEnd { count, ..rest }
}
