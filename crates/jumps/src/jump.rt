// A command asked for by its number.
ghost use Rattle.std.specs.Prelude.{◌≡◌};
ghost use Rattle.table.specs.Table.{length_of};
ghost use Rattle.jumps.specs.Jump.{from_entry, jumped};
ghost use Rattle.jumps.specs.Told.{told_jump};

use table::{Refusal, Rules};
use walk::{Step, after_steps, step_at};

// Where a command is, and which: its offset, its CID, and how many bytes its payload has.
#[derive(Clone, Copy, PartialEq, Eq)]
pub struct Spot {
    pub at: usize,
    pub cid: u8,
    pub len: usize,
}

// The command behind so many steps from an entry, which is walked from wherever it points.
fn from_entry(rules: Rules, stream: &[u8], entry: u32, steps: usize) -> Result<Spot, Refusal>
    ensures { told_jump result ≡ from_entry (length_of rules) stream.now entry steps }
{
    let from = entry as usize;
    if stream.len() < from {
        return Err(Refusal::InvalidIndex);
    }
    let at = after_steps(rules, stream, from, steps);
    match step_at(rules, stream, at) {
        Step::Command { cid, len, .. } => Ok(Spot { at, cid, len }),
        Step::End | Step::Stop { .. } => Err(Refusal::NoSuchCommand),
        Step::Refused(reason) => Err(reason),
    }
}

// The command of this number, counted from 0. One entry is read, the one that covers it, and n mod 16 steps lead from there to the command.
#[tactic(auto, unfolding(crate::specs::Jump::jumped))]
pub fn jump_to(rules: Rules, stream: &[u8], entries: &[u32], n: usize) -> Result<Spot, Refusal>
    ensures { told_jump result ≡ jumped (length_of rules) stream.now entries.now n }
{
    let entry = entries.get(n / 16).ok_or(Refusal::BufferTooShort)?;
    from_entry(rules, stream, *entry, n % 16)
}
