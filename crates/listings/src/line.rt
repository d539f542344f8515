// One line: how long it is, and its bytes.
ghost use Rattle.std.specs.Prelude.{◌≡◌, ◌+◌, ◌≤◌, length};
ghost use Rattle.bits.specs.Memory.{written_at};
ghost use Rattle.table.specs.Table.{length_of};
ghost use Rattle.walk.specs.Step.{step_at};
ghost use Rattle.walk.specs.Told.{told_step};
ghost use Rattle.walk.specs.Walk.{end, stop};
ghost use Rattle.text.specs.Lines.{line};
ghost use Rattle.listings.specs.Listing.{last_line, in_frame};
ghost use Rattle.listings.specs.Passes.{step_line, stamp};

use crate::command::Command;
use table::Rules;
use text::{decimal_len, put_byte, put_bytes, put_decimal};
use walk::Step;

// ---- How long a line is.

// The length of what every line begins with, the frame's number and a tab.
#[tactic(auto, using(crate::proofs::Lining::digits_few))]
pub(crate) fn stamp_len(frame: u32) -> usize
    ensures { result ≡ length (stamp frame) }
{
    decimal_len(frame as usize) + 1
}

// The length of the line that a step is listed by, but for what it begins with, whose length the caller adds. So that the sum has room, there is a
// bound, though no line has all of it: 20 digits of an offset, a name of 16 letters, a payload of 10 digits, and 11 characters for the rest.
#[tactic(auto, using(crate::proofs::Lining::digits_few, crate::proofs::Lining::end_long, crate::proofs::Lining::stop_long, crate::proofs::Walking::end_shown, crate::proofs::Walking::stop_shown))]
pub(crate) fn line_len(rules: Rules, stream: &[u8], at: usize, found: Step) -> usize
    requires { told_step found ≡ step_at (length_of rules) stream.now at }
    ensures value { result ≡ length (line (step_line rules stream.now at (told_step found))) }
    ensures upper_bound { result ≤ 57 }
{
    match found {
        Step::Command { cid, len, .. } => Command::new(rules, stream, at, cid, len).len(),
        Step::End | Step::Refused(_) => decimal_len(at) + 5,
        Step::Stop { reason, .. } => decimal_len(at) + 7 + decimal_len(reason.number() as usize),
    }
}

// ---- Its bytes, where there is room for them.

fn put_stamp(out: &mut [u8], to: usize, frame: u32) -> usize
    requires { to + length (stamp frame) ≤ length out.old }
    ensures { (result, out.new) ≡ written_at out.old to (stamp frame) }
{
    let a = put_decimal(out, to, frame as usize);
    put_byte(out, a, b'\t')
}

fn put_end(out: &mut [u8], to: usize, at: usize) -> usize
    requires { to + length (line (last_line (end at))) ≤ length out.old }
    ensures { (result, out.new) ≡ written_at out.old to (line (last_line (end at))) }
{
    let a = put_decimal(out, to, at);
    put_bytes(out, a, b"\tend\n")
}

fn put_stop(out: &mut [u8], to: usize, at: usize, number: u8) -> usize
    requires { to + length (line (last_line (stop number at))) ≤ length out.old }
    ensures { (result, out.new) ≡ written_at out.old to (line (last_line (stop number at))) }
{
    let a = put_decimal(out, to, at);
    let b = put_bytes(out, a, b"\tstop\t");
    let c = put_decimal(out, b, number as usize);
    put_byte(out, c, b'\n')
}

// Writes the line that a step is listed by, and answers the offset behind it. Seven parameters: a struct of rules, stream, offset and step would be
// made at each step for this call and for `line_len` alone.
pub(crate) fn put_line(
    rules: Rules,
    frame: u32,
    out: &mut [u8],
    to: usize,
    stream: &[u8],
    at: usize,
    found: Step,
) -> usize
    requires found_value { told_step found ≡ step_at (length_of rules) stream.now at }
    requires found_in_bounds { to + length (line (in_frame frame (step_line rules stream.now at (told_step found)))) ≤ length out.old }
    ensures { (result, out.new) ≡ written_at out.old to (line (in_frame frame (step_line rules stream.now at (told_step found)))) }
{
    let a = put_stamp(out, to, frame);
    match found {
        Step::Command { cid, len, .. } => Command::new(rules, stream, at, cid, len).put(out, a),
        Step::End | Step::Refused(_) => put_end(out, a, at),
        Step::Stop { reason, .. } => put_stop(out, a, at, reason.number()),
    }
}
