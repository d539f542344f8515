// The two passes over a stream: the text's length, and the text. Two loops, and no closure for what is done at a step: each has an invariant of its own.
// Nor is there an iterator over the steps: the invariants speak of the offset, and the last step, an end or a stop, is listed too. Rules and stream are two
// parameters, as the public functions below are asked for.
ghost use Rattle.std.specs.Prelude.{◌≡◌, ◌≤◌, length};
ghost use Rattle.bits.specs.Memory.{written_at};
ghost use Rattle.listings.specs.Into.{largest, length_within, into};
ghost use Rattle.listings.specs.Listing.{listing_of};
ghost use Rattle.listings.specs.Told.{told_listing};

use crate::line::{line_len, put_line, stamp_len};
use table::{Refusal, Rules};
use walk::{Step, step_at};

#[tactic(auto, using(crate::proofs::Lining::stamp_few))]
fn measure(rules: Rules, frame: u32, stream: &[u8], room: usize) -> Result<usize, Refusal>
    ensures { told_listing result ≡ length_within room (listing_of rules frame stream.now) }
{
    let stamp = stamp_len(frame);
    let mut at: usize = 0;
    let mut sum: usize = 0;
    loop {
        let found = step_at(rules, stream, at);
        let len = stamp + line_len(rules, stream, at, found);
        if room - sum < len {
            break Err(Refusal::BufferTooShort);
        }
        sum += len;
        let Step::Command { next, .. } = found else {
            break Ok(sum);
        };
        at = next;
    }
}

// Line by line, from the front of memory that has room for all of them. Answers the offset behind the text.
fn write_lines(rules: Rules, frame: u32, stream: &[u8], out: &mut [u8]) -> usize
    requires { length (listing_of rules frame stream.now) ≤ length out.old }
    ensures { (result, out.new) ≡ written_at out.old 0 (listing_of rules frame stream.now) }
{
    let mut at: usize = 0;
    let mut to: usize = 0;
    loop {
        let found = step_at(rules, stream, at);
        to = put_line(rules, frame, out, to, stream, at, found);
        let Step::Command { next, .. } = found else {
            break to;
        };
        at = next;
    }
}

// The length of the listing of a stream in a frame, to size a buffer by. Of a text that is too long for any buffer it is a refusal.
pub fn listing_len(rules: Rules, frame: u32, stream: &[u8]) -> Result<usize, Refusal>
    ensures { told_listing result ≡ length_within largest (listing_of rules frame stream.now) }
{
    measure(rules, frame, stream, usize::MAX)
}

// Writes the listing of a stream in a frame at the front of lent memory, and answers its length. Where there is no room for all of it, nothing is
// written.
#[tactic(auto, using(crate::proofs::Into::into_refused, crate::proofs::Into::fits_of))]
pub fn write_listing(
    rules: Rules,
    frame: u32,
    stream: &[u8],
    out: &mut [u8],
) -> Result<usize, Refusal>
    ensures { (told_listing result, out.new) ≡ into (listing_of rules frame stream.now) out.old }
{
    measure(rules, frame, stream, out.len())?;
    Ok(write_lines(rules, frame, stream, out))
}
