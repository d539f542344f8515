// The listing of a stream that a device is sent in a frame: its length, and its text. Each answers the text's length, or 4, the number of the
// refusal, which no text is short enough for.
ghost use Rattle.std.specs.Prelude.{◌≡◌};
ghost use Rattle.payloads.specs.Commands.{sent_down};
ghost use Rattle.listings.specs.Into.{largest, length_within, into};
ghost use Rattle.listings.specs.Listing.{listing_of};
ghost use Rattle.listings.specs.Told.{told_listing};
ghost use Rattle.exports.specs.Listing.{number as Listing·number, with_number};

use crate::DOWN;
use listings::{listing_len, write_listing};
use table::Refusal;

// One number, for C.
fn number(answer: Result<usize, Refusal>) -> u64
    ensures { result ≡ Listing·number (told_listing answer) }
{
    match answer {
        Ok(total) => total as u64,
        Err(reason) => reason.number() as u64,
    }
}

// The length alone, to size the memory by.
#[unsafe(no_mangle)]
pub extern "C" fn nazhdivar_listing_len(frame: u32, stream: &[u8]) -> u64
    ensures { result ≡ Listing·number (length_within largest (listing_of sent_down frame stream.now)) }
{
    number(listing_len(DOWN, frame, stream))
}

// The text, at the front of lent memory.
#[unsafe(no_mangle)]
pub extern "C" fn nazhdivar_listing(frame: u32, stream: &[u8], out: &mut [u8]) -> u64
    ensures { (result, out.new) ≡ with_number (into (listing_of sent_down frame stream.now) out.old) }
{
    number(write_listing(DOWN, frame, stream, out))
}
