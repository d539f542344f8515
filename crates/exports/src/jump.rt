// A long stream that a device is sent: its entries, and a command asked for by its number.
ghost use Rattle.std.specs.Prelude.{◌≡◌};
ghost use Rattle.table.specs.Table.{length_of};
ghost use Rattle.payloads.specs.Commands.{sent_down};
ghost use Rattle.jumps.specs.Entries.{made};
ghost use Rattle.jumps.specs.Jump.{jumped};
ghost use Rattle.exports.specs.Jumps.{with_entries, spot_in_one};

use crate::DOWN;
use jumps::{jump_to, make_entries};

// Makes the entries of a stream, at the front of lent numbers. Answers how many, or, from 2 ^ 32 on, a refusal: its number times 2 ^ 32.
#[unsafe(no_mangle)]
pub extern "C" fn nazhdivar_entries(stream: &[u8], numbers: &mut [u32]) -> u64
    ensures { (result, numbers.new) ≡ with_entries (made (length_of sent_down) stream.now numbers.old) }
{
    // One number, for C.
    match make_entries(DOWN, stream, numbers) {
        Ok(total) => total as u64,
        Err(reason) => (reason.number() as u64) * 4_294_967_296,
    }
}

// Command n as one number: its offset times 65,536, its CID times 256, and the length of its payload. Below 512 it is a refusal's number.
#[unsafe(no_mangle)]
pub extern "C" fn nazhdivar_jump(stream: &[u8], entries: &[u32], n: usize) -> u64
    ensures { result ≡ spot_in_one (jumped (length_of sent_down) stream.now entries.now n) }
{
    // One number, for C.
    match jump_to(DOWN, stream, entries, n) {
        Ok(spot) => {
            let high = (spot.at as u64) * 65_536;
            high + (spot.cid as u64) * 256 + (spot.len as u64)
        }
        Err(reason) => reason.number() as u64,
    }
}
