// Prints the listing of a capture, in frame 0 (RULES: L10). Standard input holds a letter, U or D, and then the bytes of a stream, at most 1,024. Any
// other input, and one that can't be read, gets the line "bad input".
#![tactic(auto)]

ghost use Rattle.std.specs.Prelude.{◌≡◌, ◌≤◌, length};
ghost use Rattle.std.specs.Counts.{IsPrefixLen};
ghost use Rattle.listings.specs.Listing.{listing_of};
ghost use Rattle.listing.specs.Program.{at_front, bad_input, printed_for};

use listings::write_listing;
use std::io;
use std::io::{Read, Write};
use table::{Direction, Rules};
use text::put_bytes;

// Reads to the input's end or the buffer's, however the pieces come, and answers how many bytes there were: none where a read failed, so
// that no part of an input is taken for the whole. It is 0 and no `Result`: a failed read and no bytes get the same line. The buffer has
// room for the letter, the bytes, and one that is too many.
fn read_input(from: &mut impl Read, buf: &mut [u8]) -> usize
    requires { 1026 ≤ length buf.old }
    ensures { IsPrefixLen result buf.new }
{
    // A while: how far a read comes is known behind it, and a read to the end would need a heap.
    let mut len: usize = 0;
    while len < buf.len() {
        match from.read(&mut buf[len..]) {
            Err(_) => return 0,
            Ok(0) => return len,
            Ok(n) => len += n,
        }
    }
    len
}

// `out` is a slice whose room each contract tells, and no `[u8; 30645]`: a must-fail edit makes it one short, which a fact has to refuse, and no type.
fn put_bad(out: &mut [u8]) -> usize
    requires { 30645 ≤ length out.old }
    ensures { (result, out.new) ≡ at_front bad_input out.old }
{
    put_bytes(out, 0, b"bad input\n")
}

// The longest text of a stream of 1,024 bytes has 30,645 characters in frame 0, for which there is room, so no text is refused.
fn put_listing(rules: Rules, stream: &[u8], out: &mut [u8]) -> usize
    requires { (length stream.now ≤ 1024) × (30645 ≤ length out.old) }
    ensures { (result, out.new) ≡ at_front (listing_of rules 0 stream.now) out.old }
{
    write_listing(rules, 0, stream, out).unwrap_or(0)
}

// Puts what is printed for an input at the front of out, and answers how many bytes it has.
#[tactic(auto, using(crate::proofs::Printing::for_none, crate::proofs::Printing::for_long, crate::proofs::Printing::for_down, crate::proofs::Printing::for_up, crate::proofs::Printing::for_other))]
fn answer(input: &[u8], out: &mut [u8]) -> usize
    requires { 30645 ≤ length out.old }
    ensures { (result, out.new) ≡ at_front (printed_for input.now) out.old }
{
    let [letter, stream @ ..] = input else {
        return put_bad(out);
    };
    if 1024 < stream.len() {
        return put_bad(out);
    }
    match *letter {
        b'D' => put_listing(Rules::new(Direction::Down), stream, out),
        b'U' => put_listing(Rules::new(Direction::Up), stream, out),
        _ => put_bad(out),
    }
}

fn print(to: &mut impl Write, input: &[u8], out: &mut [u8]) -> io::Result<()>
    requires { 30645 ≤ length out.old }
{
    let n = answer(input, out);
    to.write_all(&out[..n])
}

fn main(rt: HostRuntime) -> io::Result<()> {
    let mut space = [0u8; 1026];
    let mut room = [0u8; 30645];
    let n = read_input(&mut rt.stdin(), &mut space);
    print(&mut rt.stdout(), &space[..n], &mut room)
}
