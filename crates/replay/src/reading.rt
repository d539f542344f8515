// The arguments in a case's input: numbers stand high byte first. A byte past the input's end reads as 0.
ghost use Rattle.std.specs.Prelude.{◌<◌};

use fields::{ChannelMask2, Frequency};
use std::array;
use table::{Direction, Rules};

pub(crate) fn byte(s: &[u8], i: usize) -> u8 {
    s.get(i).copied().unwrap_or(0)
}

pub(crate) fn flag(s: &[u8], i: usize) -> bool {
    byte(s, i) != 0
}

// The first bytes, as many as the array has.
pub(crate) fn first<const N: usize>(s: &[u8]) -> [u8; N] {
    array::from_fn(|i| byte(s, i))
}

// What is left from a place on; nothing past the end.
pub(crate) fn from(s: &[u8], i: usize) -> &[u8] {
    s.get(i..).unwrap_or(&s[..0])
}

// A number in two bytes.
pub(crate) fn two(s: &[u8]) -> usize
    ensures { result < 65536 }
{
    usize::from(u16::from_be_bytes(first(s)))
}

// An index, in eight bytes.
pub(crate) fn index(s: &[u8]) -> usize {
    u64::from_be_bytes(first(s)) as usize
}

// The direction in an input's first byte.
pub(crate) fn rules(s: &[u8]) -> Rules {
    Rules::new(if flag(s, 0) {
        Direction::Up
    } else {
        Direction::Down
    })
}

// How many calls an input of the creators has: it is a byte that says how the creator starts, and then calls, at most four. A call is
// the setter's number, counted from 1, and its argument at the end of four bytes. Number 0 is no call.
pub(crate) fn calls(input: &[u8]) -> usize {
    from(input, 1).len() / 5
}

pub(crate) fn is_default(input: &[u8]) -> bool {
    flag(input, 0)
}

// The argument of the call at a place.
pub(crate) fn argument(input: &[u8], at: usize) -> u32 {
    u32::from_be_bytes(first(from(from(input, at), 1)))
}

// An argument's last byte.
pub(crate) fn low(argument: u32) -> u8 {
    (argument % 256) as u8
}

pub(crate) fn mask(argument: u32) -> ChannelMask2 {
    ChannelMask2::from([low(argument / 256), low(argument)])
}

pub(crate) fn frequency(argument: u32) -> Frequency {
    Frequency::from([low(argument / 65536), low(argument / 256), low(argument)])
}
