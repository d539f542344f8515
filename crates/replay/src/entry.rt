// What the port answers to an entry's input (docs/ORACLE.md, "Entries").
use crate::answer::Answer;
use crate::{creator_types, lists, masks, payload_types, small, streams};

// By numbers, an entry's and then the kind's within it: they are read from a file, whose form has no other name for them.
fn told(entry: u8, input: &[u8]) -> Answer {
    match entry / 16 {
        0 => small::answer(entry, input),
        1 | 2 => payload_types::answer(entry - 16, input),
        4 | 5 => creator_types::answer(entry - 64, input),
        8 => masks::width2(entry % 16, input),
        9 => masks::width9(entry % 16, input),
        _ => Answer::new(),
    }
}

// Puts the answer at the front of out, and says how many bytes it has. No entry's answer is empty: 0 is no such entry.
pub(crate) fn answer(entry: u8, input: &[u8], out: &mut [u8]) -> usize {
    match entry / 16 {
        10 => streams::answer(entry % 16, input, out),
        11 => lists::answer(entry % 16, input, out),
        _ => told(entry, input).put(out, 0),
    }
}
