// Entries 80 to 87 and 90 to 97: the channel masks of width 2 and of width 9. Where the input has a mask it comes first.
use crate::answer::Answer;
use crate::reading::{byte, first, flag, from, index};
use fields::{ChannelMask, ChannelMask2, ChannelMask9};

fn told_mask<const N: usize>(told: Answer, mask: ChannelMask<N>) -> Answer {
    told.all(&mask.as_ref())
}

// The verdict, and the mask afterwards.
fn with_bank<const N: usize>(mut mask: ChannelMask<N>, i: usize, value: u8) -> Answer {
    let verdict = mask.set_bank(i, value);
    told_mask(Answer::new().verdict(verdict), mask)
}

fn with_channel<const N: usize>(mut mask: ChannelMask<N>, i: usize, on: bool) -> Answer {
    let verdict = mask.set_channel(i, on);
    told_mask(Answer::new().verdict(verdict), mask)
}

// By the entry's second digit, what both widths share.
fn answer<const N: usize>(which: u8, mask: ChannelMask<N>, input: &[u8]) -> Answer {
    let rest = from(input, N);
    let i = index(rest);
    match which {
        0 => told_mask(Answer::new(), ChannelMask::<N>::default()),
        1 => Answer::new().answered(ChannelMask::<N>::new(input), told_mask::<N>),
        2 => told_mask(Answer::new(), mask),
        3 => Answer::new().answered(mask.is_enabled(i), Answer::flag),
        4 => Answer::new().answered(mask.get_index(i), Answer::byte),
        5 => with_bank(mask, i, byte(rest, 8)),
        6 => with_channel(mask, i, flag(rest, 8)),
        _ => Answer::new(),
    }
}

// Of each width by itself, as `statuses` is: its array has another length in each (fields/src/channel_mask.rt).
pub(crate) fn width2(which: u8, input: &[u8]) -> Answer {
    let mask = ChannelMask2::from(first(input));
    match which {
        7 => Answer::new().flags(&mask.statuses()),
        _ => answer(which, mask, input),
    }
}

pub(crate) fn width9(which: u8, input: &[u8]) -> Answer {
    let mask = ChannelMask9::from(first(input));
    match which {
        7 => Answer::new().flags(&mask.statuses()),
        _ => answer(which, mask, input),
    }
}
