// Entries 01 to 04: the small fields.
use crate::answer::Answer;
use crate::reading::{byte, first};
use fields::{DLSettings, DataRateRange, Frequency, Redundancy};

fn told_settings(told: Answer, s: DLSettings) -> Answer {
    told.byte(s.rx1_dr_offset())
        .byte(s.rx2_data_rate())
        .byte(s.raw_value())
}

fn told_redundancy(told: Answer, r: Redundancy) -> Answer {
    told.byte(r.channel_mask_control())
        .byte(r.number_of_transmissions())
        .byte(r.raw_value())
}

fn told_range(told: Answer, r: DataRateRange) -> Answer {
    told.byte(r.max_data_rate())
        .byte(r.min_data_rate())
        .byte(r.raw_value())
}

// What is told of a field that its constructor makes, and then of the one that From makes.
fn both<T: Drop, F: Fn(Answer, T) -> Answer>(tell: F, made: T, converted: T) -> Answer
    requires { F.IsAlwaysCallable tell }
{
    tell(tell(Answer::new(), made), converted)
}

fn data_rate_range(b: u8) -> Answer {
    let told = both(
        told_range,
        DataRateRange::new_from_raw(b),
        DataRateRange::from(b),
    );
    told.verdict(DataRateRange::can_build_from(b))
        .answered(DataRateRange::new(b), told_range)
}

fn frequency(input: &[u8]) -> Answer {
    Answer::new().answered(Frequency::new(input), |told, f| {
        told.frequency(f).frequency(Frequency::from(first(input)))
    })
}

pub(crate) fn answer(which: u8, input: &[u8]) -> Answer {
    let b = byte(input, 0);
    match which {
        1 => both(told_settings, DLSettings::new(b), DLSettings::from(b)),
        2 => both(told_redundancy, Redundancy::new(b), Redundancy::from(b)),
        3 => data_rate_range(b),
        4 => frequency(input),
        _ => Answer::new(),
    }
}
