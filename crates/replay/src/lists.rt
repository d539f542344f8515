// Entries B0 to B3: the length of a list of records and the build, packed and as structs. The list is given as runs of ten bytes: how
// often, and the slot.
use crate::answer::{Answer, put};
use crate::fronts;
use crate::reading::{byte, from, rules, two};
use build::BuildError;
use table::Rules;

// The records of the runs, packed; how many bytes they take.
fn unpack(runs: &[u8], records: &mut [u8]) -> usize {
    let mut end = 0;
    for run in runs.chunks_exact(10) {
        for _ in 0..two(run) {
            end = put(from(run, 2), records, end);
        }
    }
    end
}

// A number in four bytes; FFFFFFFF where it has no room there.
fn told_number(verdict: u8, n: usize) -> Answer {
    Answer::new()
        .byte(verdict)
        .four(u32::try_from(n).unwrap_or(u32::MAX))
}

fn told(answer: Result<usize, BuildError>) -> Answer {
    match answer {
        Ok(n) => told_number(0, n),
        Err(BuildError::At { reason, place }) => told_number(reason.number(), place),
        Err(BuildError::Whole(reason)) => told_number(reason.number(), 0),
    }
}

fn length<F: Fn(Rules, &[u8]) -> Result<usize, BuildError>>(
    length_of: F,
    input: &[u8],
    records: &mut [u8],
    out: &mut [u8],
) -> usize
    requires { F.IsAlwaysCallable length_of }
{
    let n = unpack(from(input, 1), records);
    match records.get(..n) {
        Some(list) => told(length_of(rules(input), list)).put(out, 0),
        None => 0,
    }
}

// The answer, and after it the whole buffer that was written to.
fn built<F: Fn(Rules, &[u8], &mut [u8]) -> Result<usize, BuildError>>(
    build: F,
    input: &[u8],
    records: &mut [u8],
    out: &mut [u8],
) -> usize
    requires { F.IsAlwaysCallable build }
{
    let n = unpack(from(input, 4), records);
    let end = 5 + two(from(input, 1));
    let (Some(list), Some(buffer)) = (records.get(..n), out.get_mut(5..end)) else {
        return 0;
    };
    buffer.fill(byte(input, 3));
    let answer = build(rules(input), list, buffer);
    told(answer).put(out, 0);
    end
}

pub(crate) fn answer(which: u8, input: &[u8], out: &mut [u8]) -> usize {
    let mut records = [0u8; 65536];
    match which {
        0 => length(build::mac_commands_len, input, &mut records, out),
        1 => built(build::build_mac_commands, input, &mut records, out),
        2 => length(fronts::records_len, input, &mut records, out),
        3 => built(fronts::build_records, input, &mut records, out),
        _ => 0,
    }
}
