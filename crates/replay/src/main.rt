// Replays cases that the oracle wrote, from standard input (docs/ORACLE.md has their form): asks the port, and compares every byte of
// its answer with the line's. Prints each case that differs, with both answers, and a summary.
#![tactic(auto)]

mod answer;
mod creator_types;
mod entry;
mod fronts;
mod line;
mod lists;
mod masks;
mod payload_types;
mod reading;
mod rebuilt;
mod report;
mod small;
mod streams;

use line::{Asked, Line};
use std::io;
use std::io::Read;

// How many cases agree and differ, and how many lines are not read.
#[derive(Clone, Copy, Default)]
struct Totals {
    agree: u64,
    differ: u64,
    unread: u64,
}

impl Totals {
    fn agreed(&mut self) {
        self.agree = self.agree.saturating_add(1);
    }

    fn differed(&mut self) {
        self.differ = self.differ.saturating_add(1);
    }

    fn not_read(&mut self) {
        self.unread = self.unread.saturating_add(1);
    }
}

// A case of the list: what is asked, and the answer that is wanted.
#[derive(Clone, Copy)]
struct Case<'a> {
    entry: u8,
    input: &'a [u8],
    wanted: &'a [u8],
}

// The case of a line, whose input ends and whose answer ends at these places of the line's bytes.
fn case_of(bytes: &[u8], input: usize, answer: usize) -> Option<Case<'_>> {
    Some(Case {
        entry: *bytes.first()?,
        input: bytes.get(2..input)?,
        wanted: bytes.get(input..answer)?,
    })
}

fn answered(
    rt: &impl Print,
    case: Case<'_>,
    out: &mut [u8],
    totals: &mut Totals,
) -> io::Result<()> {
    let end = entry::answer(case.entry, case.input, out);
    match out.get(..end) {
        None | Some([]) => totals.not_read(),
        Some(given) if given == case.wanted => totals.agreed(),
        Some(given) => {
            report::print_difference(rt, case, given)?;
            totals.differed();
        }
    }
    Ok(())
}

fn whole_line(
    rt: &impl Print,
    line: Line,
    bytes: &[u8],
    out: &mut [u8],
    totals: &mut Totals,
) -> io::Result<()> {
    match line.asked() {
        Asked::Comment => Ok(()),
        Asked::Unread => {
            totals.not_read();
            Ok(())
        }
        Asked::Case { input, answer } => match case_of(bytes, input, answer) {
            Some(case) => answered(rt, case, out, totals),
            None => {
                totals.not_read();
                Ok(())
            }
        },
    }
}

fn replay(
    rt: &impl Print,
    input: &mut impl Read,
    part: &mut [u8],
    bytes: &mut [u8],
    out: &mut [u8],
) -> io::Result<Totals> {
    let mut totals = Totals::default();
    let mut line = Line::new();
    // Nothing says that the input ends, so its parts are counted, up to a number that no run comes to.
    for _ in 0..u64::MAX {
        let n = input.read(part)?;
        if n == 0 {
            break;
        }
        for c in &part[..n] {
            if *c == b'\n' {
                whole_line(rt, line, bytes, out, &mut totals)?;
                line = Line::new();
            } else {
                line = line.more(*c, bytes);
            }
        }
    }
    if line.is_begun() {
        totals.not_read();
    }
    Ok(totals)
}

fn main(rt: HostRuntime) -> io::Result<()> {
    let mut part = [0u8; 65536];
    let mut bytes = [0u8; 65536];
    let mut out = [0u8; 65536];
    let totals = replay(&rt, &mut rt.stdin(), &mut part, &mut bytes, &mut out)?;
    report::print_summary(&rt, totals)
}
