// What is printed: each case that differs, and a summary.
use crate::{Case, Totals};
use std::io;

// By hand: `{:02X}` of a byte at a time takes more than twice the instructions.
fn digits(byte: u8) -> [u8; 2] {
    let digit = b"0123456789ABCDEF";
    [digit[usize::from(byte / 16)], digit[usize::from(byte % 16)]]
}

// Capital hex, `-` for no bytes.
fn print_bytes(rt: &impl Print, bytes: &[u8]) -> io::Result<()> {
    if bytes.is_empty() {
        print!(rt; "-")?;
    }
    for b in bytes {
        rt.write_all(&digits(*b))?;
    }
    Ok(())
}

// A case on which the port's answer is not the one wanted.
pub(crate) fn print_difference(rt: &impl Print, case: Case<'_>, given: &[u8]) -> io::Result<()> {
    print!(rt; "differs: {:02X} ", case.entry)?;
    print_bytes(rt, case.input)?;
    print!(rt; " wanted ")?;
    print_bytes(rt, case.wanted)?;
    print!(rt; " given ")?;
    print_bytes(rt, given)?;
    println!(rt; "")
}

pub(crate) fn print_summary(rt: &impl Print, totals: Totals) -> io::Result<()> {
    println!(rt;
        "{} cases agree, {} differ, {} lines not read",
        totals.agree, totals.differ, totals.unread
    )
}
