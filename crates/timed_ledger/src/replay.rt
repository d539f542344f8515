// A text replayed into a fresh ledger, and one number of what there is to tell then.
ghost use Rattle.std.specs.Prelude.{◌≡◌, None};
ghost use Rattle.bits.specs.Bits.{bit_of};
ghost use Rattle.ledger.specs.Asked.{fresh_ledger};
ghost use Rattle.ledger.specs.Book.{replayed};
ghost use Rattle.ledger.specs.Memory.{book_of, held_in};
ghost use Rattle.ledger.specs.Told.{told_replay, told_line};
ghost use Rattle.timed_ledger.specs.Parts.{setting_by, asked_of, verdict_number, part_of, told_of};

use ledger::{BadLine, Ledger, Parent, replay_trace};

// The refusal's number, and 0 for none.
fn verdict_number(run: Result<(), BadLine>) -> u64
    ensures { result ≡ verdict_number (told_replay run) }
{
    match run {
        Ok(()) => 0,
        Err(bad) => bad.reason.number() as u64,
    }
}

// The number of the line that is refused, and 0 for none.
fn line_number(run: Result<(), BadLine>) -> u64
    ensures { result ≡ told_line run }
{
    match run {
        Ok(()) => 0,
        Err(bad) => bad.line,
    }
}

// What a ledger holds of the setting with this number, of this channel where it is a channel's. A number, for C.
fn ask(ledger: Ledger, setting: u8, channel: u8) -> Option<Parent>
    ensures { result ≡ asked_of (setting_by setting channel) (held_in ledger.held) }
{
    match setting {
        0 => ledger.data_rate(),
        1 => ledger.tx_power(),
        2 => ledger.channel_mask(),
        3 => ledger.redundancy(),
        4 => ledger.max_duty_cycle(),
        5 => ledger.rx1_dr_offset(),
        6 => ledger.rx2_data_rate(),
        7 => ledger.rx2_frequency(),
        8 => ledger.delay(),
        9 => ledger.downlink_dwell_time(),
        10 => ledger.uplink_dwell_time(),
        11 => ledger.max_eirp(),
        12 => ledger.channel_frequency(channel),
        13 => ledger.channel_rates(channel),
        14 => ledger.downlink_frequency(channel),
        _ => None,
    }
}

fn bit(on: bool) -> u64
    ensures { result ≡ bit_of on }
{
    u64::from(on)
}

// One part of what there is to tell. All are numbers, for C, which gets one of them at a call.
fn part_of(
    verdict: u64,
    line: u64,
    lines: u64,
    listed: u64,
    parent: Option<Parent>,
    part: u8,
) -> u64
    ensures { result ≡ part_of part verdict line lines listed parent }
{
    let known = parent.is_some();
    let shown = parent.unwrap_or(Parent {
        line: 0,
        frame: 0,
        offset: 0,
        value: 0,
        unchanged: false,
    });
    match part {
        0 => verdict,
        1 => line,
        2 => lines,
        3 => listed,
        4 => bit(known),
        5 => shown.line,
        6 => shown.frame,
        7 => shown.offset,
        8 => shown.value as u64,
        9 => bit(shown.unchanged),
        _ => 0,
    }
}

// Replays a text into a fresh ledger and a lent list, asks for one setting, and answers one part of what is told then.
#[unsafe(no_mangle)]
pub extern "C" fn nazhdivar_ledger(
    text: &[u8],
    list: &mut [u64],
    setting: u8,
    channel: u8,
    part: u8,
) -> u64
    ensures { (result, list.new) ≡ told_of part (setting_by setting channel) (replayed text.now (book_of fresh_ledger list.old)) }
{
    let mut ledger = Ledger::new();
    let run = replay_trace(&mut ledger, text, list);
    let lines = ledger.lines;
    let listed = ledger.listed as u64;
    let parent = ask(ledger, setting, channel);
    part_of(
        verdict_number(run),
        line_number(run),
        lines,
        listed,
        parent,
        part,
    )
}
