// The commands of a walk as records of a frame, packed, and built again: each record must say that frame and its own offset, and what is
// written must be the stream up to where the walk ended.
use build::{build_mac_commands, record_at};
use table::Rules;
use walk::Step;

const FRAME: u32 = 4_000_000_007;

// A walk of more commands is not built again.
const MOST: usize = 256;

// Packs the record at an offset into slot i, and answers the offset after it. None where the record says another frame or offset. Rules and
// stream stay two parameters, as the functions of `walk` and `build` take them.
fn pack(rules: Rules, stream: &[u8], at: usize, slots: &mut [u8], i: usize) -> Option<usize> {
    let handed = record_at(rules, FRAME, stream, at);
    let record = handed.record;
    record.pack(slots, i);
    match handed.step {
        Step::Command { next, .. } if record.frame == FRAME && record.offset == at => Some(next),
        _ => None,
    }
}

fn pack_all(rules: Rules, stream: &[u8], count: usize, slots: &mut [u8]) -> Option<usize> {
    let mut at = 0;
    for i in 0..count {
        at = pack(rules, stream, at, slots, i)?;
    }
    Some(at)
}

fn built(rules: Rules, slots: &[u8], stream: &[u8], at: usize) -> bool {
    let mut out = [0u8; 1536];
    let Ok(n) = build_mac_commands(rules, slots, &mut out) else {
        return false;
    };
    match (out.get(..n), stream.get(..at)) {
        (Some(written), Some(walked)) => written == walked,
        _ => false,
    }
}

pub(crate) fn same(rules: Rules, stream: &[u8], count: usize) -> bool {
    let mut slots = [0u8; 8 * MOST];
    if MOST < count {
        return true;
    }
    match pack_all(rules, stream, count, &mut slots) {
        Some(at) => built(rules, &slots[..8 * count], stream, at),
        None => false,
    }
}
