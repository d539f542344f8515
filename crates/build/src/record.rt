ghost use Rattle.std.specs.Prelude.{◌≡◌, ◌+◌, ◌≤◌, length, take};
ghost use Rattle.bits.specs.Memory.{over, written_at};
ghost use Rattle.table.specs.Table.{length_of};
ghost use Rattle.build.specs.Records.{judged, held_by, frameless, command_bytes, packed_at, len_byte, no_record};
ghost use Rattle.build.specs.Laying.{LaidAt};
ghost use Rattle.build.specs.Told.{told_judged};

use table::{Refusal, Rules};

// A command: its CID, up to five payload bytes, and how many of them count; and where it came from: a frame's number, and the offset of the
// CID in that frame's stream. What is written of it is the command alone. The fields stand in an order that leaves few gaps in memory.
// The bytes are an array with a length beside it, since a payload has memory of its own and there is no heap.
#[derive(Clone, Copy)]
pub struct Record {
    pub cid: u8,
    pub payload: [u8; 5],
    pub frame: u32,
    pub len: usize,
    pub offset: usize,
}

impl Record {
    // A record that came from no frame, and has no place in one.
    pub fn new(cid: u8, len: usize, payload: [u8; 5]) -> Record
        ensures { result ≡ frameless (record { cid = cid; len = len; bytes = payload }) }
    {
        Record {
            cid,
            payload,
            frame: 0,
            len,
            offset: 0,
        }
    }

    // The record of no command: no row of the table has CID 0.
    pub fn none() -> Record
        ensures { result ≡ no_record }
    {
        Record::new(0, 0, [0; 5])
    }

    // The bytes that its command takes, CID included. The length that the record states is judged, and not where it came from.
    pub fn judge(self, rules: Rules) -> Result<usize, Refusal>
        ensures { told_judged result ≡ judged (length_of rules) (held_by self) }
    {
        let len = rules
            .payload_len(self.cid)
            .ok_or(Refusal::UnknownMacCommand)?;
        if self.len != len {
            return Err(Refusal::WrongLength);
        }
        Ok(1 + len)
    }

    // The payload bytes that count: those before the length.
    fn counted(self) -> usize
        ensures { result ≡ length (take self.len self.payload) }
    {
        self.len.min(5)
    }

    // Writes CID and payload at an offset, and answers the offset behind them. Where there is no room for them, nothing is written,
    // and the answer is the offset itself.
    #[tactic(auto, using(bits::proofs::Memory::no_room))]
    pub fn write(self, out: &mut [u8], at: usize) -> usize
        ensures { (result, out.new) ≡ written_at out.old at (command_bytes (held_by self)) }
    {
        let n = self.counted();
        if out.len() <= at {
            return at;
        }
        let body = at + 1;
        if out.len() - body < n {
            return at;
        }
        out[at] = self.cid;
        // Over all five bytes, so that the compiler unrolls it. Tried and slower: of `copy_from_slice` of the n it makes a call, which
        // costs a list of four commands 6 instructions more for each.
        for (i, byte) in self.payload.iter().enumerate() {
            if i < n {
                out[body + i] = *byte;
            }
        }
        body + n
    }

    // Writes CID and payload at an offset, among commands that fill `out`, and answers the offset behind them. Where there is room,
    // all five payload bytes are written, and the commands that follow cover those that don't count: a copy that ends with the length
    // makes the processor guess the length.
    #[tactic(auto, using(crate::proofs::Writes::exactly_laid))]
    pub(crate) fn lay(self, out: &mut [u8], at: usize) -> usize
        requires { at + length (command_bytes (held_by self)) ≤ length out.old }
        ensures { LaidAt out.old at (length out.old) (held_by self) result out.new }
    {
        if 6 <= out.len() - at {
            let [a, b, c, d, e] = self.payload;
            put(&[self.cid, a, b, c, d, e], out, at);
            at + 1 + self.counted()
        } else {
            self.write(out, at)
        }
    }

    // Puts the record into slot i of packed records; the slot's eighth byte stays. Where there is no such slot, nothing is written.
    #[tactic(auto, unfolding(crate::specs::Records::packed_at))]
    pub fn pack(self, slots: &mut [u8], i: usize)
        ensures { slots.new ≡ packed_at slots.old i (held_by self) }
    {
        if i < slots.len() / 8 {
            let [a, b, c, d, e] = self.payload;
            put(&[self.cid, len_byte(self.len), a, b, c, d, e], slots, 8 * i);
        }
    }
}

// A value that holds one record.
pub trait Holds {
    ghost use Rattle.build.specs.declared.record.Record.{Record};

    ghost held: { Self → Record };

    fn record(&self) -> Record
        ensures { result ≡ held self.now };
}

impl Holds for Record {
    ghost held = { λ r. r };

    fn record(&self) -> Record {
        *self
    }
}

// A length in one byte, 255 where it has no room there.
fn len_byte(len: usize) -> u8
    ensures { result ≡ len_byte len }
{
    u8::try_from(len).unwrap_or(255)
}

// Bytes put over those of out from an offset on: as many as the type says, so that the compiler unrolls the loop. Tried and slower: of
// `copy_from_slice` it makes a test whether the two overlap, and a way over the stack.
fn put<const N: usize>(bytes: &[u8; N], out: &mut [u8], at: usize)
    requires { at + N ≤ length out.old }
    ensures { out.new ≡ over out.old at bytes.now }
{
    for (i, byte) in bytes.iter().enumerate() {
        out[at + i] = *byte;
    }
}
