// The ledger's memory: the open requests of each CID, the last two parents of each row of settings, and the entries of a list.
ghost use Rattle.std.specs.Prelude.{◌≡◌, true, ℕ, ◌+◌, ◌/◌, ◌%◌, ◌<◌, ◌≤◌, cond, ltb, length, take, slice_get};
ghost use mathlib.Core.List.{List, [], ◌∷◌, ◌++◌, tail};
ghost use Rattle.table.specs.Answers.{given};
ghost use Rattle.ledger.specs.Book.{noted, opening, decided, step};
ghost use Rattle.ledger.specs.Events.{reply};
ghost use Rattle.ledger.specs.Memory.{request_of, open_in, parents_in, pending_in, book_of};
ghost use Rattle.ledger.specs.Working.{reply_of, row_written, row_told, IsRow, entry_of, fault_in};

use crate::Ledger;

// Every CID is below this.
pub(crate) const CIDS: usize = 16;

// So many requests of one CID can be open.
pub(crate) const MOST_OPEN: usize = 8;

// The rows of settings, by the request that writes them: one for each of five requests, and then one for each of the 16 channels of two more.
// Numbers and no enum: they are indices of an array, and a channel's row is counted from that of channel 0.
pub(crate) const LINK_ADR: usize = 0;

pub(crate) const DUTY_CYCLE: usize = 1;

pub(crate) const RX_PARAM_SETUP: usize = 2;

pub(crate) const RX_TIMING_SETUP: usize = 3;

pub(crate) const TX_PARAM_SETUP: usize = 4;

pub(crate) const NEW_CHANNEL: usize = 5;

pub(crate) const DL_CHANNEL: usize = 21;

pub(crate) const ROWS: usize = 37;

// Where a command or a stop stands.
#[derive(Clone, Copy, Default)]
pub(crate) struct Place {
    pub line: u64,
    pub frame: u64,
    pub offset: u64,
}

// A request, and its payload as one number, the low byte first.
#[derive(Clone, Copy, Default)]
pub(crate) struct Asked {
    pub at: Place,
    pub payload: u64,
}

// The open requests of a CID, the earliest first: an array and a count, since a ledger's memory is its own and does not grow (RULES: X17).
#[derive(Clone, Copy, Default)]
pub(crate) struct Queue {
    requests: [Asked; MOST_OPEN],
    // It has no bound of its own: the contracts speak of every ledger, and `open` cuts it at the room.
    count: usize,
}

// The last parent of the settings of a row, and the one before it.
#[derive(Clone, Copy, Default)]
pub(crate) struct Parents {
    pub last: Option<Asked>,
    pub before: Option<Asked>,
}

// What an entry of a list is of: a request for a channel that is not held, an answer without a request, a stop.
#[derive(Clone, Copy)]
pub(crate) enum Kind {
    Beyond = 1,
    Stray = 2,
    Stopped = 3,
}

// What a request writes: the settings of a row, none, or those of a channel that is not held.
#[derive(Clone, Copy)]
enum Written {
    Row(usize),
    Nothing,
    Beyond,
}

impl Queue {
    // A count that says more than there is room for says that there is no room left.
    pub(crate) fn open(&self) -> usize
        ensures value { result ≡ length (open_in self.now) }
        ensures bound { result ≤ 8 }
    {
        self.count.min(MOST_OPEN)
    }

    // The open request that so many stand before.
    pub(crate) fn get(&self, before: usize) -> Option<Asked>
        ensures { result ≡ slice_get (open_in self.now) before }
    {
        if before < self.open() {
            Some(self.requests[before])
        } else {
            None
        }
    }

    // A request is open behind the others.
    pub(crate) fn push(&mut self, request: Asked)
        requires { length (open_in self.old) < 8 }
        ensures { open_in self.new ≡ open_in self.old ++ (request ∷ []) }
    {
        let open = self.open();
        self.requests[open] = request;
        self.count = open + 1;
    }

    // The earliest leaves.
    fn pop(&mut self) -> Option<Asked>
        ensures first { result ≡ slice_get (open_in self.old) 0 }
        ensures rest { open_in self.new ≡ tail (open_in self.old) }
    {
        let open = self.open();
        if open == 0 {
            return None;
        }
        let first = self.requests[0];
        // Swaps and no copy_within: an archive for C would need memmove from outside.
        for n in 1..open {
            self.requests.swap(n - 1, n);
        }
        self.count = open - 1;
        Some(first)
    }
}

impl Parents {
    // A request is the last parent, and the parent before it is kept.
    fn hold(&mut self, request: Asked)
        ensures { parents_in self.new ≡ take 2 (request ∷ parents_in self.old) }
    {
        self.before = self.last;
        self.last = Some(request);
    }
}

// The row of a channel, from the row of channel 0 on.
fn row_from(first: usize, index: u64) -> Written
    requires { first < 22 }
    ensures told { row_told result ≡ cond (ltb index 16) (first + index) 38 }
    ensures bound { IsRow result }
{
    if 15 < index {
        return Written::Beyond;
    }
    Written::Row(first + index as usize)
}

// What a request writes, by its CID and the first byte of its payload.
fn row_of(cid: u8, index: u64) -> Written
    ensures told { row_told result ≡ row_written cid index }
    ensures bound { IsRow result }
{
    match cid {
        0x03 => Written::Row(LINK_ADR),
        0x04 => Written::Row(DUTY_CYCLE),
        0x05 => Written::Row(RX_PARAM_SETUP),
        0x08 => Written::Row(RX_TIMING_SETUP),
        0x09 => Written::Row(TX_PARAM_SETUP),
        0x07 => row_from(NEW_CHANNEL, index),
        0x0A => row_from(DL_CHANNEL, index),
        _ => Written::Nothing,
    }
}

impl Ledger {
    // An entry goes behind the last.
    pub(crate) fn note(&mut self, list: &mut [u64], kind: Kind, at: Place)
        requires { self.old.listed < length list.old / 4 }
        ensures { given (book_of self.new list.new) ≡ noted (entry_of kind at) (book_of self.old list.old) }
    {
        let first = 4 * self.listed;
        let behind = first + 4;
        list[first..behind].copy_from_slice(&[kind as u64, at.line, at.frame, at.offset]);
        self.listed += 1;
    }

    // A request that is answered yes.
    fn take_effect(&mut self, list: &mut [u64], cid: u8, request: Asked)
        requires { row_written cid (request.payload % 256) ≡ 38 → self.old.listed < length list.old / 4 }
        ensures { given (book_of self.new list.new) ≡ decided true (request_of cid request) (book_of self.old list.old) }
    {
        let index = request.payload % 256;
        match row_of(cid, index) {
            Written::Row(row) => self.held[row].hold(request),
            Written::Nothing => {}
            Written::Beyond => self.note(list, Kind::Beyond, request.at),
        }
    }

    // An answer: to the first open request of its CID, or to none.
    pub(crate) fn answer(&mut self, list: &mut [u64], cid: u8, agrees: bool, at: Place)
        requires cid_bound { cid < 16 }
        requires faultless { fault_in (step (reply (reply_of cid agrees at.line at.frame at.offset)) (book_of self.old list.old)) ≡ 0 }
        ensures { given (book_of self.new list.new)
            ≡ step (reply (reply_of cid agrees at.line at.frame at.offset)) (book_of self.old list.old) }
    {
        let row = cid as usize;
        let Some(request) = self.pending[row].pop() else {
            self.note(list, Kind::Stray, at);
            return;
        };
        if agrees {
            self.take_effect(list, cid, request);
        }
    }
}
