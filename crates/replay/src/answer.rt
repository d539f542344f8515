// The port's answer to a case, as bytes. Those of few bytes are told by value, one byte after the other.
use build::Record;
use fields::Frequency;
use table::Refusal;

// No answer that is told by value has more bytes: one more is left out.
const MOST: usize = 80;

// The first len of the bytes. The program has no heap, so there is room for the most.
#[derive(Clone, Copy)]
pub(crate) struct Answer {
    len: usize,
    bytes: [u8; MOST],
}

impl Answer {
    pub(crate) fn new() -> Answer {
        Answer {
            len: 0,
            bytes: [0; MOST],
        }
    }

    pub(crate) fn byte(mut self, b: u8) -> Answer {
        if self.len < MOST {
            self.bytes[self.len] = b;
            self.len += 1;
        }
        self
    }

    pub(crate) fn flag(self, flag: bool) -> Answer {
        self.byte(u8::from(flag))
    }

    // A length in one byte, FF where it has no room there.
    pub(crate) fn length(self, n: usize) -> Answer {
        self.byte(u8::try_from(n).unwrap_or(u8::MAX))
    }

    // A number in two bytes.
    pub(crate) fn two(self, n: usize) -> Answer {
        self.length(n / 256).length(n % 256)
    }

    // A number in four bytes.
    pub(crate) fn four(self, n: u32) -> Answer {
        self.all(&n.to_be_bytes())
    }

    // A number in one byte, in two's complement.
    pub(crate) fn signed(self, n: i8) -> Answer {
        self.byte(n.cast_unsigned())
    }

    // The first n of the bytes; all of them where there are fewer.
    pub(crate) fn front(self, bytes: &[u8], n: usize) -> Answer {
        let mut told = self;
        for b in bytes.iter().take(n) {
            told = told.byte(*b);
        }
        told
    }

    pub(crate) fn all(self, bytes: &[u8]) -> Answer {
        self.front(bytes, bytes.len())
    }

    pub(crate) fn flags(self, flags: &[bool]) -> Answer {
        let mut told = self;
        for flag in flags {
            told = told.flag(*flag);
        }
        told
    }

    pub(crate) fn verdict(self, verdict: Result<(), Refusal>) -> Answer {
        self.byte(number(verdict))
    }

    // What a command type answers of itself.
    pub(crate) fn heading(self, cid: u8, uplink: bool, len: usize) -> Answer {
        self.byte(cid).flag(uplink).length(len)
    }

    // What a call that may be refused answers: 0 and what is told of its value, or the refusal's number.
    pub(crate) fn answered<T: Drop, F: FnOnce(Answer, T) -> Answer>(
        self,
        answer: Result<T, Refusal>,
        value: F,
    ) -> Answer
        requires { F.IsAlwaysCallable value }
    {
        match answer {
            Ok(x) => value(self.byte(0), x),
            Err(reason) => self.byte(reason.number()),
        }
    }

    // A frequency's bytes, and its value in Hz.
    pub(crate) fn frequency(self, f: Frequency) -> Answer {
        self.all(&f.as_ref()).four(f.value())
    }

    pub(crate) fn image(self, cid: u8, len: usize, image: &[u8]) -> Answer {
        self.byte(cid).length(len).all(image)
    }

    // A record that came from no frame.
    pub(crate) fn record(self, record: Record) -> Answer {
        self.byte(record.cid)
            .length(record.len)
            .front(&record.payload, record.len)
            .only_where(record.frame == 0)
            .only_where(record.offset == 0)
    }

    // The first n bytes alone.
    pub(crate) fn cut(mut self, n: usize) -> Answer {
        self.len = self.len.min(n);
        self
    }

    // A byte more, which no answer that is wanted has, where two functions of the port that must say the same do not.
    pub(crate) fn only_where(self, alike: bool) -> Answer {
        if alike { self } else { self.byte(0xEE) }
    }

    // Puts the answer at a place of out; the place after it.
    pub(crate) fn put(self, out: &mut [u8], at: usize) -> usize {
        match self.bytes.get(..self.len) {
            Some(bytes) => put(bytes, out, at),
            None => at,
        }
    }
}

// 0 for accepted, else the refusal's number.
pub(crate) fn number(verdict: Result<(), Refusal>) -> u8 {
    match verdict {
        Ok(()) => 0,
        Err(reason) => reason.number(),
    }
}

// Puts the bytes at a place of out; the place after them. Where there is no room for them, the place itself.
pub(crate) fn put(bytes: &[u8], out: &mut [u8], at: usize) -> usize {
    match out
        .get_mut(at..)
        .and_then(|rest| rest.get_mut(..bytes.len()))
    {
        Some(room) => {
            room.copy_from_slice(bytes);
            at + bytes.len()
        }
        None => at,
    }
}
