// A line of cases, read a byte at a time: ENTRY CLASS INPUT ANSWER [RUST], separated by one space, bytes in capital hex, `-` for none.

use crate::answer::put;

// What is read of a line. Its bytes go to a lent buffer, one behind the other.
#[derive(Clone, Copy)]
pub(crate) struct Line {
    field: Field,
    // The first digit of a byte whose second has not come.
    digit: Option<u8>,
    // How many bytes there are.
    end: usize,
    // How many there were at the end of the input, and of the answer.
    input: usize,
    answer: usize,
    // Whether something stands where a line has no place for it. No field of its own: a line that begins so may still be a comment.
    bad: bool,
}

// What a whole line asks. Of its bytes the entry is the first, the input stands from the third to this place, and the answer from there
// to this one.
#[derive(Clone, Copy)]
pub(crate) enum Asked {
    Case { input: usize, answer: usize },
    Comment,
    Unread,
}

// The field that is being read, or that the line is a comment.
#[derive(Clone, Copy, PartialEq, Eq)]
enum Field {
    Comment,
    Entry,
    Class,
    Input,
    Answer,
    Rust,
}

// The digit's value.
fn digit(c: u8) -> Option<u8> {
    match c {
        b'0'..=b'9' => Some(c - b'0'),
        b'A'..=b'F' => Some(c - b'A' + 10),
        _ => None,
    }
}

fn joined(high: u8, low: u8) -> u8 {
    high % 16 * 16 + low % 16
}

impl Line {
    pub(crate) fn new() -> Line {
        Line {
            field: Field::Entry,
            digit: None,
            end: 0,
            input: 0,
            answer: 0,
            bad: false,
        }
    }

    fn spoilt(mut self) -> Line {
        self.bad = true;
        self
    }

    // The next field is begun, if the last one has its bytes.
    fn at_field(mut self, field: Field, whole: bool) -> Line {
        self.field = field;
        if whole { self } else { self.spoilt() }
    }

    fn behind_input(mut self) -> Line {
        self.input = self.end;
        self.at_field(Field::Answer, true)
    }

    fn behind_answer(mut self) -> Line {
        self.answer = self.end;
        self.at_field(Field::Rust, true)
    }

    fn next_field(self) -> Line {
        match self.field {
            Field::Entry => self.at_field(Field::Class, self.end == 1),
            Field::Class => self.at_field(Field::Input, self.end == 2),
            Field::Input => self.behind_input(),
            Field::Answer => self.behind_answer(),
            Field::Rust | Field::Comment => self.spoilt(),
        }
    }

    fn at_space(self) -> Line {
        if self.digit.is_none() {
            self.next_field()
        } else {
            self.spoilt()
        }
    }

    // With a byte more, which was put at its place if there is room there.
    fn with_end(mut self, end: usize) -> Line {
        if end == self.end {
            return self.spoilt();
        }
        self.end = end;
        self.digit = None;
        self
    }

    fn more_digits(mut self, c: u8, bytes: &mut [u8]) -> Line {
        match (self.digit, digit(c)) {
            (_, None) => self.spoilt(),
            (None, low) => {
                self.digit = low;
                self
            }
            (Some(high), Some(low)) => self.with_end(put(&[joined(high, low)], bytes, self.end)),
        }
    }

    fn is_new(self) -> bool {
        self.field == Field::Entry && self.end == 0 && self.digit.is_none()
    }

    fn as_comment(mut self) -> Line {
        self.field = Field::Comment;
        self
    }

    // Whether the rest of the line is passed over: what the Rust did instead is not compared.
    fn passes(self, c: u8) -> bool {
        self.field == Field::Comment || self.field == Field::Rust && c != b' ' || c == b'-'
    }

    // One byte more of the line.
    pub(crate) fn more(self, c: u8, bytes: &mut [u8]) -> Line {
        if self.passes(c) {
            return self;
        }
        if c == b' ' {
            return self.at_space();
        }
        if c == b'#' && self.is_new() {
            return self.as_comment();
        }
        self.more_digits(c, bytes)
    }

    // At the line's end.
    pub(crate) fn asked(self) -> Asked {
        let input = self.input;
        match self.field {
            Field::Comment => Asked::Comment,
            _ if self.bad || self.digit.is_some() => Asked::Unread,
            Field::Answer => Asked::Case {
                input,
                answer: self.end,
            },
            Field::Rust => Asked::Case {
                input,
                answer: self.answer,
            },
            _ => Asked::Unread,
        }
    }

    // Whether the line has anything yet.
    pub(crate) fn is_begun(self) -> bool {
        self.bad || !self.is_new()
    }
}
