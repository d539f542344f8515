// The list of a ledger: four numbers to an entry.
ghost use Rattle.std.specs.Prelude.{◌≡◌};
ghost use Rattle.ledger.specs.Asked.{note_of};
ghost use Rattle.ledger.specs.Memory.{note_at};

// An entry: its kind, and the place of the command or of the stop that it tells of. The kind is a number, since the lent numbers (RULES: X12) may
// hold any.
#[derive(Clone, Copy)]
pub struct Entry {
    pub kind: u64,
    pub line: u64,
    pub frame: u64,
    pub offset: u64,
}

// The entry with this index, and zeros past the end.
pub fn entry_at(list: &[u64], k: usize) -> Entry
    ensures { note_of result ≡ note_at list.now k }
{
    let room = list.len() / 4;
    if k < room {
        let at = 4 * k;
        Entry {
            kind: list[at],
            line: list[at + 1],
            frame: list[at + 2],
            offset: list[at + 3],
        }
    } else {
        Entry {
            kind: 0,
            line: 0,
            frame: 0,
            offset: 0,
        }
    }
}
