// Which commands a stream may hold, and how long each one's payload is.
ghost use Rattle.std.specs.Prelude.{◌≡◌};
ghost use Rattle.table.specs.Table.{side_of, length_of};
ghost use Rattle.table.specs.Told.{told_length};

#[derive(Clone, Copy, PartialEq, Eq)]
pub enum Direction {
    Down,
    Up,
}

// The book of rules that a stream is read and written by: the table's commands of one direction.
#[derive(Clone, Copy, PartialEq, Eq)]
pub struct Rules {
    pub direction: Direction,
}

// The table as the walk asks it, at every byte: the payload length of each CID below 16 in four bits of its own, those of CID 0 the
// lowest, with 15 for no CID. In one number, since a `match` over the CIDs is compiled to a jump (docs/SPEED.md).
const DOWN: u64 = 0xFF5F_F411_5041_42FF;

const UP: u64 = 0xFF0F_F100_1210_10FF;

fn lengths(direction: Direction) -> u64
    ensures { result ≡ side_of direction 0xFF5F_F411_5041_42FF 0xFF0F_F100_1210_10FF }
{
    match direction {
        Direction::Down => DOWN,
        Direction::Up => UP,
    }
}

impl Rules {
    pub fn new(direction: Direction) -> Rules
        ensures { result.direction ≡ direction }
    {
        Rules { direction }
    }

    // How many payload bytes the table gives the CID in this direction; none where the byte is no CID. A CID is no enum: any byte of a stream is
    // asked, and this tells which are CIDs.
    pub fn payload_len(self, cid: u8) -> Option<usize>
        ensures { told_length result ≡ length_of self cid }
    {
        if 15 < cid {
            return None;
        }
        let four = (lengths(self.direction) >> (4 * cid)) % 16;
        if four == 15 {
            None
        } else {
            Some(four as usize)
        }
    }
}
