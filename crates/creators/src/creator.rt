ghost use Rattle.std.specs.Prelude.{ℕ, List, ◌≡◌, ◌≤◌};
ghost use Rattle.table.specs.Table.{Command};
ghost use Rattle.creators.specs.Image.{new_of, image_length};

use crate::kinds::CommandKind;

// A creator: an image of one command, the CID and then the payload, N bytes in all. Where an image has payload bytes, `Default` stands by hand:
// what it promises is `default_of`, of which a derived one's promise says nothing (tried), and a slip of it is tried (must-fail/slips.edit).
pub trait Creator<const N: usize>: Copy + Default {
    // The kinds of the direction that it is sent in.
    type Kind: CommandKind;

    ghost command: { Command };

    ghost image: { Self → List ℕ };

    // A fresh image: the CID, and zeros.
    fn new() -> Self
        ensures { image result ≡ new_of command };

    // The image.
    fn build(self) -> [u8; N]
        ensures { result ≡ image self };

    // Which command it is.
    fn kind(self) -> Self::Kind
        ensures { Self.Kind.command result ≡ command };

    // The command's CID, whatever the image's first byte.
    fn cid(self) -> u8
        ensures { result ≡ command.cid }
    {
        self.kind().entry().cid
    }

    // The image's length.
    fn len(self) -> usize
        ensures { result ≡ image_length command }
    {
        1 + usize::from(self.kind().entry().size)
    }

    // Six bytes hold the longest image
    ghost short: { N ≤ 6 };
}
