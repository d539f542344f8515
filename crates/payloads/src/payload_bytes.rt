ghost use Rattle.std.specs.Prelude.{◌≡◌, ◌≤◌};
ghost use Rattle.table.specs.Told.{told};
ghost use Rattle.fields.specs.Lists.{exactly};
ghost use Rattle.payloads.specs.Commands.{in_five};

use table::Refusal;

// The payload of any command: the first len of the five bytes, of which those after it are 0. A buffer and its length, since there is no heap.
#[derive(Clone, Copy, PartialEq, Eq)]
pub struct PayloadBytes {
    pub len: usize,
    pub bytes: [u8; 5],
}

impl PayloadBytes {
    #[tactic(auto, using(crate::proofs::Room::in_room))]
    pub(crate) fn of<const N: usize>(payload: [u8; N]) -> PayloadBytes
        requires { N ≤ 5 }
        ensures { (result.len, result.bytes) ≡ in_five payload.entry }
    {
        let mut bytes = [0; 5];
        bytes[..N].copy_from_slice(&payload);
        PayloadBytes { len: N, bytes }
    }
}

// The bytes of a slice that must be N long.
pub(crate) fn sized<const N: usize>(data: &[u8]) -> Result<[u8; N], Refusal>
    ensures { told (λ v. v) result ≡ exactly N «data».now }
{
    data.as_array().copied().ok_or(Refusal::WrongLength)
}
