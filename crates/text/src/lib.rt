// Texts in lent memory: numbers, bytes in hex, names. Each writer takes an offset to write at, and answers the offset where its text ends. Where not
// all of the text has room, it writes none of it and answers the offset that it was given. Memory and offset stay two parameters: the
// definition of what is written, `written_at`, has both, and so each contract would take a struct of them apart.
#![tactic(auto)]

pub mod decimal;
pub mod hex;
pub mod names;
pub mod raw;

pub use decimal::{decimal_len, put_decimal};
pub use hex::{put_hex, put_hexes};
pub use names::{name_len, put_name};
pub use raw::{put_byte, put_bytes};
