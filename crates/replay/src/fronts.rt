// The two forms over lent structs, through the fronts of theirs that hold the struct or lend the records themselves: the iterator's calls
// one by one, and the build over four records. `tools/differential direct` puts oracle/direct.txt in the place of this file, which calls
// them directly.
use build::{BuildError, Holds};
use table::{Refusal, Rules};
use walk::Step;

// What the call of `next` after n others answers.
pub(crate) fn nth_step(rules: Rules, stream: &[u8], n: usize) -> Step {
    lent::nth_step(rules, stream, n)
}

// The records in slots, of which there are four.
pub(crate) fn build_records(
    rules: Rules,
    slots: &[u8],
    out: &mut [u8],
) -> Result<usize, BuildError> {
    let ([a, b, c, d], []) = slots.as_chunks::<8>() else {
        return Err(BuildError::Whole(Refusal::InvalidIndex));
    };
    let records = [a.record(), b.record(), c.record(), d.record()];
    lent::build_four(rules, records, out)
}

// Into room for any four records, so that the answer is the list's length or its refusal (docs/ORACLE.md).
pub(crate) fn records_len(rules: Rules, slots: &[u8]) -> Result<usize, BuildError> {
    let mut room = [0u8; 24];
    build_records(rules, slots, &mut room)
}
