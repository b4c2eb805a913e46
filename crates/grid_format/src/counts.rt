// The counts of blocks, added up.
ghost use Rattle.std.specs.Prelude.{◌≡◌, ◌+◌, ◌-◌, ◌*◌, ◌^◌, ◌≤◌, ◌<◌, ℕ, length, sum, IfOk, IfErr};
ghost use Rattle.grid_format.specs.Heads.{numbers};
ghost use Rattle.grid_format.specs.Checks.{added, reached};

use crate::bytes::number_of_eight;

// A number of Meta that doesn't fit, with its place.
#[derive(Clone, Copy, Debug, PartialEq, Eq, Drop)]
pub(crate) struct Mismatch {
    pub(crate) place: u64,
    pub(crate) found: u64,
}

// Adds the counts in a column's bytes, which stand at a place of Meta, to a total, or finds the first that doesn't fit.
pub(crate) fn add_column(
    edges: u64,
    place: u64,
    before: u64,
    bytes: &[u8],
    parts: usize,
) -> Result<u64, Mismatch>
    requires whole { length bytes.now ≡ 8 * parts }
    requires far { place + 8 * parts < 2 ^ 64 }
    requires fits { before ≤ edges }
    ensures fits { IfOk result (λ total. total ≤ edges) }
    ensures shown { IfErr result (λ mismatch. (0 < mismatch.found) × ((k : ℕ) × (k < parts) × (mismatch.place ≡ place + 8 * k))) }
    ensures value { result ≡ added edges place before (numbers 0 parts bytes.now) }
{
    let mut total = before;
    for i in 0..parts {
        let count = number_of_eight(bytes, 8 * i);
        if count > edges - total {
            return Err(Mismatch {
                place: place + 8 * i as u64,
                found: count,
            });
        }
        total += count;
    }
    Ok(total)
}

// Adds the last counts in a column's bytes, those from count `first` on.
pub(crate) fn total_from(first: usize, bytes: &[u8], parts: usize) -> u64
    requires whole { length bytes.now ≡ 8 * parts }
    requires inside { first ≤ parts }
    requires few { sum (numbers (8 * first) (parts - first) bytes.now) < 2 ^ 64 }
    ensures { result ≡ sum (numbers (8 * first) (parts - first) bytes.now) }
{
    let mut total = 0;
    for i in first..parts {
        total += number_of_eight(bytes, 8 * i);
    }
    total
}

// The whole total is that of the edges, or else their number doesn't fit.
pub(crate) fn reach(edges: u64, total: u64) -> Result<(), Mismatch>
    ensures shown { IfErr result (λ mismatch. (mismatch.place ≡ 24) × (mismatch.found ≡ edges) × (0 < mismatch.found)) }
    ensures value { result ≡ reached edges total }
{
    if total < edges {
        return Err(Mismatch {
            place: 24,
            found: edges,
        });
    }
    Ok(())
}
