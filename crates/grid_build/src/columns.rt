// The columns of a grid's blocks, by their numbers of edges in column order.
ghost use Rattle.std.specs.Prelude.{◌≡◌, ◌≤◌, ◌<◌, ◌+◌, ◌-◌, ◌*◌, length, sum};
ghost use Rattle.grid_format.specs.Tables.{block_place, edges_in_rows};
ghost use Rattle.grid_build.specs.Copied.{cut_table, low_total_of};
ghost use Rattle.grid_build.specs.Sorting.{start_of};

use partition::Parts;

// How many edges a column has above the diagonal, and how many on it and below it.
#[derive(Clone, Copy, Drop)]
pub(crate) struct ColumnEdges {
    pub(crate) high: u64,
    pub(crate) low: u64,
}

// Adds numbers of edges up.
fn sum_of(counts: &[u64]) -> u64
    requires { sum counts.now ≤ 2147483648 }
    ensures { result ≡ sum counts.now }
{
    let mut total = 0;
    for count in counts {
        total += *count;
    }
    total
}

// How many edges column j has above the diagonal, and how many from there on.
pub(crate) fn column_edges(parts: Parts, counts: &[u64], j: u32) -> ColumnEdges
    requires blocks { length counts.now ≡ parts.parts * parts.parts }
    requires few { sum counts.now ≤ 2147483648 }
    requires inside { j < parts.parts }
    ensures high { start_of counts.now (j * parts.parts) + result.high ≡ start_of counts.now (block_place parts.parts j j) }
    ensures low { result.low ≡ edges_in_rows (cut_table parts counts.now) j j (parts.parts - j) }
    ensures next { start_of counts.now (block_place parts.parts j j) + result.low ≡ start_of counts.now ((j + 1) * parts.parts) }
    ensures within { start_of counts.now ((j + 1) * parts.parts) ≤ sum counts.now }
{
    let size = parts.parts() as usize;
    let first = j as usize * size;
    let diagonal = first + j as usize;
    ColumnEdges {
        high: sum_of(&counts[first..diagonal]),
        low: sum_of(&counts[diagonal..first + size]),
    }
}

// How many edges all columns have on the diagonal and below it.
pub(crate) fn low_total(parts: Parts, counts: &[u64]) -> u64
    requires blocks { length counts.now ≡ parts.parts * parts.parts }
    requires few { sum counts.now ≤ 2147483648 }
    ensures value { result ≡ low_total_of parts counts.now }
    ensures few { result ≤ sum counts.now }
{
    let mut total = 0;
    for j in 0..parts.parts() {
        total += column_edges(parts, counts, j).low;
    }
    total
}
