// The steps of an iteration: a block's edges feed the sums of a chunk, and the chunk's sums make its next values.
ghost use Rattle.std.specs.Prelude.{◌≡◌, ℕ, ◌+◌, ◌-◌, ◌^◌, ◌<◌, ◌≤◌, true, All, length, slice_index_or, IfSome};
ghost use Rattle.flight_core.specs.Finish.{applied, finish_of, noted_end, IsOver};
ghost use Rattle.lumos_law.specs.Sync.{fed_sum, IsChunk};
ghost use Rattle.partition.specs.Parts.{IsWithin};

use lumos_base::{Edge, Fixed, Vertex};
use lumos_law::{Combine, VertexProgram};

/// Joins to each sum what the edges give its vertex, in list order: GridGraph's streaming of a block.
///
/// `values` are those of the vertices from `source_first` on, and `sums` those of the vertices from `target_first` on.
/// Each source has to lie among the first, and each target among the second. Nothing but these values is read, so
/// that the sums are of the iteration after theirs.
pub fn feed_edges<G: VertexProgram>(
    program: &G,
    edges: &[Edge],
    source_first: u32,
    values: &[G::Value],
    target_first: u32,
    sums: &mut [G::Sum],
)
    requires sources { All (λ e. IsWithin source_first (length values.now) e.source.0) edges.now }
    requires targets { All (λ e. IsWithin target_first (length sums.old) e.target.0) edges.now }
    ensures { (state : ℕ → G.Value) (first_sum : ℕ → G.Sum)
        → IsChunk state source_first values.now → IsChunk first_sum target_first sums.old
        → IsChunk (λ v. fed_sum (G.model program.now) edges.now state v (first_sum v)) target_first sums.new }
{
    for edge in edges {
        let source = (edge.source.0 - source_first) as usize;
        let target = (edge.target.0 - target_first) as usize;
        let given = program.contribution(&values[source], edge.weight);
        sums[target] = sums[target].join(given);
    }
}

/// How the next values of a range of vertices came out: how many moved, whether some next value contributes, and the
/// least vertex that is over.
#[derive(Clone, Copy, Debug, PartialEq, Eq)]
pub struct Finish {
    pub moved: u64,
    pub hot: bool,
    pub over: Option<Vertex>,
}

// One vertex more, which stands above those before it.
fn noted(end: Finish, vertex: Vertex, moved: bool, hot: bool, over: bool) -> Finish
    requires { end.moved < 2 ^ 64 - 1 }
    ensures { result ≡ noted_end end vertex moved hot over }
{
    Finish {
        moved: end.moved + u64::from(moved),
        hot: end.hot || hot,
        over: end.over.or(over.then_some(vertex)),
    }
}

// Tells that the value and the sum by which a vertex is over are in range, if one is. The values and sums are those of the
// vertices from `first` on.
fn see_over<G: VertexProgram>(
    program: &G,
    over: Option<Vertex>,
    first: u32,
    before: &[G::Value],
    sums: &[G::Sum],
)
    requires sums_fit { length sums.now ≡ length before.now }
    requires within { IfSome over (λ vertex. IsWithin first (length before.now) vertex.0) }
    requires over { IfSome over (λ vertex. (x : G.Value) (s : G.Sum)
        → x ≡ slice_index_or before.now (vertex.0 - first) x → s ≡ slice_index_or sums.now (vertex.0 - first) s
        → (G.model program.now).over vertex.0 x s ≡ true) }
    ensures { IfSome over (λ vertex. IsOver G.Value.is_in_range G.Sum.is_in_range (G.model program.now) vertex.0) }
{
    if let Some(vertex) = over {
        let index = (vertex.0 - first) as usize;
        before[index].in_range();
        sums[index].in_range();
    }
}

/// Makes the next values of the vertices from `first` on, and says how they came out. Each next value is what the
/// program's `apply` makes of the vertex's value and its whole sum, also where the vertex is over. Whatever the slices
/// hold, a vertex that is told as over is one of these, and is over by some value and some sum in range.
///
/// The three slices have to be equally long, and their vertices have to lie below 268435456, which is our own bound.
pub fn finalise<G: VertexProgram>(
    program: &G,
    first: u32,
    before: &[G::Value],
    sums: &[G::Sum],
    after: &mut [G::Value],
) -> Finish
    requires sums_fit { length sums.now ≡ length before.now }
    requires after_fits { length after.old ≡ length before.now }
    requires in_range { first + length before.now ≤ 268435456 }
    ensures few { result.moved ≤ length before.now }
    ensures step { (state : ℕ → G.Value) (sum : ℕ → G.Sum)
        → IsChunk state first before.now → IsChunk sum first sums.now
        → IsChunk (applied (G.model program.now) state sum) first after.new
        × (result ≡ finish_of (G.model program.now) state sum first (length before.now)) }
    ensures over { IfSome result.over (λ vertex. IsWithin first (length before.now) vertex.0
        × IsOver G.Value.is_in_range G.Sum.is_in_range (G.model program.now) vertex.0) }
{
    let mut end = Finish {
        moved: 0,
        hot: false,
        over: None,
    };
    for i in 0..before.len() {
        let vertex = Vertex(first + i as u32);
        let value = &before[i];
        let sum = &sums[i];
        let next = program.apply(vertex, value, sum);
        let moved = program.moved(value, &next);
        let hot = program.contributes(&next);
        let over = program.over(vertex, value, sum);
        after[i] = next;
        end = noted(end, vertex, moved, hot, over);
    }
    see_over(program, end.over, first, before, sums);
    end
}
