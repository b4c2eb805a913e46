// What an event makes: the edges of a block, the sums of a column, the next values of a chunk, and what refuses it.
ghost use Rattle.std.specs.Prelude.{◌≡◌, ◌≤◌, ◌<◌, ◌+◌, ◌-◌, ◌^◌, ℕ, List, All, not, find, length, replicate, slice_index_or, IfOk};
ghost use Rattle.std.specs.List.{range_with_len};
ghost use Rattle.std.specs.Option.{is_some, option_copied, unwrap_or};
ghost use Rattle.flight_core.specs.Events.{each_from, mark_of, state_of};
ghost use Rattle.flight_core.specs.Ranges.{is_between};
ghost use Rattle.lumos_law.specs.Sync.{fed_sum, IsChunk};
ghost use Rattle.partition.specs.Blocks.{block, IsBelow};
ghost use Rattle.partition.specs.Parts.{chunk_of, IsWithin};

use crate::mark::{Mark, mark_in};
use crate::start::copies;
use crate::{feed_edges, finalise};
use lumos_base::{Edge, NoMemory};
use lumos_law::{Combine, VertexProgram};
use partition::{Parts, VertexRange};
use std::alloc::Global;
use std::collections::VecDeque;

// Whether an edge leads from the first range into the second.
fn leads(edge: &Edge, from: VertexRange, into: VertexRange) -> bool
    ensures { result ≡ is_between from into edge.now }
{
    let source = edge.source.0;
    let target = edge.target.0;
    (from.first <= source && source < from.past) && (into.first <= target && target < into.past)
}

/// The edges of a block, in list order.
pub fn block_edges(
    alloc: Global,
    parts: &Parts,
    edges: &[Edge],
    row: u32,
    column: u32,
) -> Result<Vec<Edge>, NoMemory>
    requires ends { All (IsBelow parts.now.vertices) edges.now }
    requires row_is { row < parts.now.parts }
    requires column_is { column < parts.now.parts }
    ensures { IfOk result (λ made. made.items ≡ block edges.now (chunk_of parts.now) row column) }
{
    let from = parts.range_of(row);
    let into = parts.range_of(column);
    let mut made = Vec::new(alloc);
    for edge in edges {
        if leads(edge, from, into) && made.push(*edge).is_err() {
            return Err(NoMemory);
        }
    }
    Ok(made)
}

/// A copy of the sums, or so many units where there are none.
pub fn copy_sums<S: Combine>(
    alloc: Global,
    sums: Option<&[S]>,
    count: usize,
) -> Result<Vec<S>, NoMemory>
    ensures { IfOk result (λ made. made.items ≡ unwrap_or (option_copied sums.entry) (replicate count S.unit)) }
{
    match sums {
        None => copies(alloc, S::unit(), count),
        Some(sums) => match Vec::from_slice(alloc, sums) {
            Ok(made) => Ok(made),
            Err(_) => Err(NoMemory),
        },
    }
}

/// The sums of the vertices from `target_first` on, with what the edges give joined to them.
pub fn fed_copy<G: VertexProgram>(
    alloc: Global,
    program: &G,
    edges: &[Edge],
    source_first: u32,
    values: &[G::Value],
    target_first: u32,
    sums: Option<&[G::Sum]>,
    count: usize,
) -> Result<Vec<G::Sum>, NoMemory>
    requires sources { All (λ e. IsWithin source_first (length values.now) e.source.0) edges.now }
    requires targets { All (λ e. IsWithin target_first count e.target.0) edges.now }
    requires count_is { length (unwrap_or (option_copied sums) (replicate count G.Sum.unit)) ≡ count }
    ensures { IfOk result (λ made. made.items ≡ each_from (λ v sum. fed_sum (G.model program.now) edges.now (state_of (G.model program.now) source_first values.now) v sum)
        target_first (unwrap_or (option_copied sums.entry) (replicate count G.Sum.unit))) }
{
    let Ok(mut made) = copy_sums(alloc, sums, count) else {
        return Err(NoMemory);
    };
    feed_edges(
        program,
        edges,
        source_first,
        values,
        target_first,
        &mut made,
    );
    Ok(made)
}

/// The next values of the vertices from `first` on.
pub fn next_copy<G: VertexProgram>(
    alloc: Global,
    program: &G,
    first: u32,
    before: &[G::Value],
    sums: &[G::Sum],
) -> Result<Vec<G::Value>, NoMemory>
    requires sums_fit { length sums.now ≡ length before.now }
    requires in_range { first + length before.now ≤ 268435456 }
    ensures { IfOk result (λ made. made.items ≡ each_from (λ v x. (G.model program.now).apply v x (slice_index_or sums.now (v - first) (G.model program.now).unit))
        first before.now) }
{
    let Ok(mut after) = Vec::from_slice(alloc, before) else {
        return Err(NoMemory);
    };
    finalise(program, first, before, sums, &mut after);
    Ok(after)
}

/// The least of the vertices from `first` on whose value contributes.
pub fn first_giver<G: VertexProgram>(program: &G, first: u32, values: &[G::Value]) -> Option<u32>
    requires { first + length values.now ≤ 268435456 }
    ensures { (state : ℕ → G.Value) → IsChunk state first values.now
        → result ≡ find (λ v. (G.model program.now).contributes (state v)) (range_with_len first (length values.now)) }
{
    for i in 0..values.len() {
        if program.contributes(&values[i]) {
            return Some(first + i as u32);
        }
    }
    None
}

/// The least row of a column that isn't done in an iteration.
pub fn first_open(marks: &VecDeque<Mark>, rows: u32, time: u32, column: u32) -> Option<u32>
    ensures { result ≡ find (λ i. not (is_some (mark_of marks.now.items time i column))) (range_with_len 0 rows) }
{
    for row in 0..rows {
        if mark_in(marks, time, row, column).is_none() {
            return Some(row);
        }
    }
    None
}
