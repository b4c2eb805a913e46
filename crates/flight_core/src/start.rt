// What the iterations begin with.
ghost use Rattle.std.specs.Prelude.{◌≡◌, ◌≤◌, ◌<◌, ◌+◌, ◌^◌, ℕ, List, All, length, replicate, vec_len, IfOk};
ghost use Rattle.lumos_base.specs.Leaving.{no_info, out_info};
ghost use Rattle.flight_core.specs.EdgeList.{IsEdgeList};
ghost use Rattle.flight_core.specs.Events.{start};
ghost use Rattle.lumos_base.specs.Records.{IsEdge};
ghost use Rattle.lumos_base.specs.declared.records.Edge.{Edge};
ghost use Rattle.lumos_law.specs.Sync.{chunk, values, IsChunk};
ghost use Rattle.partition.specs.Parts.{chunk_of};

use crate::kept::KeptItems;
use lumos_base::{Edge, Fixed, NoMemory, OutInfo, Vertex};
use lumos_law::VertexProgram;
use partition::Parts;
use std::alloc::Global;
use std::collections::VecDeque;

// Nothing leads out of a vertex.
const NO_INFO: OutInfo = OutInfo {
    degree: 0,
    weight: 0,
};

/// So many copies of a value.
pub fn copies<T: Copy>(alloc: Global, value: T, count: usize) -> Result<Vec<T>, NoMemory>
    ensures { IfOk result (λ made. made.items ≡ replicate count value) }
{
    let Ok(mut made) = Vec::with_capacity(alloc, count) else {
        return Err(NoMemory);
    };
    for _i in 0..count {
        if made.push(value).is_err() {
            return Err(NoMemory);
        }
    }
    Ok(made)
}

// The numbers of edges lie within their types.
fn read_numbers(edges: &[Edge])
    ensures { All IsEdge edges.now }
{
    for edge in edges {
        edge.in_range();
    }
}

/// A copy of a list of edges, whose numbers lie within their types.
pub fn copy_edges(alloc: Global, edges: &[Edge]) -> Result<Vec<Edge>, NoMemory>
    ensures items { IfOk result (λ made. made.items ≡ edges.now) }
    ensures numbers { All IsEdge edges.now }
{
    read_numbers(edges);
    let Ok(made) = Vec::from_slice(alloc, edges) else {
        return Err(NoMemory);
    };
    Ok(made)
}

// Adds up what leads out of each vertex.
fn tally_out(edges: &[Edge], infos: &mut [OutInfo])
    requires list { IsEdgeList (length infos.old) edges.now }
    requires none { IsChunk (λ v. no_info) 0 infos.old }
    ensures { IsChunk (out_info edges.now) 0 infos.new }
{
    for edge in edges {
        let source = edge.source.0 as usize;
        let info = infos[source];
        infos[source] = OutInfo {
            degree: info.degree + 1,
            weight: info.weight + u64::from(edge.weight.0),
        };
    }
}

// The values of the vertices from `first` on before all iterations, by what leads out of them.
fn first_values<G: VertexProgram>(
    alloc: Global,
    program: &G,
    first: u32,
    infos: &[OutInfo],
) -> Result<Vec<G::Value>, NoMemory>
    requires { first + length infos.now ≤ 268435456 }
    ensures { (edges : List Edge) → IsChunk (out_info edges) first infos.now
        → IfOk result (λ made. made.items ≡ chunk (values (G.model program.now) edges 0) first (length infos.now)) }
{
    let Ok(mut made) = Vec::with_capacity(alloc, infos.len()) else {
        return Err(NoMemory);
    };
    for i in 0..infos.len() {
        let value = program.init(Vertex(first + i as u32), infos[i]);
        if made.push(value).is_err() {
            return Err(NoMemory);
        }
    }
    Ok(made)
}

// The values of all chunks before all iterations, by what leads out of each vertex.
fn chunk_finals<G: VertexProgram>(
    alloc: Global,
    program: &G,
    infos: &[OutInfo],
    parts: &Parts,
) -> Result<VecDeque<KeptItems<G::Value>>, NoMemory>
    requires len { length infos.now ≡ parts.now.vertices }
    requires few { length infos.now ≤ 268435456 }
    ensures { (edges : List Edge) → IsChunk (out_info edges) 0 infos.now
        → IfOk result (λ finals. finals.items ≡ (start (G.model program.now) edges parts.now.vertices (chunk_of parts.now) parts.now.parts).finals) }
{
    let Ok(mut finals) = VecDeque::with_capacity(alloc, parts.parts() as usize) else {
        return Err(NoMemory);
    };
    for column in 0..parts.parts() {
        let range = parts.range_of(column);
        let chunk = &infos[range.first as usize..range.past as usize];
        let Ok(items) = first_values(alloc, program, range.first, chunk) else {
            return Err(NoMemory);
        };
        let kept = KeptItems {
            time: 0,
            column,
            items,
        };
        if finals.push_back(kept).is_err() {
            return Err(NoMemory);
        }
    }
    Ok(finals)
}

/// The values of all chunks before all iterations. `NoMemory` is want of memory.
pub fn first_finals<G: VertexProgram>(
    alloc: Global,
    program: &G,
    edges: &[Edge],
    parts: &Parts,
) -> Result<VecDeque<KeptItems<G::Value>>, NoMemory>
    requires { IsEdgeList parts.now.vertices edges.now }
    ensures { IfOk result (λ finals. finals.items ≡ (start (G.model program.now) edges.now parts.now.vertices (chunk_of parts.now) parts.now.parts).finals) }
{
    let Ok(mut infos) = copies(alloc, NO_INFO, parts.vertices() as usize) else {
        return Err(NoMemory);
    };
    tally_out(edges, &mut infos);
    chunk_finals(alloc, program, &infos, parts)
}
