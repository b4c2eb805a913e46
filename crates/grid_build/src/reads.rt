// Edges read back from Spool.
ghost use Rattle.std.specs.Prelude.{◌≡◌, ◌≤◌, ◌<◌, ◌+◌, ◌*◌, ◌++◌, ℕ, List, flat_map, length, map, IfSome, IsSome, OnErr, OnOk};
ghost use Rattle.lumos_base.specs.Records.{edge_bytes};
ghost use Rattle.lumos_base.specs.declared.records.Edge.{Edge};
ghost use Rattle.lumos_depot.specs.Causes.{Rose};
ghost use Rattle.lumos_depot.specs.declared.depot.FileKind.{FileKind};
ghost use Rattle.lumos_depot.specs.Steps.{Reads};
ghost use Rattle.grid_build.specs.Passes.{IsPass, capped};

use crate::bytes::get_edges;
use lumos_base::{Edge, Vertex};
use lumos_depot::{Depot, Failed, FileKind};

// The edge, with the last vertex in place of an end that isn't below the number of vertices.
fn capped(vertices: u32, edge: Edge) -> Edge
    requires { 0 < vertices }
    ensures { result ≡ capped vertices edge }
{
    let last = vertices - 1;
    Edge {
        source: Vertex(edge.source.0.min(last)),
        target: Vertex(edge.target.0.min(last)),
        weight: edge.weight,
    }
}

// Caps the ends of each edge.
fn cap_ends(vertices: u32, edges: &mut [Edge])
    requires { 0 < vertices }
    ensures { edges.new ≡ map (capped vertices) edges.old }
{
    for i in 0..edges.len() {
        edges[i] = capped(vertices, edges[i]);
    }
}

// Reads the edges of Spool from a number on. An end that isn't below the number of vertices, which only a depot that
// tells nothing can give back, counts as the last vertex. The bytes are room for the edges'.
pub(crate) fn read_edges<D: Depot>(
    depot: &mut D,
    vertices: u32,
    first: u64,
    bytes: &mut [u8],
    edges: &mut [Edge],
) -> Result<(), Failed>
    requires attached { IsSome (D.attached depot.old) }
    requires some { 0 < vertices }
    requires few { first + length edges.old ≤ 2147483648 }
    requires room { length bytes.old ≡ 12 * length edges.old }
    requires inside { IfSome (D.holds depot.old FileKind.Spool) (λ file. 12 * (first + length edges.old) ≤ length file) }
    ensures pass { (given : List Edge) → IsPass vertices (D.holds depot.old FileKind.Spool) first given
        → OnOk result (IsPass vertices (D.holds depot.old FileKind.Spool) (first + length edges.old) (given ++ edges.new)) }
    ensures capped { OnOk result ((read : List Edge) × (flat_map edge_bytes read ≡ bytes.new) × (edges.new ≡ map (capped vertices) read)) }
    ensures reads { Reads D.holds D.taken D.stored D.faults D.attached FileKind.Spool depot.old depot.new }
    ensures cause { OnErr result (Rose (D.faults depot.old) (D.faults depot.new)) }
{
    let Ok(()) = depot.read_at(FileKind::Spool, 12 * first, bytes) else {
        return Err(Failed);
    };
    get_edges(bytes, edges);
    cap_ends(vertices, edges);
    Ok(())
}
