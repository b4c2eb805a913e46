// Edges in bytes.
ghost use Rattle.std.specs.Prelude.{◌≡◌, ◌≤◌, ◌*◌, ℕ, List, All, flat_map, length, take};
ghost use Rattle.lumos_base.specs.Records.{IsEdge, edge_bytes};
ghost use Rattle.lumos_base.specs.declared.records.Edge.{Edge};

use lumos_base::{Edge, Fixed, Vertex, Weight};

// What stands in room for edges before any are there.
pub(crate) const NO_EDGE: Edge = Edge {
    source: Vertex(0),
    target: Vertex(0),
    weight: Weight(0),
};

// Fills the bytes with those of the edges.
pub(crate) fn put_edges(edges: &[Edge], bytes: &mut [u8])
    requires { length bytes.old ≡ 12 * length edges.now }
    ensures { bytes.new ≡ flat_map edge_bytes edges.now }
{
    for i in 0..edges.len() {
        edges[i].put(&mut bytes[12 * i..12 * i + 12]);
    }
}

// Fills the places with the edges that the bytes stand for.
pub(crate) fn get_edges(bytes: &[u8], edges: &mut [Edge])
    requires { length bytes.now ≡ 12 * length edges.old }
    ensures value { (list : List Edge) → All IsEdge list → bytes.now ≡ flat_map edge_bytes list → edges.new ≡ list }
    ensures bytes { flat_map edge_bytes edges.new ≡ bytes.now }
{
    for i in 0..edges.len() {
        let Some(edge) = Edge::get(&bytes[12 * i..12 * i + 12]) else {
            unreachable!();
        };
        edges[i] = edge;
    }
}
