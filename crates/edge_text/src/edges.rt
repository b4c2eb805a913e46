// The edges that a line makes.
ghost use Rattle.std.specs.Prelude.{◌≡◌, ◌≤◌, ◌+◌, ◌++◌, Bool, List, length, take};
ghost use Rattle.lumos_base.specs.declared.records.Edge.{Edge};
ghost use Rattle.edge_text.specs.Reading.{edges_of, greatest_end};

use lumos_base::Edge;

/// How many edges are made of a line's edge.
pub fn count_of(both: bool, edge: Option<Edge>) -> u64
    ensures count { result ≡ length (edges_of both edge) }
    ensures few { result ≤ 2 }
{
    match edge {
        None => 0,
        Some(edge) => {
            if both && edge.source.0 != edge.target.0 {
                2
            } else {
                1
            }
        }
    }
}

/// The greatest end of edges, with those of a line.
pub fn greatest_with(greatest: Option<u32>, edge: Option<Edge>) -> Option<u32>
    ensures { (both : Bool) (edges : List Edge) → greatest ≡ greatest_end edges → result ≡ greatest_end (edges ++ edges_of both edge) }
{
    match edge {
        None => greatest,
        Some(edge) => {
            let end = edge.source.0.max(edge.target.0);
            Some(greatest.unwrap_or(0).max(end))
        }
    }
}

/// Puts the edges that are made of a line's edge behind so many others, and answers how many stand there then.
pub fn put_edges(edges_out: &mut [Edge], made: usize, both: bool, edge: Option<Edge>) -> usize
    requires { made + 2 ≤ length edges_out.old }
    ensures count { result ≡ made + length (edges_of both edge) }
    ensures few { result ≤ made + 2 }
    ensures edges { take result edges_out.new ≡ take made edges_out.old ++ edges_of both edge }
{
    let Some(edge) = edge else {
        return made;
    };
    edges_out[made] = edge;
    if !both || edge.source.0 == edge.target.0 {
        return made + 1;
    }
    edges_out[made + 1] = Edge {
        source: edge.target,
        target: edge.source,
        weight: edge.weight,
    };
    made + 2
}
