// The parts of a graph's vertices.
ghost use Rattle.std.specs.Prelude.{◌≡◌, ◌<◌, ◌≤◌, ◌-◌};
ghost use Rattle.partition.specs.Parts.{chunk_of, cut_of, first_vertex, part_at, part_range};

use crate::records::{PartFault, VertexRange};
use lumos_base::Vertex;
use std::marker::Model;

/// A graph's vertices, cut into parts of equal size, as GridGraph cuts them into chunks: the parts follow one another,
/// and each has `chunk` vertices for as long as there are any left. Contracts see the number of vertices and the number
/// of parts.
#[derive(Clone, Copy, Debug, PartialEq, Eq, Drop)]
pub struct Parts {
    vertices: u32,
    parts: u32,
    chunk: u32,
}

impl Model for Parts {
    ghost use Rattle.std.specs.Prelude.{◌≡◌, ◌<◌, ◌≤◌};
    ghost use Rattle.std.proofs.Common.{sym};
    ghost use Rattle.partition.specs.Parts.{Cut, chunk_size};

    ghost Value = { Cut };

    ghost view = { λ p. record { vertices = p.vertices; parts = p.parts } };

    ghost invariant = { λ p. (p.chunk ≡ chunk_size p.vertices p.parts)
        × (0 < p.parts) × (p.parts ≤ 256) × (p.vertices ≤ 268435456) };

    ghost inverse = { λ cut. record {
      vertices = cut.vertices;
      parts = cut.parts;
      chunk = chunk_size cut.vertices cut.parts;
    } };

    ghost inverse_ok = { λ p h i. record { vertices = p.vertices; parts = p.parts; chunk = sym h.0 i } };
}

// The first vertex of a part, or the number of vertices where the parts before it hold them all.
fn first_of(vertices: u32, chunk: u32, part: u32) -> u32
    ensures { result ≡ first_vertex vertices chunk part }
{
    u64::from(vertices).min(u64::from(part) * u64::from(chunk)) as u32
}

impl Parts {
    /// Cuts the vertices, which are the numbers below `vertices`, into so many parts. At most 268435456 vertices are cut,
    /// into 1 to 256 parts; these bounds are our own. The fault is `ZeroParts` where there are no parts, else
    /// `TooManyParts` where there are more than 256, else `TooManyVertices` where there are too many vertices.
    pub fn new(vertices: u32, parts: u32) -> Result<Parts, PartFault>
        ensures { result ≡ cut_of vertices parts }
    {
        if parts == 0 {
            return Err(PartFault::ZeroParts);
        }
        if parts > 256 {
            return Err(PartFault::TooManyParts { given: parts });
        }
        if vertices > 268435456 {
            return Err(PartFault::TooManyVertices { given: vertices });
        }
        Ok(Parts {
            vertices,
            parts,
            chunk: vertices.div_ceil(parts).max(1),
        })
    }

    /// The number of vertices, at most 268435456.
    pub fn vertices(&self) -> u32
        ensures value { result ≡ self.now.vertices }
        ensures few { result ≤ 268435456 }
    {
        self.vertices
    }

    /// The number of parts, from 1 to 256.
    pub fn parts(&self) -> u32
        ensures value { result ≡ self.now.parts }
        ensures some { 0 < result }
        ensures few { result ≤ 256 }
    {
        self.parts
    }

    /// How many vertices a part has where enough are left: vertices by parts, rounded up, and 1 where there are no
    /// vertices. The rule is GridGraph's, but for the 1, which is our own.
    pub fn chunk(&self) -> u32
        ensures value { result ≡ chunk_of self.now }
        ensures some { 0 < result }
        ensures few { result ≤ 268435456 }
    {
        self.chunk
    }

    /// The part of a vertex, which has to be below the number of vertices: its number by the chunk, rounded down.
    pub fn part_of(&self, vertex: Vertex) -> u32
        requires { vertex.0 < self.now.vertices }
        ensures value { result ≡ part_at (chunk_of self.now) vertex.0 }
        ensures below { result < self.now.parts }
    {
        vertex.0 / self.chunk
    }

    /// The vertices of a part, which has to be below the number of parts: a chunk of them, or as many as the parts before
    /// it leave, down to none.
    pub fn range_of(&self, part: u32) -> VertexRange
        requires { part < self.now.parts }
        ensures value { result ≡ part_range self.now.vertices (chunk_of self.now) part }
        ensures ordered { result.first ≤ result.past }
        ensures inside { result.past ≤ self.now.vertices }
        ensures short { result.past - result.first ≤ chunk_of self.now }
    {
        VertexRange {
            first: first_of(self.vertices, self.chunk, part),
            past: first_of(self.vertices, self.chunk, part + 1),
        }
    }
}

#[cfg(test)]
mod tests {
    use super::*;
    use std::test::Fail;

    // Vertices, parts, the chunk, then a part and its range.
    const CUTS: [(u32, u32, u32, u32, u32, u32); 13] = [
        (5, 2, 3, 0, 0, 3),
        (5, 2, 3, 1, 3, 5),
        (4, 2, 2, 0, 0, 2),
        (4, 2, 2, 1, 2, 4),
        (1, 8, 1, 0, 0, 1),
        (1, 8, 1, 1, 1, 1),
        (1, 8, 1, 7, 1, 1),
        (0, 4, 1, 0, 0, 0),
        (0, 4, 1, 3, 0, 0),
        (5, 4, 2, 2, 4, 5),
        (5, 4, 2, 3, 5, 5),
        (268435456, 256, 1048576, 255, 267386880, 268435456),
        (268435456, 1, 268435456, 0, 0, 268435456),
    ];

    #[test]
    fn cuts_vertices_into_parts(rt: HostRuntime) -> Result<(), Fail> {
        for (vertices, parts, chunk, part, first, past) in CUTS {
            let cut = Parts::new(vertices, parts)?;
            assert_eq!(rt; cut.vertices(), vertices);
            assert_eq!(rt; cut.parts(), parts);
            assert_eq!(rt; cut.chunk(), chunk);
            assert!(rt; part < parts);
            assert_eq!(rt; cut.range_of(part), VertexRange { first, past });
            if first < past && past <= vertices {
                assert_eq!(rt; cut.part_of(Vertex(first)), part);
                assert_eq!(rt; cut.part_of(Vertex(past - 1)), part);
            }
        }
        for (vertices, parts, text) in [
            (268435457, 0, "no parts"),
            (268435457, 257, "parts 257 over 256"),
            (268435457, 256, "vertices 268435457 over 268435456"),
        ] {
            match Parts::new(vertices, parts) {
                Ok(_) => panic!(rt; "{vertices} vertices in {parts} parts"),
                Err(fault) => {
                    assert_eq!(rt; fault.to_string(rt.alloc())?.as_str(), text);
                }
            }
        }
        Ok(())
    }
}
