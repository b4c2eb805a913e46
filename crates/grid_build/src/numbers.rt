// The blocks of a grid by their numbers.
ghost use Rattle.std.specs.Prelude.{◌≡◌, ◌≤◌, ◌<◌, ◌*◌};
ghost use Rattle.partition.specs.Blocks.{IsBelow};
ghost use Rattle.partition.specs.Parts.{chunk_of};
ghost use Rattle.grid_build.specs.Numbered.{block_number};

use lumos_base::Edge;
use partition::Parts;

// The number in column order of an edge's block. Its ends have to be vertices.
pub(crate) fn number_of(parts: Parts, edge: Edge) -> u32
    requires { IsBelow parts.vertices edge }
    ensures value { result ≡ block_number (chunk_of parts) parts.parts edge }
    ensures below { result < parts.parts * parts.parts }
    ensures few { parts.parts * parts.parts ≤ 65536 }
{
    let row = parts.part_of(edge.source);
    let column = parts.part_of(edge.target);
    column * parts.parts() + row
}
