// Records in bytes, and the words in them that name vertices.
ghost use Rattle.std.specs.Prelude.{◌≡◌, ◌+◌, ◌*◌, ◌^◌, ◌<◌, [], ◌∷◌, None, length};
ghost use Rattle.lumos_base.specs.Records.{edge_from};
ghost use Rattle.column_stream.specs.Records.{edges_at, first_fault, lies_outside};

use lumos_base::{Edge, Fixed};
use lumos_depot::FileKind;
use partition::VertexRange;
use value_files::FileFault;

// The ranges in which the ends of a block's edges lie.
#[derive(Clone, Copy, Debug, PartialEq, Eq, Drop)]
pub(crate) struct Ends {
    pub(crate) sources: VertexRange,
    pub(crate) targets: VertexRange,
}

// The vertex isn't one of the range.
fn lies_outside(range: VertexRange, vertex: u32) -> bool
    ensures { result ≡ lies_outside range vertex }
{
    vertex < range.first || vertex >= range.past
}

// The fault of an edge whose record stands at a place of a file, if an end lies outside its range.
fn fault_at(file: FileKind, ends: Ends, place: u64, edge: Edge) -> Option<FileFault>
    requires { place + 12 < 2 ^ 64 }
    ensures { result ≡ first_fault file ends place (edge ∷ []) }
{
    if lies_outside(ends.sources, edge.source.0) {
        return Some(FileFault::Damaged {
            file,
            place,
            found: u64::from(edge.source.0),
        });
    }
    if lies_outside(ends.targets, edge.target.0) {
        return Some(FileFault::Damaged {
            file,
            place: place + 4,
            found: u64::from(edge.target.0),
        });
    }
    None
}

// The edge of a record.
fn edge_of(bytes: &[u8]) -> Edge
    requires { length bytes.now ≡ 12 }
    ensures { result ≡ edge_from bytes.now }
{
    match Edge::get(bytes) {
        Some(edge) => edge,
        None => unreachable!(),
    }
}

// Fills the places with the edges of records that stand at a place of a file, up to the first word outside its range.
pub(crate) fn get_records(
    bytes: &[u8],
    file: FileKind,
    ends: Ends,
    place: u64,
    out: &mut [Edge],
) -> Option<FileFault>
    requires whole { length bytes.now ≡ 12 * length out.old }
    requires far { place + 12 * length out.old < 2 ^ 64 }
    ensures edges { result ≡ None → out.new ≡ edges_at 0 (length out.old) bytes.now }
    ensures fault { result ≡ first_fault file ends place (edges_at 0 (length out.old) bytes.now) }
{
    for i in 0..out.len() {
        let edge = edge_of(&bytes[12 * i..12 * i + 12]);
        if let Some(fault) = fault_at(file, ends, place + 12 * i as u64, edge) {
            return Some(fault);
        }
        out[i] = edge;
    }
    None
}
