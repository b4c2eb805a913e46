// Text that comes in pieces.
ghost use Rattle.std.specs.Prelude.{◌≡◌, ◌≤◌, ◌+◌, ◌++◌, ℕ, List, length, flat_map, take, IfOk, IfSome, MatchResult, Ok, Err};
ghost use Rattle.edge_text.specs.Reader.{HasRead};
ghost use Rattle.edge_text.specs.Reading.{listed, greatest_end, reading};

use crate::{EdgeReader, TextEnd, TextFault, TextLimits};
use lumos_base::Edge;

// Feeds one piece whole, where there are places for each byte, and answers how many edges stand there then.
fn feed_whole(
    reader: &mut EdgeReader,
    piece: &[u8],
    edges_out: &mut [Edge],
    made: usize,
) -> Result<usize, TextFault>
    requires made { made ≤ reader.old.bytes }
    requires places { reader.old.bytes + length piece.now + 2 ≤ length edges_out.old }
    ensures reads { (seen : List ℕ) → HasRead seen (take made edges_out.old) reader.old
        → MatchResult result (λ made. HasRead (seen ++ piece.now) (take made edges_out.new) reader.new)
        (λ fault. (more : List ℕ) → reading reader.old.limits (seen ++ piece.now ++ more) ≡ Err fault) }
    ensures limits { reader.new.limits ≡ reader.old.limits }
    ensures within { IfOk result (λ made. made ≤ length edges_out.new) }
{
    match reader.feed(piece, &mut edges_out[made..]) {
        Ok(fed) => Ok(made + fed.made),
        Err(fault) => Err(fault),
    }
}

/// What the text of these pieces, one behind the other, reads as: the edges of the whole text, however it is cut,
/// and the end that `finish` tells; or the fault of the whole text. It takes no memory.
///
/// There have to be as many places as bytes, and two more. All edges stand at the front of `edges_out`, and `made`
/// counts them.
pub fn read_pieces(
    limits: TextLimits,
    pieces: &[Vec<u8>],
    edges_out: &mut [Edge],
) -> Result<TextEnd, TextFault>
    requires vertex { limits.max_vertex ≤ 268435455 }
    requires vertices { IfSome limits.vertices (λ vertices. vertices ≤ 268435456) }
    requires edges { limits.max_edges ≤ 2147483648 }
    requires bytes { limits.max_bytes ≤ 1099511627776 }
    requires places { length (flat_map (λ piece. piece.items) pieces.now) + 2 ≤ length edges_out.old }
    ensures { MatchResult result
        (λ end. (reading limits (flat_map (λ piece. piece.items) pieces.now) ≡ Ok (listed limits (take end.made edges_out.new)))
        × (end.edges ≡ end.made) × (end.greatest ≡ greatest_end (take end.made edges_out.new)))
        (λ fault. reading limits (flat_map (λ piece. piece.items) pieces.now) ≡ Err fault) }
{
    let mut reader = EdgeReader::new(limits);
    let mut made = 0;
    for piece in pieces {
        match feed_whole(&mut reader, piece, edges_out, made) {
            Ok(now) => made = now,
            Err(fault) => return Err(fault),
        }
    }
    match reader.finish(&mut edges_out[made..]) {
        Ok(end) => Ok(TextEnd {
            made: made + end.made,
            edges: end.edges,
            greatest: end.greatest,
        }),
        Err(fault) => Err(fault),
    }
}
