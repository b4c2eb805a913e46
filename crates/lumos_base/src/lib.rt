//! What every part of Lumos speaks of: vertices, weights, edges, values of a fixed number of bytes, and short lines of
//! text.
#![tactic(auto)]

mod fixed;
mod line;
mod records;

ghost use Rattle.std.specs.Prelude.{◌≡◌, ℕ, ◌<◌, ◌≤◌, ◌*◌, ◌+◌};

pub use crate::fixed::Fixed;
pub use crate::line::Line;
pub use crate::records::{Edge, NoMemory, OutInfo, Vertex, Weight};

/// The least `q` with `q * b >= a`, which is how many parts of `b` cover `a`. `b` is at least 1.
pub fn ceil_div(a: u64, b: u64) -> u64
    requires { 0 < b }
    ensures covers { a ≤ result * b }
    ensures least { (q : ℕ) → a ≤ q * b → result ≤ q }
    ensures close { result * b < a + b }
{
    a.div_ceil(b)
}

#[cfg(test)]
mod tests {
    use super::*;

    #[test]
    fn records_have_their_bytes_and_parts_cover(rt: HostRuntime) {
        let edge = Edge {
            source: Vertex(1),
            target: Vertex(0x0203),
            weight: Weight(0xfffefdfc),
        };
        let mut bytes = [0u8; 12];
        edge.put(&mut bytes);
        assert_eq!(rt; bytes, [1, 0, 0, 0, 3, 2, 0, 0, 0xfc, 0xfd, 0xfe, 0xff]);
        assert_eq!(rt; Edge::get(&bytes), Some(edge));
        let info = OutInfo {
            degree: 2,
            weight: 0x0102030405060708,
        };
        info.put(&mut bytes);
        assert_eq!(rt; bytes, [2, 0, 0, 0, 8, 7, 6, 5, 4, 3, 2, 1]);
        assert_eq!(rt; OutInfo::get(&bytes), Some(info));
        assert_eq!(rt; u64::get(&bytes[4..]), Some(0x0102030405060708));
        for (a, b, parts) in [
            (0, 3, 0),
            (1, 3, 1),
            (3, 3, 1),
            (4, 3, 2),
            (u64::MAX, 1, u64::MAX),
        ] {
            assert_eq!(rt; ceil_div(a, b), parts, "{a} by {b}");
        }
    }
}
