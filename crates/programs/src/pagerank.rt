// Ranks that flow along the edges.
ghost use Rattle.std.specs.Prelude.{◌≡◌, ◌<◌, ◌^◌, Some, refl, codes};
ghost use Rattle.std.proofs.Common.{rules, ap};
ghost use Rattle.std.proofs.lemmas.Option.{same_Some};
ghost use Rattle.programs.specs.PageRank.{IsRank, rank_bytes, rank_from, pagerank_program};
ghost use Rattle.programs.specs.PageRankLaws.{rank_reads_back, rank_in_range, rank_are_bytes, pagerank_lawful};

use crate::numbers::{cut, is_beyond, mixed};
use byteorder::{ByteOrder, LittleEndian};
use lumos_base::{Fixed, Line, OutInfo, Vertex, Weight};
use lumos_law::{Total, VertexProgram};

/// A value of `PageRank`: the rank of a vertex in whole numbers, and how many edges lead out of it.
///
/// A file keeps the rank in eight bytes and then the degree in four. The layout is our own.
#[derive(Clone, Copy, Debug, PartialEq, Eq)]
pub struct Rank {
    pub rank: u64,
    pub degree: u32,
}

impl Fixed for Rank {
    ghost WIDTH = { 12 };

    ghost is_in_range = { IsRank };

    ghost bytes_of = { rank_bytes };

    ghost value_of = { λ bytes. Some (rank_from bytes) };

    ghost width_low = { Prim.search rules };

    ghost width_high = { Prim.search rules };

    ghost length_bytes = { λ x. refl };

    ghost are_bytes = { rank_are_bytes };

    ghost reads_back = { λ x h. ap Some (rank_reads_back x h) };

    ghost gives_in_range = { λ bytes x h len is. Prim.rw (← same_Some _ _ is) (rank_in_range bytes h) };

    const WIDTH: usize = 12;

    fn in_range(&self) {
        let _rank = self.rank;
        let _degree = self.degree;
    }

    fn put(&self, out: &mut [u8]) {
        LittleEndian::write_u64(out, self.rank);
        LittleEndian::write_u32(&mut out[8..], self.degree);
    }

    fn get(bytes: &[u8]) -> Option<Rank> {
        Some(Rank {
            rank: LittleEndian::read_u64(bytes),
            degree: LittleEndian::read_u32(&bytes[8..]),
        })
    }
}

/// Ranks the vertices by what flows to them along the edges, as Brin and Page rank pages, in whole numbers: `unit` is the
/// rank that each vertex has at first, and `share` is how many thousandths of what a vertex is given make its next rank,
/// beside what is left of a thousand of `unit`. Both parts are rounded down. A share above 1000 leaves nothing of `unit`.
/// That numbers are whole, and that a vertex without edges gives nothing to anybody, is our own.
///
/// A vertex hands its rank on in equal parts along its edges, each rounded down, and contributes where an edge leads out. It
/// is over where what it is given is the greatest number, or where its next rank would pass that; the rank then stands at
/// the greatest number. The rank is shown.
#[derive(Clone, Copy, Debug, PartialEq, Eq)]
pub struct PageRank {
    pub unit: u64,
    pub share: u32,
    ghost unit_fits: { unit < 2 ^ 64 },
}

impl VertexProgram for PageRank {
    type Value = Rank;

    type Sum = Total;

    ghost model = { λ p. pagerank_program p.unit p.share };

    ghost name_text = { λ _. codes "pagerank" };

    ghost unit_is = { λ _. refl };

    ghost join_is = { λ _. refl };

    ghost lawful = { λ p. pagerank_lawful p.unit p.share p.unit_fits };

    ghost value_width = { Prim.search rules };

    ghost sum_width = { Prim.search rules };

    ghost name_short = { λ _. Prim.search rules };

    fn name(&self, line: &mut Line) {
        line.push_text("pagerank");
    }

    fn init(&self, _vertex: Vertex, info: OutInfo) -> Rank {
        Rank {
            rank: self.unit,
            degree: info.degree,
        }
    }

    fn contributes(&self, value: &Rank) -> bool {
        value.degree > 0
    }

    fn contribution(&self, value: &Rank, _weight: Weight) -> Total {
        Total(value.rank.checked_div(u64::from(value.degree)).unwrap_or(0))
    }

    fn over(&self, _vertex: Vertex, _before: &Rank, sum: &Total) -> bool {
        is_beyond(sum.0, mixed(self.share, self.unit, sum.0))
    }

    fn apply(&self, _vertex: Vertex, before: &Rank, sum: &Total) -> Rank {
        Rank {
            rank: cut(mixed(self.share, self.unit, sum.0)),
            degree: before.degree,
        }
    }

    fn moved(&self, before: &Rank, after: &Rank) -> bool {
        before.rank != after.rank
    }

    fn show(&self, value: &Rank, line: &mut Line) {
        line.push_number(value.rank);
    }
}

#[cfg(test)]
mod tests {
    use super::*;

    #[test]
    fn ranks_are_mixed_in_parts_that_are_rounded_down(rt: HostRuntime) {
        let vertex = Vertex(7);
        for (unit, share, given, after, over) in [
            (1000000000u64, 850u32, 500000000u64, 575000000u64, false),
            (1, 500, 1, 0, false),
            (7, 1001, 999, 999, false),
            (
                9223372036854775808,
                850,
                u64::MAX,
                17063238268181335243,
                true,
            ),
            (0, 2000, 9223372036854775807, 18446744073709551614, false),
            (0, 2000, 9223372036854775808, u64::MAX, true),
        ] {
            let pagerank = PageRank { unit, share };
            let info = OutInfo {
                degree: 3,
                weight: 9,
            };
            let before = pagerank.init(vertex, info);
            assert_eq!(rt;
                before,
                Rank {
                    rank: unit,
                    degree: 3
                }
            );
            let sum = Total(given);
            assert_eq!(rt; pagerank.over(vertex, &before, &sum), over);
            let next = pagerank.apply(vertex, &before, &sum);
            assert_eq!(rt;
                next,
                Rank {
                    rank: after,
                    degree: 3
                }
            );
            assert_eq!(rt; pagerank.moved(&before, &next), unit != after);
        }
    }

    #[test]
    fn a_vertex_hands_on_equal_parts(rt: HostRuntime) {
        let pagerank = PageRank {
            unit: 1,
            share: 850,
        };
        for (rank, degree, given) in [(7u64, 2u32, 3u64), (7, 0, 0), (u64::MAX, 1, u64::MAX)] {
            let value = Rank { rank, degree };
            assert_eq!(rt; pagerank.contributes(&value), degree > 0);
            assert_eq!(rt; pagerank.contribution(&value, Weight(9)), Total(given));
        }
        let value = Rank {
            rank: 0x0203,
            degree: 4,
        };
        let mut line = Line::new();
        pagerank.name(&mut line);
        pagerank.show(&value, &mut line);
        assert_eq!(rt; line.bytes(), b"pagerank515".as_slice());
        let mut bytes = [0u8; 12];
        value.put(&mut bytes);
        assert_eq!(rt; bytes, [3, 2, 0, 0, 0, 0, 0, 0, 4, 0, 0, 0]);
        assert_eq!(rt; Rank::get(&bytes), Some(value));
    }
}
