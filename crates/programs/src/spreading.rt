// Scores of classes that spread from seeds along the edges.
ghost use Rattle.std.specs.Prelude.{◌≡◌, ◌<◌, ◌^◌, Some, refl, codes};
ghost use Rattle.std.proofs.Common.{rules, ap};
ghost use Rattle.std.proofs.lemmas.Option.{same_Some};
ghost use Rattle.lumos_law.specs.Combines.{total4};
ghost use Rattle.programs.specs.Spreading.{IsScores, scores_bytes, scores_from, start, spreading_program};
ghost use Rattle.programs.specs.SpreadingLaws.{scores_reads_back, scores_in_range, scores_are_bytes, spreading_lawful};

use crate::Seeds;
use crate::numbers::{cut, is_beyond, mixed, part_by_weight};
use byteorder::{ByteOrder, LittleEndian};
use lumos_base::{Fixed, Line, OutInfo, Vertex, Weight};
use lumos_law::{Total4, VertexProgram};

/// A value of `Spreading`: the score of a vertex in each of the four classes, in whole numbers, and the weight of all
/// edges out of it.
///
/// A file keeps the five numbers in this order, eight bytes each. The layout is our own.
#[derive(Clone, Copy, Debug, PartialEq, Eq)]
pub struct Scores {
    pub a: u64,
    pub b: u64,
    pub c: u64,
    pub d: u64,
    pub weight: u64,
}

impl Fixed for Scores {
    ghost WIDTH = { 40 };

    ghost is_in_range = { IsScores };

    ghost bytes_of = { scores_bytes };

    ghost value_of = { λ bytes. Some (scores_from bytes) };

    ghost width_low = { Prim.search rules };

    ghost width_high = { Prim.search rules };

    ghost length_bytes = { λ x. refl };

    ghost are_bytes = { scores_are_bytes };

    ghost reads_back = { λ x h. ap Some (scores_reads_back x h) };

    ghost gives_in_range = { λ bytes x h len is. Prim.rw (← same_Some _ _ is) (scores_in_range bytes h) };

    const WIDTH: usize = 40;

    fn in_range(&self) {
        let _a = self.a;
        let _b = self.b;
        let _c = self.c;
        let _d = self.d;
        let _weight = self.weight;
    }

    fn put(&self, out: &mut [u8]) {
        LittleEndian::write_u64(out, self.a);
        LittleEndian::write_u64(&mut out[8..], self.b);
        LittleEndian::write_u64(&mut out[16..], self.c);
        LittleEndian::write_u64(&mut out[24..], self.d);
        LittleEndian::write_u64(&mut out[32..], self.weight);
    }

    fn get(bytes: &[u8]) -> Option<Scores> {
        Some(Scores {
            a: LittleEndian::read_u64(bytes),
            b: LittleEndian::read_u64(&bytes[8..]),
            c: LittleEndian::read_u64(&bytes[16..]),
            d: LittleEndian::read_u64(&bytes[24..]),
            weight: LittleEndian::read_u64(&bytes[32..]),
        })
    }
}

/// Spreads the scores of four classes from seeds along the edges, as label propagation does, in whole numbers: a seed has
/// `unit` of its own in its class, and `share` is how many thousandths of what a vertex is given make its next score,
/// beside what is left of a thousand of its own. Both parts are rounded down. A share above 1000 leaves nothing of its own.
/// The program is our own.
///
/// A vertex starts with what it has of its own, and hands each score on along its edges by their weights, each part rounded
/// down. It contributes where edges with a weight lead out and some score is above 0. It is over where what it is given in
/// some class is the greatest number, or where its next score would pass that; the score then stands at the greatest
/// number. The four scores are shown.
#[derive(Drop)]
pub struct Spreading {
    pub unit: u64,
    pub share: u32,
    pub seeds: Seeds,
    ghost unit_fits: { unit < 2 ^ 64 },
}

impl Spreading {
    // What a vertex has of its own in each class.
    fn starts(&self, vertex: Vertex) -> Total4
        ensures { result ≡ total4 (start self.now.unit self.now.seeds vertex.0 0) (start self.now.unit self.now.seeds vertex.0 1)
            (start self.now.unit self.now.seeds vertex.0 2) (start self.now.unit self.now.seeds vertex.0 3) }
    {
        let class = self.seeds.class_of(vertex.0);
        let start = |wanted: u8| if class == Some(wanted) { self.unit } else { 0 };
        Total4 {
            a: start(0),
            b: start(1),
            c: start(2),
            d: start(3),
        }
    }
}

impl VertexProgram for Spreading {
    type Value = Scores;

    type Sum = Total4;

    ghost model = { λ p. spreading_program p.unit p.share p.seeds };

    ghost name_text = { λ _. codes "spreading" };

    ghost unit_is = { λ _. refl };

    ghost join_is = { λ _. refl };

    ghost lawful = { λ p. spreading_lawful p.unit p.share p.seeds p.unit_fits };

    ghost value_width = { Prim.search rules };

    ghost sum_width = { Prim.search rules };

    ghost name_short = { λ _. Prim.search rules };

    fn name(&self, line: &mut Line) {
        line.push_text("spreading");
    }

    fn init(&self, vertex: Vertex, info: OutInfo) -> Scores {
        let own = self.starts(vertex);
        Scores {
            a: own.a,
            b: own.b,
            c: own.c,
            d: own.d,
            weight: info.weight,
        }
    }

    fn contributes(&self, value: &Scores) -> bool {
        value.weight > 0 && (value.a > 0 || value.b > 0 || value.c > 0 || value.d > 0)
    }

    fn contribution(&self, value: &Scores, weight: Weight) -> Total4 {
        Total4 {
            a: part_by_weight(value.a, weight.0, value.weight),
            b: part_by_weight(value.b, weight.0, value.weight),
            c: part_by_weight(value.c, weight.0, value.weight),
            d: part_by_weight(value.d, weight.0, value.weight),
        }
    }

    fn over(&self, vertex: Vertex, _before: &Scores, sum: &Total4) -> bool {
        let own = self.starts(vertex);
        is_beyond(sum.a, mixed(self.share, own.a, sum.a))
            || is_beyond(sum.b, mixed(self.share, own.b, sum.b))
            || is_beyond(sum.c, mixed(self.share, own.c, sum.c))
            || is_beyond(sum.d, mixed(self.share, own.d, sum.d))
    }

    fn apply(&self, vertex: Vertex, before: &Scores, sum: &Total4) -> Scores {
        let own = self.starts(vertex);
        Scores {
            a: cut(mixed(self.share, own.a, sum.a)),
            b: cut(mixed(self.share, own.b, sum.b)),
            c: cut(mixed(self.share, own.c, sum.c)),
            d: cut(mixed(self.share, own.d, sum.d)),
            weight: before.weight,
        }
    }

    fn moved(&self, before: &Scores, after: &Scores) -> bool {
        before.a != after.a || before.b != after.b || before.c != after.c || before.d != after.d
    }

    fn show(&self, value: &Scores, line: &mut Line) {
        line.push_number(value.a);
        line.push_text(" ");
        line.push_number(value.b);
        line.push_text(" ");
        line.push_number(value.c);
        line.push_text(" ");
        line.push_number(value.d);
    }
}

#[cfg(test)]
mod tests {
    use super::*;
    use crate::Seed;

    fn scores(a: u64, b: u64, c: u64, d: u64, weight: u64) -> Scores {
        Scores { a, b, c, d, weight }
    }

    #[test]
    fn scores_spread_by_weight(rt: HostRuntime) {
        let mut seeds = Seeds::new();
        assert_eq!(rt;
            seeds.push(Seed {
                vertex: 0,
                class: 0
            }),
            Ok(())
        );
        assert_eq!(rt;
            seeds.push(Seed {
                vertex: 1,
                class: 3
            }),
            Ok(())
        );
        let spreading = Spreading {
            unit: 1000,
            share: 850,
            seeds,
        };
        let info = OutInfo {
            degree: 2,
            weight: 4294967296,
        };
        let sum = Total4 {
            a: 999,
            b: 0,
            c: 7,
            d: 1000,
        };
        for (vertex, first, next) in [
            (
                0u32,
                scores(1000, 0, 0, 0, 4294967296),
                scores(999, 0, 5, 850, 4294967296),
            ),
            (
                1,
                scores(0, 0, 0, 1000, 4294967296),
                scores(849, 0, 5, 1000, 4294967296),
            ),
            (
                2,
                scores(0, 0, 0, 0, 4294967296),
                scores(849, 0, 5, 850, 4294967296),
            ),
        ] {
            let vertex = Vertex(vertex);
            assert_eq!(rt; spreading.init(vertex, info), first);
            assert_eq!(rt; spreading.apply(vertex, &first, &sum), next);
            assert!(rt; !spreading.over(vertex, &first, &sum));
            assert!(rt; spreading.moved(&first, &next));
            assert!(rt; spreading.over(vertex, &first, &Total4 { d: u64::MAX, ..sum }));
        }
        for (value, weight, given) in [
            (
                scores(1000, 3, 0, 0, 4294967296),
                4294967295,
                [999, 2, 0, 0],
            ),
            (
                scores(u64::MAX, 0, 0, 0, 3),
                2,
                [12297829382473034410, 0, 0, 0],
            ),
            (scores(u64::MAX, 0, 0, 1, 1), 2, [u64::MAX, 0, 0, 2]),
            (scores(5, 5, 5, 5, 0), 2, [0, 0, 0, 0]),
            (scores(0, 0, 0, 0, 2), 2, [0, 0, 0, 0]),
        ] {
            let [a, b, c, d] = given;
            assert_eq!(rt;
                spreading.contribution(&value, Weight(weight)),
                Total4 { a, b, c, d }
            );
            assert_eq!(rt; spreading.contributes(&value), a > 0);
        }
        let mut line = Line::new();
        spreading.name(&mut line);
        spreading.show(&scores(1, 20, 0, 4, 5), &mut line);
        assert_eq!(rt; line.bytes(), b"spreading1 20 0 4".as_slice());
        let mut bytes = [0u8; 40];
        scores(1, 2, 3, 4, 5).put(&mut bytes);
        assert_eq!(rt;
            (bytes[0], bytes[8], bytes[16], bytes[24], bytes[32]),
            (1, 2, 3, 4, 5)
        );
        assert_eq!(rt; Scores::get(&bytes), Some(scores(1, 2, 3, 4, 5)));
    }
}
