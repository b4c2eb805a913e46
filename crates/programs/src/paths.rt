// The least costs of walks from one vertex.
ghost use Rattle.std.specs.Prelude.{◌≡◌, refl, codes};
ghost use Rattle.std.proofs.Common.{rules};
ghost use Rattle.programs.specs.Flagged.{flagged_bytes, flagged_from};
ghost use Rattle.programs.specs.FlaggedLaws.{flagged_are_bytes, flagged_reads_back, flagged_in_range};
ghost use Rattle.programs.specs.Paths.{cost_with, IsCost, paths_program};
ghost use Rattle.programs.specs.PathsLaws.{paths_lawful};

use byteorder::{ByteOrder, LittleEndian};
use lumos_base::{Fixed, Line, OutInfo, Vertex, Weight};
use lumos_law::{Least, VertexProgram};

/// A value of `Paths`: the least cost at which the vertex was reached, or the greatest number where it wasn't, and whether
/// it is news, as it is at the start and after each iteration that brought it.
///
/// A file keeps the cost in eight bytes, and then one that is 1 where it is fresh and else 0. `get` is `None` exactly
/// where that byte is another. The layout is our own.
#[derive(Clone, Copy, Debug, PartialEq, Eq)]
pub struct Cost {
    pub cost: u64,
    pub fresh: bool,
}

impl Fixed for Cost {
    ghost WIDTH = { 9 };

    ghost is_in_range = { IsCost };

    ghost bytes_of = { λ x. flagged_bytes x.cost x.fresh };

    ghost value_of = { flagged_from cost_with };

    ghost width_low = { Prim.search rules };

    ghost width_high = { Prim.search rules };

    ghost length_bytes = { λ x. refl };

    ghost are_bytes = { λ x. flagged_are_bytes x.cost x.fresh };

    ghost reads_back = { λ x h. flagged_reads_back cost_with x.cost x.fresh h };

    ghost gives_in_range = { λ bytes x h len is. flagged_in_range cost_with (λ y. y.cost) (λ n b. refl) bytes x h is };

    const WIDTH: usize = 9;

    fn in_range(&self) {
        let _cost = self.cost;
    }

    fn put(&self, out: &mut [u8]) {
        LittleEndian::write_u64(out, self.cost);
        out[8] = u8::from(self.fresh);
    }

    fn get(bytes: &[u8]) -> Option<Cost> {
        let cost = LittleEndian::read_u64(bytes);
        match bytes[8] {
            0 => Some(Cost { cost, fresh: false }),
            1 => Some(Cost { cost, fresh: true }),
            _ => None,
        }
    }
}

/// Spreads the least cost from one vertex along the edges, as Bellman and Ford find shortest paths, an edge more in each
/// iteration. That a vertex contributes only a cost that is news is our own.
///
/// The start has cost 0, which is fresh, and every other vertex none, which the greatest number stands for. A vertex
/// contributes its cost and the edge's weight where the cost is fresh. The least of its cost and of what it is given is its
/// next cost, which is fresh where it is less than before. No vertex is ever over. The cost is shown, or `-` where there is
/// none.
#[derive(Clone, Copy, Debug, PartialEq, Eq)]
pub struct Paths {
    pub from: u32,
}

impl VertexProgram for Paths {
    type Value = Cost;

    type Sum = Least;

    ghost model = { λ p. paths_program p.from };

    ghost name_text = { λ _. codes "paths" };

    ghost unit_is = { λ _. refl };

    ghost join_is = { λ _. refl };

    ghost lawful = { λ p. paths_lawful p.from };

    ghost value_width = { Prim.search rules };

    ghost sum_width = { Prim.search rules };

    ghost name_short = { λ _. Prim.search rules };

    fn name(&self, line: &mut Line) {
        line.push_text("paths");
    }

    fn init(&self, vertex: Vertex, _info: OutInfo) -> Cost {
        if vertex.0 == self.from {
            Cost {
                cost: 0,
                fresh: true,
            }
        } else {
            Cost {
                cost: u64::MAX,
                fresh: false,
            }
        }
    }

    fn contributes(&self, value: &Cost) -> bool {
        value.fresh
    }

    fn contribution(&self, value: &Cost, weight: Weight) -> Least {
        // without a branch: the mask is 0 where the cost is fresh, and else the unit
        let mask = u64::from(value.fresh).wrapping_sub(1);
        let cost = value.cost.saturating_add(u64::from(weight.0));
        Least(cost.max(mask))
    }

    fn over(&self, _vertex: Vertex, _before: &Cost, _sum: &Least) -> bool {
        false
    }

    fn apply(&self, _vertex: Vertex, before: &Cost, sum: &Least) -> Cost {
        Cost {
            cost: before.cost.min(sum.0),
            fresh: sum.0 < before.cost,
        }
    }

    fn moved(&self, before: &Cost, after: &Cost) -> bool {
        before.cost != after.cost
    }

    fn show(&self, value: &Cost, line: &mut Line) {
        if value.cost == u64::MAX {
            line.push_text("-");
        } else {
            line.push_number(value.cost);
        }
    }
}

#[cfg(test)]
mod tests {
    use super::*;

    fn cost(cost: u64, fresh: bool) -> Cost {
        Cost { cost, fresh }
    }

    #[test]
    fn costs_fall_and_are_told_on_where_they_are_news(rt: HostRuntime) {
        let paths = Paths { from: 7 };
        let vertex = Vertex(7);
        let none = OutInfo {
            degree: 0,
            weight: 0,
        };
        assert_eq!(rt; paths.init(vertex, none), cost(0, true));
        assert_eq!(rt; paths.init(Vertex(8), none), cost(u64::MAX, false));
        for (before, sum, given, after, moved) in [
            (cost(7, true), 3, 16, cost(3, true), true),
            (cost(7, true), 7, 16, cost(7, false), false),
            (cost(u64::MAX, false), 5, u64::MAX, cost(5, true), true),
            (
                cost(u64::MAX, false),
                u64::MAX,
                u64::MAX,
                cost(u64::MAX, false),
                false,
            ),
        ] {
            let sum = Least(sum);
            assert_eq!(rt; paths.contributes(&before), before.fresh);
            assert_eq!(rt; paths.contribution(&before, Weight(9)), Least(given));
            assert_eq!(rt; paths.apply(vertex, &before, &sum), after);
            assert_eq!(rt; paths.moved(&before, &after), moved);
            assert!(rt; !paths.over(vertex, &before, &sum));
        }
        let mut line = Line::new();
        paths.name(&mut line);
        paths.show(&cost(7, true), &mut line);
        assert_eq!(rt; line.bytes(), b"paths7".as_slice());
        let mut none = Line::new();
        paths.show(&cost(u64::MAX, false), &mut none);
        assert_eq!(rt; none.bytes(), b"-".as_slice());
        let mut bytes = [0u8; 9];
        cost(0x0203, true).put(&mut bytes);
        assert_eq!(rt; bytes, [3, 2, 0, 0, 0, 0, 0, 0, 1]);
        assert_eq!(rt; Cost::get(&bytes), Some(cost(0x0203, true)));
        assert_eq!(rt; Cost::get(&[3, 2, 0, 0, 0, 0, 0, 0, 2]), None);
    }
}
