// How many edges lead to a vertex, counted once more in each iteration.
ghost use Rattle.std.specs.Prelude.{◌≡◌, refl, codes};
ghost use Rattle.std.proofs.Common.{rules};
ghost use Rattle.programs.specs.Tally.{tally_program};
ghost use Rattle.programs.specs.TallyLaws.{tally_lawful};

use lumos_base::{Line, OutInfo, Vertex, Weight};
use lumos_law::{Total, VertexProgram};

/// Counts the edges into a vertex, once in each iteration. The program is our own.
///
/// A vertex starts with 0, each edge gives 1, and what a vertex is given is added to its count. The count stands at the
/// greatest number where it would pass it. A vertex is over where its count would pass the greatest number, or where
/// what it is given is the greatest number. The count is shown.
#[derive(Clone, Copy, Debug, PartialEq, Eq)]
pub struct Tally;

impl VertexProgram for Tally {
    type Value = u64;

    type Sum = Total;

    ghost model = { λ _. tally_program };

    ghost name_text = { λ _. codes "tally" };

    ghost unit_is = { λ _. refl };

    ghost join_is = { λ _. refl };

    ghost lawful = { λ _. tally_lawful };

    ghost value_width = { Prim.search rules };

    ghost sum_width = { Prim.search rules };

    ghost name_short = { λ _. Prim.search rules };

    fn name(&self, line: &mut Line) {
        line.push_text("tally");
    }

    fn init(&self, _vertex: Vertex, _info: OutInfo) -> u64 {
        0
    }

    fn contributes(&self, _value: &u64) -> bool {
        true
    }

    fn contribution(&self, _value: &u64, _weight: Weight) -> Total {
        Total(1)
    }

    fn over(&self, _vertex: Vertex, before: &u64, sum: &Total) -> bool {
        sum.0 == u64::MAX || *before > u64::MAX - sum.0
    }

    fn apply(&self, _vertex: Vertex, before: &u64, sum: &Total) -> u64 {
        before.saturating_add(sum.0)
    }

    fn moved(&self, before: &u64, after: &u64) -> bool {
        before != after
    }

    fn show(&self, value: &u64, line: &mut Line) {
        line.push_number(*value);
    }
}

#[cfg(test)]
mod tests {
    use super::*;
    use lumos_law::order_of_edges;

    #[test]
    fn counts_add_and_stand_at_the_greatest_number(rt: HostRuntime) {
        order_of_edges::<Tally>();
        let vertex = Vertex(1);
        let info = OutInfo {
            degree: 2,
            weight: 5,
        };
        assert_eq!(rt; Tally.init(vertex, info), 0);
        for (before, sum, after, over, moved) in [
            (4u64, 2, 6, false, true),
            (4, 0, 4, false, false),
            (u64::MAX - 2, 2, u64::MAX, false, true),
            (u64::MAX - 2, 3, u64::MAX, true, true),
            (0, u64::MAX, u64::MAX, true, true),
        ] {
            let sum = Total(sum);
            assert!(rt; Tally.contributes(&before));
            assert_eq!(rt; Tally.contribution(&before, Weight(9)), Total(1));
            assert_eq!(rt; Tally.apply(vertex, &before, &sum), after);
            assert_eq!(rt; Tally.over(vertex, &before, &sum), over);
            assert_eq!(rt; Tally.moved(&before, &after), moved);
        }
        let mut line = Line::new();
        Tally.name(&mut line);
        Tally.show(&6, &mut line);
        assert_eq!(rt; line.bytes(), b"tally6".as_slice());
    }
}
