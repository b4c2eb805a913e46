// The least label, spread along the edges.
ghost use Rattle.std.specs.Prelude.{◌≡◌, refl, codes};
ghost use Rattle.std.proofs.Common.{rules};
ghost use Rattle.programs.specs.Flagged.{flagged_bytes, flagged_from};
ghost use Rattle.programs.specs.FlaggedLaws.{flagged_are_bytes, flagged_reads_back, flagged_in_range};
ghost use Rattle.programs.specs.Components.{label_of, IsLabel, components_program};
ghost use Rattle.programs.specs.ComponentsLaws.{components_lawful};

use byteorder::{ByteOrder, LittleEndian};
use lumos_base::{Fixed, Line, OutInfo, Vertex, Weight};
use lumos_law::{Least, VertexProgram};

/// A value of `Components`: the least vertex that was heard of, and whether it is news, as it is at the start and after
/// each iteration that brought it.
///
/// A file keeps the label in eight bytes, and then one that is 1 where it is fresh and else 0. `get` is `None` exactly
/// where that byte is another. The layout is our own.
#[derive(Clone, Copy, Debug, PartialEq, Eq)]
pub struct Label {
    pub label: u64,
    pub fresh: bool,
}

impl Fixed for Label {
    ghost WIDTH = { 9 };

    ghost is_in_range = { IsLabel };

    ghost bytes_of = { λ x. flagged_bytes x.label x.fresh };

    ghost value_of = { flagged_from label_of };

    ghost width_low = { Prim.search rules };

    ghost width_high = { Prim.search rules };

    ghost length_bytes = { λ x. refl };

    ghost are_bytes = { λ x. flagged_are_bytes x.label x.fresh };

    ghost reads_back = { λ x h. flagged_reads_back label_of x.label x.fresh h };

    ghost gives_in_range = { λ bytes x h len is. flagged_in_range label_of (λ y. y.label) (λ n b. refl) bytes x h is };

    const WIDTH: usize = 9;

    fn in_range(&self) {
        let _label = self.label;
    }

    fn put(&self, out: &mut [u8]) {
        LittleEndian::write_u64(out, self.label);
        out[8] = u8::from(self.fresh);
    }

    fn get(bytes: &[u8]) -> Option<Label> {
        let label = LittleEndian::read_u64(bytes);
        match bytes[8] {
            0 => Some(Label {
                label,
                fresh: false,
            }),
            1 => Some(Label { label, fresh: true }),
            _ => None,
        }
    }
}

/// Spreads the least label along the edges, as the textbook finds connected components in a list with each edge in both
/// directions. That a vertex contributes only a label that is news is our own.
///
/// A vertex starts with itself as its label, which is fresh. It contributes its label where that is fresh. The least of
/// its label and of what it is given is its next label, which is fresh where it is less than before. No vertex is ever
/// over, and the label alone is shown.
#[derive(Clone, Copy, Debug, PartialEq, Eq)]
pub struct Components;

impl VertexProgram for Components {
    type Value = Label;

    type Sum = Least;

    ghost model = { λ _. components_program };

    ghost name_text = { λ _. codes "components" };

    ghost unit_is = { λ _. refl };

    ghost join_is = { λ _. refl };

    ghost lawful = { λ _. components_lawful };

    ghost value_width = { Prim.search rules };

    ghost sum_width = { Prim.search rules };

    ghost name_short = { λ _. Prim.search rules };

    fn name(&self, line: &mut Line) {
        line.push_text("components");
    }

    fn init(&self, vertex: Vertex, _info: OutInfo) -> Label {
        Label {
            label: u64::from(vertex.0),
            fresh: true,
        }
    }

    fn contributes(&self, value: &Label) -> bool {
        value.fresh
    }

    fn contribution(&self, value: &Label, _weight: Weight) -> Least {
        // without a branch: the mask is 0 where the label is fresh, and else the unit
        let mask = u64::from(value.fresh).wrapping_sub(1);
        Least(value.label.max(mask))
    }

    fn over(&self, _vertex: Vertex, _before: &Label, _sum: &Least) -> bool {
        false
    }

    fn apply(&self, _vertex: Vertex, before: &Label, sum: &Least) -> Label {
        Label {
            label: before.label.min(sum.0),
            fresh: sum.0 < before.label,
        }
    }

    fn moved(&self, before: &Label, after: &Label) -> bool {
        before.label != after.label
    }

    fn show(&self, value: &Label, line: &mut Line) {
        line.push_number(value.label);
    }
}

#[cfg(test)]
mod tests {
    use super::*;

    fn label(label: u64, fresh: bool) -> Label {
        Label { label, fresh }
    }

    #[test]
    fn labels_fall_and_are_told_on_where_they_are_news(rt: HostRuntime) {
        let vertex = Vertex(7);
        let none = OutInfo {
            degree: 0,
            weight: 0,
        };
        assert_eq!(rt; Components.init(vertex, none), label(7, true));
        for (before, sum, given, after, moved) in [
            (label(7, true), 3, 7, label(3, true), true),
            (label(7, true), 7, 7, label(7, false), false),
            (label(7, false), u64::MAX, u64::MAX, label(7, false), false),
        ] {
            let sum = Least(sum);
            assert_eq!(rt; Components.contributes(&before), before.fresh);
            assert_eq!(rt; Components.contribution(&before, Weight(9)), Least(given));
            assert_eq!(rt; Components.apply(vertex, &before, &sum), after);
            assert_eq!(rt; Components.moved(&before, &after), moved);
            assert!(rt; !Components.over(vertex, &before, &sum));
        }
        let mut line = Line::new();
        Components.name(&mut line);
        Components.show(&label(7, true), &mut line);
        assert_eq!(rt; line.bytes(), b"components7".as_slice());
        let mut bytes = [0u8; 9];
        label(0x0203, true).put(&mut bytes);
        assert_eq!(rt; bytes, [3, 2, 0, 0, 0, 0, 0, 0, 1]);
        assert_eq!(rt; Label::get(&bytes), Some(label(0x0203, true)));
        assert_eq!(rt; Label::get(&[3, 2, 0, 0, 0, 0, 0, 0, 2]), None);
    }
}
