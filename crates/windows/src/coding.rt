// How the values and the sums of a program stand in records.
ghost use Rattle.windows.specs.Windows.{Coding};

use lumos_law::VertexProgram;

/// The records of a program's values and sums, as contracts name them: which value the bytes of a record stand for, and how
/// many they are. Each program has it.
pub trait Coded: VertexProgram {
    ghost coding: { Coding Self.Value Self.Sum };
}

impl<G: VertexProgram> Coded for G {
    ghost coding = { record {
      value_of = G.Value.value_of;
      value_width = G.Value.WIDTH;
      sum_of = G.Sum.value_of;
      sum_width = G.Sum.WIDTH;
    } };
}
