// What a vertex program is.
ghost use Rattle.std.specs.Prelude.{◌≡◌, ℕ, ◌+◌, ◌≤◌, ◌<◌, ◌^◌, List, ◌++◌, length, All, IsPermutation};
ghost use Rattle.lumos_base.specs.Records.{IsEdge};
ghost use Rattle.lumos_base.specs.declared.records.Edge.{Edge};
ghost use Rattle.lumos_law.specs.Program.{Program, Lawful};
ghost use Rattle.lumos_law.specs.Sync.{ending, moved_count, values};

use crate::Combine;
use lumos_base::{Fixed, Line, OutInfo, Vertex, Weight};

/// A program over the vertices of a graph, in a form of our own: in each iteration every edge gives its target a
/// contribution of its source's value, these are joined, and each vertex's next value is made of its value and its sum.
///
/// Each program proves the laws `lawful`, for all values, sums and edges in range. The widths of its values and sums lie
/// from 8 to 64 bytes: at least 8 by the laws below, and at most 64 as for every `Fixed`.
pub trait VertexProgram: Drop {
    type Value: Fixed + Copy;

    type Sum: Combine;

    /// The functions of the program.
    ghost model: { Self → Program Self.Value Self.Sum };

    /// The program's word.
    ghost name_text: { Self → List ℕ };

    /// Appends the program's word, of at most 16 bytes, for which there has to be room.
    fn name(&self, line: &mut Line)
        requires { length line.old + 16 ≤ 128 }
        ensures text { line.new ≡ line.old ++ name_text self.now }
        ensures short { length line.new ≤ length line.old + 16 };

    /// The first value of a vertex with these edges out of it.
    fn init(&self, vertex: Vertex, info: OutInfo) -> Self::Value
        ensures { result ≡ (model self.now).init vertex.0 info };

    /// Whether a vertex with this value gives its neighbours anything: where it is false, each of its edges contributes
    /// the unit.
    fn contributes(&self, value: &Self::Value) -> bool
        ensures { result ≡ (model self.now).contributes value.now };

    /// What an edge of this weight gives its target, where its source has this value.
    fn contribution(&self, value: &Self::Value, weight: Weight) -> Self::Sum
        ensures { result ≡ (model self.now).contribution value.now weight.0 };

    /// Whether the next value of the vertex is beyond the numbers that a value holds.
    fn over(&self, vertex: Vertex, before: &Self::Value, sum: &Self::Sum) -> bool
        ensures { result ≡ (model self.now).over vertex.0 before.now sum.now };

    /// The next value of a vertex, also where it is over.
    fn apply(&self, vertex: Vertex, before: &Self::Value, sum: &Self::Sum) -> Self::Value
        ensures { result ≡ (model self.now).apply vertex.0 before.now sum.now };

    /// Whether the two values' shown texts differ.
    fn moved(&self, before: &Self::Value, after: &Self::Value) -> bool
        ensures { result ≡ (model self.now).moved before.now after.now };

    /// Appends a value's text, of at most 96 bytes, for which there has to be room.
    fn show(&self, value: &Self::Value, line: &mut Line)
        requires { length line.old + 96 ≤ 128 }
        ensures text { line.new ≡ line.old ++ (model self.now).show value.now }
        ensures short { length line.new ≤ length line.old + 96 };

    ghost unit_is: { (p : Self) → (model p).unit ≡ Self.Sum.unit };

    ghost join_is: { (p : Self) → (model p).join ≡ Self.Sum.joined };

    ghost lawful: { (p : Self) → Lawful Self.Value.is_in_range Self.Sum.is_in_range (model p) };

    ghost value_width: { 8 ≤ Self.Value.WIDTH };

    ghost sum_width: { 8 ≤ Self.Sum.WIDTH };

    ghost name_short: { (p : Self) → length (name_text p) ≤ 16 };
}

/// The law that the order of the edges does not matter: over a reordered list the synchronous values are those over the
/// list, in each iteration as many vertices move, and a run ends in the same way. The call itself does nothing.
pub fn order_of_edges<G: VertexProgram>()
    ensures value { (program : G) (xs ys : List Edge) → IsPermutation xs ys → length xs ≤ 2147483648 → All IsEdge xs
        → (t v : ℕ) → v < 2 ^ 32 → values (G.model program) xs t v ≡ values (G.model program) ys t v }
    ensures moves { (program : G) (xs ys : List Edge) → IsPermutation xs ys → length xs ≤ 2147483648 → All IsEdge xs
        → (n t : ℕ) → n ≤ 2 ^ 32 → moved_count (G.model program) xs n t ≡ moved_count (G.model program) ys n t }
    ensures ends { (program : G) (xs ys : List Edge) → IsPermutation xs ys → length xs ≤ 2147483648 → All IsEdge xs
        → (n limit : ℕ) → n ≤ 2 ^ 32 → ending (G.model program) xs n limit ≡ ending (G.model program) ys n limit }
{}
