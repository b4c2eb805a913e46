// The iterations of an engine as events of the event core, as a function that does nothing and promises the law.
ghost use Rattle.std.specs.Prelude.{◌≡◌, ℕ, ◌+◌, ◌*◌, ◌/◌, ◌<◌, ◌≤◌, Bool, List, length};
ghost use Rattle.early_engine.specs.Core.{IsSilent, StandsAfter};
ghost use Rattle.early_engine.specs.Passes.{Hot, Place, passes, reads, tally_of};
ghost use Rattle.early_engine.specs.Steps.{blocks_in};
ghost use Rattle.early_engine.specs.declared.options.Mode.{Mode};
ghost use Rattle.flight_core.specs.EdgeList.{IsEdgeList};
ghost use Rattle.lumos_base.specs.declared.records.Edge.{Edge};
ghost use Rattle.lumos_report.specs.declared.records.Kind.{Kind};
ghost use Rattle.lumos_report.specs.declared.records.Kind.TheVariants.{Full, Fed};
ghost use Rattle.partition.specs.Parts.{chunk_size};

use lumos_law::VertexProgram;

/// What an engine does, iteration by iteration and block by block, is a list of events of the event core, and they are legal
/// one after another. A full iteration feeds or skips every block, and a fed one the blocks on the diagonal and below it.
/// Where an iteration feeds ahead, it does so with each block above the diagonal for the next iteration too. A column is made
/// final behind its last block.
///
/// `stands` says it of any program, any edges between the vertices, any number of parts and any greatest iteration. Any
/// chunks may be taken as hot, where no vertex of the others contributes. It also says what stands in the core after
/// iteration t: the state is sound, that iteration is final in all chunks and none after it is, and of the next iteration
/// exactly the blocks above the diagonal are done where it was fed ahead, with the early sums as its partial sums.
///
/// `full_few` and `fed_few` say how many blocks an iteration reads at most over p parts, whichever it needs, and however many
/// edges they have: p * p in a full iteration, and p * (p + 1) / 2 in a fed one. `all_counted`: the blocks that are counted
/// as read, skipped or empty add up to those that it goes through. The laws are our own.
pub fn passes_are_legal<G: VertexProgram>()
    ensures stands { (program : G) (edges : List Edge) (n parts bound : ℕ) (hot : Hot) → 0 < parts → IsEdgeList n edges
        → IsSilent (G.model program) edges n (chunk_size n parts) hot → (mode : Mode) (limit : ℕ) → limit ≤ bound → (t : ℕ) → t ≤ limit
        → StandsAfter (G.model program) edges n parts hot mode limit t bound }
    ensures full_few { (size : Place → ℕ) (p : ℕ) (need : Place → Bool) → length (reads size need (passes Full p)) ≤ p * p }
    ensures all_counted { (kind : Kind) (size : Place → ℕ) (need : Place → Bool) (bs : List Place) (moved : ℕ) → blocks_in (tally_of kind size need bs moved) ≡ length bs }
    ensures fed_few { (size : Place → ℕ) (p : ℕ) (need : Place → Bool) → length (reads size need (passes Fed p)) ≤ p * (p + 1) / 2 }
{}
