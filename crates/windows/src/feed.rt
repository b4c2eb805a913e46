// Edges fed from one window into another, and early sums brought into one.
ghost use Rattle.std.specs.Prelude.{◌≡◌, ◌≤◌, ◌<◌, ◌+◌, ◌-◌, ◌*◌, ℕ, List, All, Err, length, take, IfErr, IfSome, IsSome, OnOk};
ghost use Rattle.lumos_depot.specs.Causes.{Rose};
ghost use Rattle.lumos_depot.specs.declared.depot.FileKind.{FileKind};
ghost use Rattle.lumos_depot.specs.Steps.{Reads, RoseBy};
ghost use Rattle.lumos_law.specs.Sync.{fed_sum, IsChunk};
ghost use Rattle.partition.specs.Parts.{chunk_of, first_vertex, part_length, IsWithin};
ghost use Rattle.value_files.specs.Kept.{sum_place};
ghost use Rattle.value_files.specs.Records.{FaultIs, IsIntact, ShowsBroken, damage_at};
ghost use Rattle.windows.specs.Kept.{AreStored};

use flight_core::feed_edges;
use lumos_base::{Edge, Fixed};
use lumos_depot::{Depot, FileKind};
use lumos_law::VertexProgram;
use partition::{Parts, VertexRange};
use value_files::{FileFault, load_sums};

// Joins to the first sums, which are those of a range of vertices, what edges give by the values of the vertices from
// `first` on.
pub(crate) fn feed_window<G: VertexProgram>(
    program: &G,
    edges: &[Edge],
    first: u32,
    values: &[G::Value],
    into: VertexRange,
    sums: &mut [G::Sum],
)
    requires ordered { into.first ≤ into.past }
    requires sums_fit { into.past - into.first ≤ length sums.old }
    requires sources { All (λ e. IsWithin first (length values.now) e.source.0) edges.now }
    requires targets { All (λ e. IsWithin into.first (into.past - into.first) e.target.0) edges.now }
    ensures { (state : ℕ → G.Value) (first_sum : ℕ → G.Sum)
        → IsChunk state first values.now → IsChunk first_sum into.first (take (into.past - into.first) sums.old)
        → IsChunk (λ v. fed_sum (G.model program.now) edges.now state v (first_sum v)) into.first (take (into.past - into.first) sums.new) }
{
    let targets = &mut sums[..(into.past - into.first) as usize];
    feed_edges(program, edges, first, values, into.first, targets);
}

// Fills the first places with the sums of a part in Sums.
pub(crate) fn load_early_part<S: Fixed + Copy, D: Depot>(
    depot: &mut D,
    parts: Parts,
    part: u32,
    out: &mut [S],
) -> Result<(), FileFault>
    requires attached { IsSome (D.attached depot.old) }
    requires wide { 8 ≤ S.WIDTH }
    requires part { part < parts.parts }
    requires out_fits { part_length parts.vertices (chunk_of parts) part ≤ length out.old }
    requires sized { IfSome (D.holds depot.old FileKind.Sums) (λ file. length file ≡ parts.vertices * S.WIDTH) }
    ensures sums { (xs : List S) → AreStored S.value_of S.WIDTH parts part (D.holds depot.old FileKind.Sums) xs
        → OnOk result (take (part_length parts.vertices (chunk_of parts) part) out.new ≡ xs) }
    ensures intact { (xs : List S) → AreStored S.value_of S.WIDTH parts part (D.holds depot.old FileKind.Sums) xs → IfErr result IsIntact }
    ensures fault { IfSome (D.holds depot.old FileKind.Sums) (λ file. FaultIs result (damage_at S.value_of S.WIDTH FileKind.Sums
        (sum_place S.WIDTH (first_vertex parts.vertices (chunk_of parts) part)) (part_length parts.vertices (chunk_of parts) part) file)) }
    ensures broken { IfErr result (ShowsBroken S.value_of S.WIDTH FileKind.Sums
        (sum_place S.WIDTH (first_vertex parts.vertices (chunk_of parts) part)) (part_length parts.vertices (chunk_of parts) part)) }
    ensures taken { OnOk result (RoseBy (D.taken depot.old FileKind.Sums) (D.taken depot.new FileKind.Sums) (S.WIDTH * part_length parts.vertices (chunk_of parts) part)) }
    ensures taken_most { D.taken depot.new FileKind.Sums ≤ D.taken depot.old FileKind.Sums + S.WIDTH * part_length parts.vertices (chunk_of parts) part }
    ensures reads { Reads D.holds D.taken D.stored D.faults D.attached FileKind.Sums depot.old depot.new }
    ensures cause { result ≡ Err FileFault.Depot → Rose (D.faults depot.old) (D.faults depot.new) }
{
    let range = parts.range_of(part);
    let window = &mut out[..(range.past - range.first) as usize];
    load_sums(depot, range, window)
}
