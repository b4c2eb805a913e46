// The values of a chunk after an iteration, made of those before it and of its sums.
ghost use Rattle.std.specs.Prelude.{◌≡◌, ◌≤◌, ◌<◌, ◌+◌, ◌-◌, ◌*◌, ℕ, List, Err, None, length, take, drop, cond, ◌%◌, ◌==◌, IfErr, IfOk, IfSome, IsSome, OnOk};
ghost use Rattle.lumos_depot.specs.Causes.{Rose};
ghost use Rattle.lumos_depot.specs.Files.{SameOutsideTold};
ghost use Rattle.lumos_depot.specs.declared.depot.FileKind.{FileKind};
ghost use Rattle.lumos_depot.specs.Steps.{Moves, Reads, RoseBy};
ghost use Rattle.lumos_law.specs.Sync.{IsChunk};
ghost use Rattle.partition.specs.Parts.{chunk_of, first_vertex, part_length, IsInPart, IsWithin};
ghost use Rattle.flight_core.specs.Finish.{IsOver, applied, finish_of};
ghost use Rattle.value_files.specs.Kept.{value_place};
ghost use Rattle.value_files.specs.Records.{FaultIs, IsIntact, ShowsBroken, damage_at};
ghost use Rattle.windows.specs.Kept.{AreFiled};
ghost use Rattle.windows.specs.Windows.{put_in, turn_list};

use crate::part::{load_filed, store_filed};
use flight_core::{Finish, finalise};
use lumos_base::Fixed;
use lumos_depot::{Depot, FileKind};
use lumos_law::VertexProgram;
use partition::{Parts, VertexRange};
use value_files::FileFault;

// Makes the next values of a range of vertices, where the values before and those after stand among those of all vertices
// from 0 on.
fn finish_range<G: VertexProgram>(
    program: &G,
    range: VertexRange,
    sums: &[G::Sum],
    before: &[G::Value],
    after: &mut [G::Value],
) -> Finish
    requires ordered { range.first ≤ range.past }
    requires few { range.past ≤ 268435456 }
    requires sums_fit { range.past - range.first ≤ length sums.now }
    requires before_fits { range.past ≤ length before.now }
    requires after_fits { range.past ≤ length after.old }
    ensures few { result.moved ≤ range.past - range.first }
    ensures step { (state : ℕ → G.Value) (sum : ℕ → G.Sum)
        → IsChunk state range.first (take (range.past - range.first) (drop range.first before.now))
        → IsChunk sum range.first (take (range.past - range.first) sums.now)
        → IsChunk (applied (G.model program.now) state sum) range.first (take (range.past - range.first) (drop range.first after.new))
        × (result ≡ finish_of (G.model program.now) state sum range.first (range.past - range.first)) }
    ensures rest { after.new ≡ put_in range.first (take (range.past - range.first) (drop range.first after.new)) after.old }
    ensures over { IfSome result.over (λ vertex. IsWithin range.first (range.past - range.first) vertex.0
        × IsOver G.Value.is_in_range G.Sum.is_in_range (G.model program.now) vertex.0) }
{
    let first = range.first as usize;
    let past = range.past as usize;
    let values = &before[first..past];
    finalise(
        program,
        range.first,
        values,
        &sums[..past - first],
        &mut after[first..past],
    )
}

// Makes the values of a range of vertices after iteration t, of those after iteration t - 1 and of their sums, where both
// stand in memory: of even iterations in the one list, of odd ones in the other.
pub(crate) fn close_in_memory<G: VertexProgram>(
    program: &G,
    t: u32,
    range: VertexRange,
    sums: &[G::Sum],
    even: &mut [G::Value],
    odd: &mut [G::Value],
) -> Finish
    requires some { 0 < t }
    requires ordered { range.first ≤ range.past }
    requires few { range.past ≤ 268435456 }
    requires sums_fit { range.past - range.first ≤ length sums.now }
    requires even_fits { range.past ≤ length even.old }
    requires odd_fits { range.past ≤ length odd.old }
    ensures few { result.moved ≤ range.past - range.first }
    ensures step { (state : ℕ → G.Value) (sum : ℕ → G.Sum)
        → IsChunk state range.first (take (range.past - range.first) (drop range.first (turn_list (t - 1) even.old odd.old)))
        → IsChunk sum range.first (take (range.past - range.first) sums.now)
        → IsChunk (applied (G.model program.now) state sum) range.first (take (range.past - range.first) (drop range.first (turn_list t even.new odd.new)))
        × (result ≡ finish_of (G.model program.now) state sum range.first (range.past - range.first)) }
    ensures even { even.new ≡ cond (t % 2 == 1) even.old (put_in range.first (take (range.past - range.first) (drop range.first (turn_list t even.new odd.new))) even.old) }
    ensures odd { odd.new ≡ cond (t % 2 == 1) (put_in range.first (take (range.past - range.first) (drop range.first (turn_list t even.new odd.new))) odd.old) odd.old }
    ensures over { IfSome result.over (λ vertex. IsWithin range.first (range.past - range.first) vertex.0
        × IsOver G.Value.is_in_range G.Sum.is_in_range (G.model program.now) vertex.0) }
{
    if t % 2 == 1 {
        finish_range(program, range, sums, even, odd)
    } else {
        finish_range(program, range, sums, odd, even)
    }
}

// Brings the values of a part after iteration t - 1 from Values into the first window, makes those after iteration t of them
// and of the sums in the second one, and writes these into Values where no vertex of the part is over.
pub(crate) fn close_in_file<G: VertexProgram, D: Depot>(
    depot: &mut D,
    program: &G,
    parts: Parts,
    t: u32,
    part: u32,
    sums: &[G::Sum],
    first: &mut [G::Value],
    second: &mut [G::Value],
) -> Result<Finish, FileFault>
    requires attached { IsSome (D.attached depot.old) }
    requires part { part < parts.parts }
    requires few { parts.vertices ≤ 268435456 }
    requires some { 0 < t }
    requires sums_fit { part_length parts.vertices (chunk_of parts) part ≤ length sums.now }
    requires first_fits { part_length parts.vertices (chunk_of parts) part ≤ length first.old }
    requires second_fits { part_length parts.vertices (chunk_of parts) part ≤ length second.old }
    requires sized { IfSome (D.holds depot.old FileKind.Values) (λ file. length file ≡ 2 * parts.vertices * G.Value.WIDTH) }
    ensures step { (state : ℕ → G.Value) (sum : ℕ → G.Sum) (xs : List G.Value)
        → AreFiled G.Value.value_of G.Value.WIDTH parts (t - 1) part (D.holds depot.old FileKind.Values) xs
        → IsChunk state (first_vertex parts.vertices (chunk_of parts) part) xs
        → IsChunk sum (first_vertex parts.vertices (chunk_of parts) part) (take (part_length parts.vertices (chunk_of parts) part) sums.now)
        → IfOk result (λ end. (end ≡ finish_of (G.model program.now) state sum (first_vertex parts.vertices (chunk_of parts) part) (part_length parts.vertices (chunk_of parts) part))
        × IsChunk (applied (G.model program.now) state sum) (first_vertex parts.vertices (chunk_of parts) part) (take (part_length parts.vertices (chunk_of parts) part) second.new)) }
    ensures by_window { (state : ℕ → G.Value) (sum : ℕ → G.Sum)
        → IsChunk state (first_vertex parts.vertices (chunk_of parts) part) (take (part_length parts.vertices (chunk_of parts) part) first.new)
        → IsChunk sum (first_vertex parts.vertices (chunk_of parts) part) (take (part_length parts.vertices (chunk_of parts) part) sums.now)
        → IfOk result (λ end. end ≡ finish_of (G.model program.now) state sum (first_vertex parts.vertices (chunk_of parts) part) (part_length parts.vertices (chunk_of parts) part)) }
    ensures filed { IsSome (D.holds depot.old FileKind.Values) → IfOk result (λ end. end.over ≡ None
        → AreFiled G.Value.value_of G.Value.WIDTH parts t part (D.holds depot.new FileKind.Values) (take (part_length parts.vertices (chunk_of parts) part) second.new)) }
    ensures loaded { (xs : List G.Value) → AreFiled G.Value.value_of G.Value.WIDTH parts (t - 1) part (D.holds depot.old FileKind.Values) xs
        → OnOk result (take (part_length parts.vertices (chunk_of parts) part) first.new ≡ xs) }
    ensures outside { SameOutsideTold (value_place G.Value.WIDTH parts.vertices t (first_vertex parts.vertices (chunk_of parts) part))
        (G.Value.WIDTH * part_length parts.vertices (chunk_of parts) part) (D.holds depot.old FileKind.Values) (D.holds depot.new FileKind.Values) }
    ensures few { IfOk result (λ end. end.moved ≤ part_length parts.vertices (chunk_of parts) part) }
    ensures over { IfOk result (λ end. IfSome end.over (λ vertex. IsInPart parts.vertices (chunk_of parts) part vertex.0
        × IsOver G.Value.is_in_range G.Sum.is_in_range (G.model program.now) vertex.0)) }
    ensures unkept { IfOk result (λ end. IfSome end.over (λ vertex. Reads D.holds D.taken D.stored D.faults D.attached FileKind.Values depot.old depot.new)) }
    ensures intact { (xs : List G.Value) → AreFiled G.Value.value_of G.Value.WIDTH parts (t - 1) part (D.holds depot.old FileKind.Values) xs → IfErr result IsIntact }
    ensures fault { IfSome (D.holds depot.old FileKind.Values) (λ file. FaultIs result (damage_at G.Value.value_of G.Value.WIDTH FileKind.Values
        (value_place G.Value.WIDTH parts.vertices (t - 1) (first_vertex parts.vertices (chunk_of parts) part)) (part_length parts.vertices (chunk_of parts) part) file)) }
    ensures broken { IfErr result (ShowsBroken G.Value.value_of G.Value.WIDTH FileKind.Values
        (value_place G.Value.WIDTH parts.vertices (t - 1) (first_vertex parts.vertices (chunk_of parts) part)) (part_length parts.vertices (chunk_of parts) part)) }
    ensures taken { OnOk result (RoseBy (D.taken depot.old FileKind.Values) (D.taken depot.new FileKind.Values) (G.Value.WIDTH * part_length parts.vertices (chunk_of parts) part)) }
    ensures taken_most { D.taken depot.new FileKind.Values ≤ D.taken depot.old FileKind.Values + G.Value.WIDTH * part_length parts.vertices (chunk_of parts) part }
    ensures stored { IfOk result (λ end. end.over ≡ None → RoseBy (D.stored depot.old FileKind.Values) (D.stored depot.new FileKind.Values) (G.Value.WIDTH * part_length parts.vertices (chunk_of parts) part)) }
    ensures stored_most { D.stored depot.new FileKind.Values ≤ D.stored depot.old FileKind.Values + G.Value.WIDTH * part_length parts.vertices (chunk_of parts) part }
    ensures moves { Moves D.holds D.taken D.stored D.faults D.attached FileKind.Values FileKind.Values depot.old depot.new }
    ensures cause { result ≡ Err FileFault.Depot → Rose (D.faults depot.old) (D.faults depot.new) }
{
    match load_filed(depot, parts, t - 1, part, first) {
        Ok(()) => {}
        Err(fault) => return Err(fault),
    }
    let range = parts.range_of(part);
    let len = (range.past - range.first) as usize;
    let after = &mut second[..len];
    let end = finalise(program, range.first, &first[..len], &sums[..len], after);
    if end.over.is_some() {
        return Ok(end);
    }
    match store_filed(depot, parts, t, part, after) {
        Ok(()) => Ok(end),
        Err(fault) => Err(fault),
    }
}
