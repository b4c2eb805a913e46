// The values of one chunk, in memory or in Values.
ghost use Rattle.std.specs.Prelude.{◌≡◌, ◌≤◌, ◌<◌, ◌+◌, ◌*◌, ℕ, List, Err, length, take, IfErr, IfSome, IsOk, IsSome, OnOk};
ghost use Rattle.lumos_depot.specs.Causes.{Rose};
ghost use Rattle.lumos_depot.specs.Files.{SameOutsideTold};
ghost use Rattle.lumos_depot.specs.declared.depot.FileKind.{FileKind};
ghost use Rattle.lumos_depot.specs.Steps.{Reads, RoseBy, Stores};
ghost use Rattle.partition.specs.Parts.{chunk_of, first_vertex, part_length};
ghost use Rattle.value_files.specs.Kept.{value_place};
ghost use Rattle.value_files.specs.Records.{FaultIs, IsIntact, ShowsBroken, damage_at};
ghost use Rattle.windows.specs.Kept.{AreFiled, AreKept, load_of};
ghost use Rattle.windows.specs.Windows.{shown_of};

use lumos_base::Fixed;
use lumos_depot::{Depot, FileKind};
use partition::Parts;
use value_files::{FileFault, load_values, store_values};

// What a window shows of a part after iteration t: its values in memory where it is among the first `pinned`, else those
// that were brought into the window.
pub(crate) fn shown<'a, V>(
    parts: Parts,
    pinned: u32,
    part: u32,
    t: u32,
    window: &'a [V],
    even: &'a [V],
    odd: &'a [V],
) -> &'a [V]
    requires part { part < parts.parts }
    requires window_fits { part_length parts.vertices (chunk_of parts) part ≤ length window.now }
    requires even_fits { part < pinned → first_vertex parts.vertices (chunk_of parts) (part + 1) ≤ length even.now }
    requires odd_fits { part < pinned → first_vertex parts.vertices (chunk_of parts) (part + 1) ≤ length odd.now }
    ensures value { result.now ≡ shown_of parts pinned part t window.now even.now odd.now }
    ensures long { length result.now ≡ part_length parts.vertices (chunk_of parts) part }
{
    let range = parts.range_of(part);
    let first = range.first as usize;
    let past = range.past as usize;
    if part >= pinned {
        return &window[..past - first];
    }
    if t % 2 == 1 {
        return &odd[first..past];
    }
    &even[first..past]
}

// Fills the first places with the values of a part after iteration t in Values.
pub(crate) fn load_filed<V: Fixed + Copy, D: Depot>(
    depot: &mut D,
    parts: Parts,
    t: u32,
    part: u32,
    out: &mut [V],
) -> Result<(), FileFault>
    requires attached { IsSome (D.attached depot.old) }
    requires wide { 8 ≤ V.WIDTH }
    requires part { part < parts.parts }
    requires out_fits { part_length parts.vertices (chunk_of parts) part ≤ length out.old }
    requires sized { IfSome (D.holds depot.old FileKind.Values) (λ file. length file ≡ 2 * parts.vertices * V.WIDTH) }
    ensures values { (xs : List V) → AreFiled V.value_of V.WIDTH parts t part (D.holds depot.old FileKind.Values) xs
        → OnOk result (take (part_length parts.vertices (chunk_of parts) part) out.new ≡ xs) }
    ensures intact { (xs : List V) → AreFiled V.value_of V.WIDTH parts t part (D.holds depot.old FileKind.Values) xs → IfErr result IsIntact }
    ensures fault { IfSome (D.holds depot.old FileKind.Values) (λ file. FaultIs result (damage_at V.value_of V.WIDTH FileKind.Values
        (value_place V.WIDTH parts.vertices t (first_vertex parts.vertices (chunk_of parts) part)) (part_length parts.vertices (chunk_of parts) part) file)) }
    ensures broken { IfErr result (ShowsBroken V.value_of V.WIDTH FileKind.Values
        (value_place V.WIDTH parts.vertices t (first_vertex parts.vertices (chunk_of parts) part)) (part_length parts.vertices (chunk_of parts) part)) }
    ensures taken { OnOk result (RoseBy (D.taken depot.old FileKind.Values) (D.taken depot.new FileKind.Values) (V.WIDTH * part_length parts.vertices (chunk_of parts) part)) }
    ensures taken_most { D.taken depot.new FileKind.Values ≤ D.taken depot.old FileKind.Values + V.WIDTH * part_length parts.vertices (chunk_of parts) part }
    ensures reads { Reads D.holds D.taken D.stored D.faults D.attached FileKind.Values depot.old depot.new }
    ensures cause { result ≡ Err FileFault.Depot → Rose (D.faults depot.old) (D.faults depot.new) }
{
    let range = parts.range_of(part);
    let window = &mut out[..(range.past - range.first) as usize];
    load_values(depot, parts.vertices(), t, range, window)
}

// Brings the values of a part after iteration t into the first places of a window, from Values. Where the part is among the
// first `pinned` there is nothing to do, since the window shows where they lie in memory.
pub(crate) fn load_part<V: Fixed + Copy, D: Depot>(
    depot: &mut D,
    parts: Parts,
    pinned: u32,
    t: u32,
    part: u32,
    out: &mut [V],
) -> Result<(), FileFault>
    requires attached { IsSome (D.attached depot.old) }
    requires wide { 8 ≤ V.WIDTH }
    requires part { part < parts.parts }
    requires out_fits { part_length parts.vertices (chunk_of parts) part ≤ length out.old }
    requires sized { IfSome (D.holds depot.old FileKind.Values) (λ file. length file ≡ 2 * parts.vertices * V.WIDTH) }
    ensures values { (even odd xs : List V) → AreKept V.value_of V.WIDTH parts pinned t part even odd (D.holds depot.old FileKind.Values) xs
        → OnOk result (shown_of parts pinned part t out.new even odd ≡ xs) }
    ensures intact { (even odd xs : List V) → AreKept V.value_of V.WIDTH parts pinned t part even odd (D.holds depot.old FileKind.Values) xs
        → IfErr result IsIntact }
    ensures fault { pinned ≤ part → IfSome (D.holds depot.old FileKind.Values) (λ file. FaultIs result (damage_at V.value_of V.WIDTH FileKind.Values
        (value_place V.WIDTH parts.vertices t (first_vertex parts.vertices (chunk_of parts) part)) (part_length parts.vertices (chunk_of parts) part) file)) }
    ensures broken { IfErr result (ShowsBroken V.value_of V.WIDTH FileKind.Values
        (value_place V.WIDTH parts.vertices t (first_vertex parts.vertices (chunk_of parts) part)) (part_length parts.vertices (chunk_of parts) part)) }
    ensures untouched { part < pinned → depot.new ≡ depot.old }
    ensures in_memory { part < pinned → IsOk result }
    ensures taken { OnOk result (RoseBy (D.taken depot.old FileKind.Values) (D.taken depot.new FileKind.Values) (load_of parts V.WIDTH pinned part)) }
    ensures taken_most { D.taken depot.new FileKind.Values ≤ D.taken depot.old FileKind.Values + load_of parts V.WIDTH pinned part }
    ensures reads { Reads D.holds D.taken D.stored D.faults D.attached FileKind.Values depot.old depot.new }
    ensures cause { result ≡ Err FileFault.Depot → Rose (D.faults depot.old) (D.faults depot.new) }
{
    if part < pinned {
        return Ok(());
    }
    load_filed(depot, parts, t, part, out)
}

// Writes the values of a part after iteration t into Values.
pub(crate) fn store_filed<V: Fixed + Copy, D: Depot>(
    depot: &mut D,
    parts: Parts,
    t: u32,
    part: u32,
    values: &[V],
) -> Result<(), FileFault>
    requires attached { IsSome (D.attached depot.old) }
    requires wide { 8 ≤ V.WIDTH }
    requires part { part < parts.parts }
    requires values_fit { length values.now ≡ part_length parts.vertices (chunk_of parts) part }
    requires sized { IfSome (D.holds depot.old FileKind.Values) (λ file. length file ≡ 2 * parts.vertices * V.WIDTH) }
    ensures filed { IsSome (D.holds depot.old FileKind.Values) → OnOk result (AreFiled V.value_of V.WIDTH parts t part (D.holds depot.new FileKind.Values) values.now) }
    ensures outside { SameOutsideTold (value_place V.WIDTH parts.vertices t (first_vertex parts.vertices (chunk_of parts) part))
        (V.WIDTH * part_length parts.vertices (chunk_of parts) part) (D.holds depot.old FileKind.Values) (D.holds depot.new FileKind.Values) }
    ensures stored { OnOk result (RoseBy (D.stored depot.old FileKind.Values) (D.stored depot.new FileKind.Values) (V.WIDTH * part_length parts.vertices (chunk_of parts) part)) }
    ensures stored_most { D.stored depot.new FileKind.Values ≤ D.stored depot.old FileKind.Values + V.WIDTH * part_length parts.vertices (chunk_of parts) part }
    ensures stores { Stores D.holds D.taken D.stored D.faults D.attached FileKind.Values depot.old depot.new }
    ensures intact { IfErr result (λ fault. fault ≡ FileFault.Depot) }
    ensures cause { result ≡ Err FileFault.Depot → Rose (D.faults depot.old) (D.faults depot.new) }
{
    let range = parts.range_of(part);
    store_values(depot, parts.vertices(), t, range, values)
}
