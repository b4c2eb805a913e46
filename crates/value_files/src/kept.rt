// The values and the sums of vertices in their files.
ghost use Rattle.std.specs.Prelude.{◌≡◌, ◌≤◌, ◌<◌, ◌+◌, ◌-◌, ◌*◌, ◌^◌, ℕ, All, Err, flat_map, length, IfErr, IfSome, IsSome, OnOk};
ghost use Rattle.std.specs.Option.{option_map};
ghost use Rattle.lumos_depot.specs.Causes.{Rose};
ghost use Rattle.lumos_depot.specs.Files.{SameOutsideTold, overwritten};
ghost use Rattle.lumos_depot.specs.declared.depot.FileKind.{FileKind};
ghost use Rattle.lumos_depot.specs.Steps.{Reads, RoseBy, Stores};
ghost use Rattle.value_files.specs.Kept.{sum_place, value_place};
ghost use Rattle.value_files.specs.Records.{AreRecords, FaultIs, ShowsBroken, damage_at};

use crate::FileFault;
use crate::reads::read_values;
use crate::writes::write_values;
use lumos_base::Fixed;
use lumos_depot::{Depot, FileKind};
use partition::VertexRange;

// Where the values of a range of the vertices after iteration t stand.
fn value_place<V: Fixed>(vertices: u32, t: u32, range: VertexRange) -> u64
    requires { range.past ≤ vertices }
    ensures value { result ≡ value_place V.WIDTH vertices t range.first }
    ensures inside { range.first ≤ range.past → result + V.WIDTH * (range.past - range.first) ≤ 2 * vertices * V.WIDTH }
    ensures far { result < 2 ^ 48 }
{
    (u64::from(t % 2) * u64::from(vertices) + u64::from(range.first)) * V::WIDTH as u64
}

// Where the sums of a range of the vertices stand.
fn sum_place<S: Fixed>(range: VertexRange) -> u64
    ensures value { result ≡ sum_place S.WIDTH range.first }
    ensures inside { range.first ≤ range.past → result + S.WIDTH * (range.past - range.first) ≤ range.past * S.WIDTH }
    ensures far { result < 2 ^ 48 }
{
    u64::from(range.first) * S::WIDTH as u64
}

/// Fills the places with the values after iteration t of a range of the vertices, from the file Values. That has two records
/// for each vertex, first those of even iterations and then those of odd ones, so that a value stands where that of the
/// iteration before the last stood. The layout is our own.
///
/// The width of a value has to be at least 8, the range has to lie among the vertices, and there has to be a place for each
/// vertex of it. It needs an attached directory and, where the contents are told, a file of exactly two records for each
/// vertex. It takes the bytes of the range's records, and never more. It takes no memory and changes no file.
///
/// `Damaged` comes exactly where a record of the range stands for no value: it carries the place of the first one, and the
/// number in its last eight bytes. `Depot` comes only where the depot's count of faults rose. After both it is left open
/// what the places hold.
pub fn load_values<V: Fixed + Copy, D: Depot>(
    depot: &mut D,
    vertices: u32,
    t: u32,
    range: VertexRange,
    out: &mut [V],
) -> Result<(), FileFault>
    requires attached { IsSome (D.attached depot.old) }
    requires wide { 8 ≤ V.WIDTH }
    requires places { range.first + length out.old ≡ range.past }
    requires among { range.past ≤ vertices }
    requires sized { IfSome (D.holds depot.old FileKind.Values) (λ file. length file ≡ 2 * vertices * V.WIDTH) }
    ensures values { OnOk result (IfSome (D.holds depot.old FileKind.Values) (AreRecords V.value_of V.WIDTH (value_place V.WIDTH vertices t range.first) out.new)) }
    ensures fault { IfSome (D.holds depot.old FileKind.Values) (λ file. FaultIs result (damage_at V.value_of V.WIDTH FileKind.Values (value_place V.WIDTH vertices t range.first) (length out.old) file)) }
    ensures broken { IfErr result (ShowsBroken V.value_of V.WIDTH FileKind.Values (value_place V.WIDTH vertices t range.first) (length out.old)) }
    ensures taken { OnOk result (RoseBy (D.taken depot.old FileKind.Values) (D.taken depot.new FileKind.Values) (V.WIDTH * length out.old)) }
    ensures most { D.taken depot.new FileKind.Values ≤ D.taken depot.old FileKind.Values + V.WIDTH * length out.old }
    ensures reads { Reads D.holds D.taken D.stored D.faults D.attached FileKind.Values depot.old depot.new }
    ensures cause { result ≡ Err FileFault.Depot → Rose (D.faults depot.old) (D.faults depot.new) }
{
    let from = value_place::<V>(vertices, t, range);
    read_values(depot, FileKind::Values, from, out)
}

/// Writes the values after iteration t of a range of the vertices into Values, over those of the iteration before the last.
/// The range, the values and the file have to be as for `load_values`, and the layout is the one told there. It stores the
/// bytes of the range's records, and never more. Whatever is answered, no record of another vertex or of the iteration before
/// changes, nor the file's length. It takes no memory.
///
/// `Depot` comes only where the depot's count of faults rose, and leaves open what the range's own records hold; `Damaged`
/// never comes.
pub fn store_values<V: Fixed + Copy, D: Depot>(
    depot: &mut D,
    vertices: u32,
    t: u32,
    range: VertexRange,
    values: &[V],
) -> Result<(), FileFault>
    requires attached { IsSome (D.attached depot.old) }
    requires wide { 8 ≤ V.WIDTH }
    requires places { range.first + length values.now ≡ range.past }
    requires among { range.past ≤ vertices }
    requires sized { IfSome (D.holds depot.old FileKind.Values) (λ file. length file ≡ 2 * vertices * V.WIDTH) }
    ensures written { OnOk result (D.holds depot.new FileKind.Values
        ≡ option_map (overwritten (value_place V.WIDTH vertices t range.first) (flat_map V.bytes_of values.now)) (D.holds depot.old FileKind.Values)) }
    ensures in_range { OnOk result (All V.is_in_range values.now) }
    ensures reads_back { OnOk result (IfSome (D.holds depot.new FileKind.Values) (AreRecords V.value_of V.WIDTH (value_place V.WIDTH vertices t range.first) values.now)) }
    ensures outside { SameOutsideTold (value_place V.WIDTH vertices t range.first) (V.WIDTH * length values.now) (D.holds depot.old FileKind.Values) (D.holds depot.new FileKind.Values) }
    ensures stored { OnOk result (RoseBy (D.stored depot.old FileKind.Values) (D.stored depot.new FileKind.Values) (V.WIDTH * length values.now)) }
    ensures most { D.stored depot.new FileKind.Values ≤ D.stored depot.old FileKind.Values + V.WIDTH * length values.now }
    ensures stores { Stores D.holds D.taken D.stored D.faults D.attached FileKind.Values depot.old depot.new }
    ensures intact { IfErr result (λ fault. fault ≡ FileFault.Depot) }
    ensures cause { result ≡ Err FileFault.Depot → Rose (D.faults depot.old) (D.faults depot.new) }
{
    let into = value_place::<V>(vertices, t, range);
    match write_values(depot, FileKind::Values, into, values) {
        Ok(()) => Ok(()),
        Err(_) => Err(FileFault::Depot),
    }
}

/// Fills the places with the sums of a range of the vertices, from the file Sums, which has one record for each vertex. The
/// layout is our own.
///
/// The width of a sum has to be at least 8, and there has to be a place for each vertex of the range. It needs an attached
/// directory and, where the contents are told, a file that has the records of the range. It takes the bytes of these records,
/// and never more. It takes no memory and changes no file.
///
/// `Damaged` comes exactly where a record of the range stands for no sum: it carries the place of the first one, and the
/// number in its last eight bytes. `Depot` comes only where the depot's count of faults rose. After both it is left open
/// what the places hold.
pub fn load_sums<S: Fixed + Copy, D: Depot>(
    depot: &mut D,
    range: VertexRange,
    out: &mut [S],
) -> Result<(), FileFault>
    requires attached { IsSome (D.attached depot.old) }
    requires wide { 8 ≤ S.WIDTH }
    requires places { range.first + length out.old ≡ range.past }
    requires sized { IfSome (D.holds depot.old FileKind.Sums) (λ file. range.past * S.WIDTH ≤ length file) }
    ensures sums { OnOk result (IfSome (D.holds depot.old FileKind.Sums) (AreRecords S.value_of S.WIDTH (sum_place S.WIDTH range.first) out.new)) }
    ensures fault { IfSome (D.holds depot.old FileKind.Sums) (λ file. FaultIs result (damage_at S.value_of S.WIDTH FileKind.Sums (sum_place S.WIDTH range.first) (length out.old) file)) }
    ensures broken { IfErr result (ShowsBroken S.value_of S.WIDTH FileKind.Sums (sum_place S.WIDTH range.first) (length out.old)) }
    ensures taken { OnOk result (RoseBy (D.taken depot.old FileKind.Sums) (D.taken depot.new FileKind.Sums) (S.WIDTH * length out.old)) }
    ensures most { D.taken depot.new FileKind.Sums ≤ D.taken depot.old FileKind.Sums + S.WIDTH * length out.old }
    ensures reads { Reads D.holds D.taken D.stored D.faults D.attached FileKind.Sums depot.old depot.new }
    ensures cause { result ≡ Err FileFault.Depot → Rose (D.faults depot.old) (D.faults depot.new) }
{
    let from = sum_place::<S>(range);
    read_values(depot, FileKind::Sums, from, out)
}

/// Writes the sums of a range of the vertices into Sums, over those that stood there. The range, the sums and the file have to
/// be as for `load_sums`, and the layout is the one told there. It stores the bytes of the range's records, and never more.
/// Whatever is answered, no record of another vertex changes, nor the file's length. It takes no memory.
///
/// `Depot` comes only where the depot's count of faults rose, and leaves open what the range's own records hold; `Damaged`
/// never comes.
pub fn store_sums<S: Fixed + Copy, D: Depot>(
    depot: &mut D,
    range: VertexRange,
    sums: &[S],
) -> Result<(), FileFault>
    requires attached { IsSome (D.attached depot.old) }
    requires wide { 8 ≤ S.WIDTH }
    requires places { range.first + length sums.now ≡ range.past }
    requires sized { IfSome (D.holds depot.old FileKind.Sums) (λ file. range.past * S.WIDTH ≤ length file) }
    ensures written { OnOk result (D.holds depot.new FileKind.Sums
        ≡ option_map (overwritten (sum_place S.WIDTH range.first) (flat_map S.bytes_of sums.now)) (D.holds depot.old FileKind.Sums)) }
    ensures in_range { OnOk result (All S.is_in_range sums.now) }
    ensures reads_back { OnOk result (IfSome (D.holds depot.new FileKind.Sums) (AreRecords S.value_of S.WIDTH (sum_place S.WIDTH range.first) sums.now)) }
    ensures outside { SameOutsideTold (sum_place S.WIDTH range.first) (S.WIDTH * length sums.now) (D.holds depot.old FileKind.Sums) (D.holds depot.new FileKind.Sums) }
    ensures stored { OnOk result (RoseBy (D.stored depot.old FileKind.Sums) (D.stored depot.new FileKind.Sums) (S.WIDTH * length sums.now)) }
    ensures most { D.stored depot.new FileKind.Sums ≤ D.stored depot.old FileKind.Sums + S.WIDTH * length sums.now }
    ensures stores { Stores D.holds D.taken D.stored D.faults D.attached FileKind.Sums depot.old depot.new }
    ensures intact { IfErr result (λ fault. fault ≡ FileFault.Depot) }
    ensures cause { result ≡ Err FileFault.Depot → Rose (D.faults depot.old) (D.faults depot.new) }
{
    let into = sum_place::<S>(range);
    match write_values(depot, FileKind::Sums, into, sums) {
        Ok(()) => Ok(()),
        Err(_) => Err(FileFault::Depot),
    }
}
