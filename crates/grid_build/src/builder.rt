// The builder.
ghost use Rattle.std.specs.Prelude.{◌≡◌, ◌≢◌, ◌≤◌, ◌<◌, ◌*◌, ℕ, List, [], length, sum, IfErr, IfOk, IfSome, IsErrOf, IsSome, OnOk, Err, Some};
ghost use Rattle.lumos_base.specs.declared.records.Edge.{Edge};
ghost use Rattle.lumos_depot.specs.Causes.{Rose};
ghost use Rattle.lumos_depot.specs.Files.{HasDepotCause, Same, SameBut};
ghost use Rattle.lumos_depot.specs.declared.depot.FileKind.{FileKind};
ghost use Rattle.partition.specs.Parts.{chunk_of};
ghost use Rattle.grid_format.specs.Grid.{grid};
ghost use Rattle.grid_format.specs.Heads.{IsHead, meta_bytes};
ghost use Rattle.grid_build.specs.Built.{HasBuilt, HasFiles, StoresGrid, fault_of};
ghost use Rattle.grid_build.specs.Chosen.{MayChoose, parts_for};
ghost use Rattle.grid_build.specs.Copied.{CopiesAll, low_total_of};
ghost use Rattle.grid_build.specs.Growing.{GrowsBy, StopsAt};
ghost use Rattle.grid_build.specs.Outside.{LeavesRuns};
ghost use Rattle.lumos_depot.specs.Steps.{RoseBy};
ghost use Rattle.grid_build.specs.Passes.{IsSpool};
ghost use Rattle.grid_build.specs.Steps.{AreFilled, AreSized, IsCounted, IsListed};

use crate::columns::low_total;
use crate::copying::copy_low;
use crate::counts::count_blocks;
use crate::sorting::distribute;
use crate::spool::spool_list;
use crate::tallies::write_info;
use crate::{BuildFault, BuildOptions, PartsChoice};
use grid_format::{GridInfo, write_meta};
use lumos_depot::{Depot, DepotFault, FileKind, Source};
use partition::{Parts, least_parts};
use std::alloc::Global;

// Gives a file of the grid its length.
fn size_file<D: Depot>(depot: &mut D, kind: FileKind, size: u64) -> Result<(), DepotFault>
    requires attached { IsSome (D.attached depot.old) }
    requires no_values { kind ≢ FileKind.Values }
    requires no_sums { kind ≢ FileKind.Sums }
    ensures size { OnOk result (IfSome (D.holds depot.new kind) (λ file. length file ≡ size)) }
    ensures contents { SameBut kind (D.holds depot.old) (D.holds depot.new) }
    ensures taken { Same (D.taken depot.old) (D.taken depot.new) }
    ensures stored { Same (D.stored depot.old) (D.stored depot.new) }
    ensures leaves { LeavesRuns D.holds D.taken D.stored D.faults D.attached depot.old depot.new }
    ensures cause { HasDepotCause (D.faults depot.old) (D.faults depot.new) result }
{
    depot.resize(kind, size)
}

// Gives Primary, Secondary and Info the lengths for so many vertices, edges, and edges on the diagonal and below it.
fn size_files<D: Depot>(
    depot: &mut D,
    vertices: u32,
    count: u64,
    low: u64,
) -> Result<(), DepotFault>
    requires attached { IsSome (D.attached depot.old) }
    requires few { count ≤ 2147483648 }
    requires fewer { low ≤ count }
    requires empty { IfSome (D.holds depot.old FileKind.Meta) (λ file. file ≡ []) }
    ensures sized { OnOk result (AreSized vertices count low (D.holds depot.new)) }
    ensures spool { D.holds depot.new FileKind.Spool ≡ D.holds depot.old FileKind.Spool }
    ensures taken { Same (D.taken depot.old) (D.taken depot.new) }
    ensures stored { Same (D.stored depot.old) (D.stored depot.new) }
    ensures leaves { LeavesRuns D.holds D.taken D.stored D.faults D.attached depot.old depot.new }
    ensures cause { HasDepotCause (D.faults depot.old) (D.faults depot.new) result }
{
    size_file(depot, FileKind::Primary, 12 * count)?;
    size_file(depot, FileKind::Secondary, 12 * low)?;
    size_file(depot, FileKind::Info, 12 * u64::from(vertices))
}

// Empties Meta, counts the blocks, and gives the other files of the grid their lengths.
fn prepare<D: Depot>(
    alloc: Global,
    depot: &mut D,
    parts: Parts,
    count: u64,
) -> Result<Vec<u64>, DepotFault>
    requires attached { IsSome (D.attached depot.old) }
    requires few { count ≤ 2147483648 }
    requires some { 0 < count → 0 < parts.vertices }
    requires spool { IfSome (D.holds depot.old FileKind.Spool) (λ file. length file ≡ 12 * count) }
    ensures counts { IfOk result (λ counts. IsCounted parts count (D.holds depot.old FileKind.Spool) counts.items) }
    ensures sized { IfOk result (λ counts. AreSized parts.vertices count (low_total_of parts counts.items) (D.holds depot.new)) }
    ensures spool { D.holds depot.new FileKind.Spool ≡ D.holds depot.old FileKind.Spool }
    ensures taken { SameBut FileKind.Spool (D.taken depot.old) (D.taken depot.new) }
    ensures stored { Same (D.stored depot.old) (D.stored depot.new) }
    ensures leaves { LeavesRuns D.holds D.taken D.stored D.faults D.attached depot.old depot.new }
    ensures cause { HasDepotCause (D.faults depot.old) (D.faults depot.new) result }
{
    size_file(depot, FileKind::Meta, 0)?;
    let counts = count_blocks(alloc, depot, parts, count)?;
    let low = low_total(parts, &counts);
    size_files(depot, parts.vertices(), count, low)?;
    Ok(counts)
}

// Writes Primary, Secondary and Info, which have their lengths, from the edges in Spool.
fn fill<D: Depot>(
    alloc: Global,
    depot: &mut D,
    parts: Parts,
    count: u64,
    counts: &[u64],
) -> Result<(), DepotFault>
    requires attached { IsSome (D.attached depot.old) }
    requires few { count ≤ 2147483648 }
    requires some { 0 < count → 0 < parts.vertices }
    requires spool { IfSome (D.holds depot.old FileKind.Spool) (λ file. IsListed parts.vertices count (Some file)) }
    requires counts { IsCounted parts count (D.holds depot.old FileKind.Spool) counts.now }
    requires sized { AreSized parts.vertices count (low_total_of parts counts.now) (D.holds depot.old) }
    ensures filled { OnOk result ((list : List Edge) → IsSpool parts.vertices (D.holds depot.old FileKind.Spool) list → length list ≡ count
        → AreFilled parts list (D.holds depot.new)) }
    ensures empty { OnOk result (IfSome (D.holds depot.new FileKind.Meta) (λ file. file ≡ [])) }
    ensures spool { D.stored depot.new FileKind.Spool ≡ D.stored depot.old FileKind.Spool }
    ensures meta { D.stored depot.new FileKind.Meta ≡ D.stored depot.old FileKind.Meta }
    ensures stored { OnOk result (RoseBy (D.stored depot.old FileKind.Primary) (D.stored depot.new FileKind.Primary) (12 * count)) }
    ensures copied { OnOk result (CopiesAll count (D.taken depot.old) (D.taken depot.new) (D.stored depot.old) (D.stored depot.new) (D.holds depot.new FileKind.Secondary)) }
    ensures leaves { LeavesRuns D.holds D.taken D.stored D.faults D.attached depot.old depot.new }
    ensures cause { HasDepotCause (D.faults depot.old) (D.faults depot.new) result }
{
    distribute(alloc, depot, parts, count, counts)?;
    copy_low(depot, parts, counts)?;
    write_info(alloc, depot, parts.vertices(), count)
}

// Empties Spool, and writes Meta.
fn complete<D: Depot>(depot: &mut D, info: GridInfo, counts: &[u64]) -> Result<(), DepotFault>
    requires attached { IsSome (D.attached depot.old) }
    requires head { IsHead info }
    requires blocks { length counts.now ≡ info.parts * info.parts }
    requires whole { sum counts.now ≡ info.edges }
    requires empty { IfSome (D.holds depot.old FileKind.Meta) (λ file. file ≡ []) }
    ensures meta { OnOk result (IfSome (D.holds depot.new FileKind.Meta) (λ file. file ≡ meta_bytes info counts.now)) }
    ensures spool { OnOk result (IfSome (D.holds depot.new FileKind.Spool) (λ file. file ≡ [])) }
    ensures primary { D.holds depot.new FileKind.Primary ≡ D.holds depot.old FileKind.Primary }
    ensures secondary { D.holds depot.new FileKind.Secondary ≡ D.holds depot.old FileKind.Secondary }
    ensures info { D.holds depot.new FileKind.Info ≡ D.holds depot.old FileKind.Info }
    ensures taken { Same (D.taken depot.old) (D.taken depot.new) }
    ensures stored { SameBut FileKind.Meta (D.stored depot.old) (D.stored depot.new) }
    ensures memory { IsErrOf result DepotFault.NoMemory → D.stored depot.new FileKind.Meta ≡ D.stored depot.old FileKind.Meta }
    ensures leaves { LeavesRuns D.holds D.taken D.stored D.faults D.attached depot.old depot.new }
    ensures cause { HasDepotCause (D.faults depot.old) (D.faults depot.new) result }
{
    size_file(depot, FileKind::Spool, 0)?;
    write_meta(depot, info, counts)
}

// Builds the grid of the edges in Spool, so many, and empties Spool.
fn write_grid<D: Depot>(
    alloc: Global,
    depot: &mut D,
    parts: Parts,
    count: u64,
) -> Result<GridInfo, DepotFault>
    requires attached { IsSome (D.attached depot.old) }
    requires few { count ≤ 2147483648 }
    requires some { 0 < count → 0 < parts.vertices }
    requires spool { IfSome (D.holds depot.old FileKind.Spool) (λ file. IsListed parts.vertices count (Some file)) }
    ensures head { IfOk result (λ info. info ≡ record { version = 1; parts = parts.parts; vertices = parts.vertices; edges = count }) }
    ensures files { IfOk result (λ _. (list : List Edge) → IsSpool parts.vertices (D.holds depot.old FileKind.Spool) list → length list ≡ count
        → HasFiles (grid list parts.vertices parts.parts) (D.holds depot.old) (D.holds depot.new)) }
    ensures spool { D.stored depot.new FileKind.Spool ≡ D.stored depot.old FileKind.Spool }
    ensures memory { IsErrOf result DepotFault.NoMemory → D.stored depot.new FileKind.Meta ≡ D.stored depot.old FileKind.Meta }
    ensures stored { IfOk result (λ _. RoseBy (D.stored depot.old FileKind.Primary) (D.stored depot.new FileKind.Primary) (12 * count)) }
    ensures copied { IfOk result (λ info. CopiesAll info.edges (D.taken depot.old) (D.taken depot.new) (D.stored depot.old) (D.stored depot.new) (D.holds depot.new FileKind.Secondary)) }
    ensures leaves { LeavesRuns D.holds D.taken D.stored D.faults D.attached depot.old depot.new }
    ensures cause { HasDepotCause (D.faults depot.old) (D.faults depot.new) result }
{
    let counts = prepare(alloc, depot, parts, count)?;
    fill(alloc, depot, parts, count, &counts)?;
    let info = GridInfo {
        version: 1,
        parts: parts.parts(),
        vertices: parts.vertices(),
        edges: count,
    };
    complete(depot, info, &counts)?;
    Ok(info)
}

// So many vertices in so many parts, within the limits of a grid.
fn cut(vertices: u32, parts: u32) -> Parts
    requires some_parts { 0 < parts }
    requires few_parts { parts ≤ 256 }
    requires few_vertices { vertices ≤ 268435456 }
    ensures { result ≡ record { vertices = vertices; parts = parts } }
{
    let Ok(cut) = Parts::new(vertices, parts) else {
        unreachable!()
    };
    cut
}

// The parts that so many vertices get by what was chosen.
fn choose_parts(choice: PartsChoice, vertices: u32) -> Result<u32, BuildFault>
    requires choice { MayChoose choice }
    requires few_vertices { vertices ≤ 268435456 }
    ensures value { result ≡ parts_for choice vertices }
    ensures some { IfOk result (λ parts. 0 < parts) }
    ensures few { IfOk result (λ parts. parts ≤ 256) }
{
    match choice {
        PartsChoice::Stated(parts) => Ok(parts),
        PartsChoice::Fitted { per_vertex, budget } => {
            match least_parts(vertices, per_vertex, budget, 16) {
                Some(parts) => Ok(parts),
                None => Err(BuildFault::BudgetTooSmall {
                    need: u64::from(cut(vertices, 256).chunk()) * per_vertex,
                    given: budget,
                }),
            }
        }
    }
}

// A fault of the depot, as one of the builder.
fn depot_fault(fault: DepotFault) -> BuildFault
    ensures { result ≡ fault_of fault }
{
    match fault {
        DepotFault::Failed => BuildFault::Depot,
        DepotFault::NoMemory => BuildFault::NoMemory,
    }
}

/// Builds in the attached directory the grid of the edge list of a source, over as many parts as were chosen, and answers
/// its head. The limits of the text are those of `EdgeReader::new`. The grid is GridGraph's, its files are our own.
///
/// The list goes into Spool in the order of the input, to its end; then the number of parts is known. Where it is to fit
/// a budget, it is the least from 16 to 256 that does. Then Meta is cut to length 0, the blocks are counted, the other
/// files get their lengths, the edges are sorted into their blocks in Primary, the blocks on the diagonal and below it are
/// copied into Secondary, what leads out of each vertex is tallied, Spool is emptied, and Meta is written, its first eight
/// bytes last. The copy is the only reading of Primary: it takes as many bytes there as it stores in Secondary. At most 12
/// bytes are stored in Spool for each edge of the text that was taken.
///
/// - `Input`, `TooManyEdges`, `InputTooLong`: exactly where the text has that fault, which the last piece of at most 65536
///   bytes that was taken shows. The grid that was there stays.
/// - `Read`: only where the source's count of faults rose, and where no line that was taken is faulty. The grid that was
///   there stays.
/// - `Depot`: only where the depot's count of faults rose.
/// - `NoMemory` is want of memory, and comes before anything is stored in Meta.
/// - `BudgetTooSmall`: exactly where the parts are to fit a budget, the list was read to its end, and no number from 16 to
///   256 fits; with what 256 parts need, and the budget. Spool has the list's edges, and the grid that was there stays.
///
/// Over a depot that tells nothing the grid is that of the edges that were read back; an end that isn't among the
/// vertices counts as the last of them. The copy goes by the blocks that were counted, and stays inside both files.
pub fn build<I: Source, D: Depot>(
    alloc: Global,
    input: &mut I,
    depot: &mut D,
    options: &BuildOptions,
) -> Result<GridInfo, BuildFault>
    requires attached { IsSome (D.attached depot.old) }
    requires choice { MayChoose options.now.parts }
    requires vertex { options.now.limits.max_vertex ≤ 268435455 }
    requires vertices { IfSome options.now.limits.vertices (λ vertices. vertices ≤ 268435456) }
    requires edges { options.now.limits.max_edges ≤ 2147483648 }
    requires bytes { options.now.limits.max_bytes ≤ 1099511627776 }
    ensures grid { HasBuilt options.now.limits options.now.parts (I.left input.old) (I.left input.new) (D.holds depot.old) (D.holds depot.new) result }
    ensures version { IfOk result (λ info. info.version ≡ 1) }
    ensures limits { IfOk result IsHead }
    ensures memory { IsErrOf result BuildFault.NoMemory → D.stored depot.new FileKind.Meta ≡ D.stored depot.old FileKind.Meta }
    ensures spooled { GrowsBy options.now.limits (I.left input.old) (I.left input.new) (D.stored depot.old FileKind.Spool) (D.stored depot.new FileKind.Spool) }
    ensures stops { IfErr result (StopsAt options.now.limits (I.left input.old) (I.left input.new)) }
    ensures stored { IfOk result (λ info. StoresGrid info.edges (D.stored depot.old) (D.stored depot.new)) }
    ensures copied { IfOk result (λ info. CopiesAll info.edges (D.taken depot.old) (D.taken depot.new) (D.stored depot.old) (D.stored depot.new) (D.holds depot.new FileKind.Secondary)) }
    ensures leaves { LeavesRuns D.holds D.taken D.stored D.faults D.attached depot.old depot.new }
    ensures later { I.faults input.old ≤ I.faults input.new }
    ensures read { result ≡ Err BuildFault.Read → Rose (I.faults input.old) (I.faults input.new) }
    ensures failed { result ≡ Err BuildFault.Depot → Rose (D.faults depot.old) (D.faults depot.new) }
{
    if let Err(fault) = size_file(depot, FileKind::Spool, 0) {
        return Err(depot_fault(fault));
    }
    let spooled = match spool_list(alloc, options.limits, input, depot) {
        Ok(spooled) => spooled,
        Err(fault) => return Err(fault),
    };
    let parts = match choose_parts(options.parts, spooled.vertices) {
        Ok(parts) => parts,
        Err(unfit) => return Err(unfit),
    };
    match write_grid(alloc, depot, cut(spooled.vertices, parts), spooled.edges) {
        Ok(info) => Ok(info),
        Err(fault) => Err(depot_fault(fault)),
    }
}
