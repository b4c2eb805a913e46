// The parts of an engine, made from the head of a grid.
ghost use Rattle.std.specs.Prelude.{◌≡◌, ◌≤◌, ◌*◌, true, List, All, Ok, Err, length, sum, IfErr, IfOk, IfSome, IsSome, OnOk};
ghost use Rattle.lumos_base.specs.Records.{IsEdge};
ghost use Rattle.lumos_base.specs.declared.records.Edge.{Edge};
ghost use Rattle.lumos_depot.specs.Causes.{Rose};
ghost use Rattle.lumos_depot.specs.Files.{Same};
ghost use Rattle.lumos_depot.specs.Steps.{Reads, Stores, Touches};
ghost use Rattle.lumos_depot.specs.declared.depot.FileKind.{FileKind};
ghost use Rattle.grid_format.specs.Checks.{GridFiles, head_of};
ghost use Rattle.grid_format.specs.Grid.{HasGrid, grid, grid_head};
ghost use Rattle.grid_format.specs.Heads.{IsHead};
ghost use Rattle.grid_format.specs.Outside.{Holds};
ghost use Rattle.windows.specs.Budget.{need_of, pinned_of};
ghost use Rattle.windows.specs.Windows.{IsSized};
ghost use Rattle.early_engine.specs.Engines.{cut_in};
ghost use Rattle.early_engine.specs.Files.{open_takes, stores_of, takes_none};
ghost use Rattle.early_engine.specs.Grids.{FitsFiles, HasBlocks, IsOnGrid};
ghost use Rattle.early_engine.specs.Opens.{IsFromDepot, IsTooSmall, OpenShows, TableShows, fault_made, fault_opened};

use crate::layout::Layout;
use crate::options::OpenFault;
use grid_format::{BlockTable, GridInfo, TableFault, grids_are_read};
use lumos_base::Fixed;
use lumos_depot::{Depot, DepotFault, FileKind};
use lumos_law::VertexProgram;
use partition::Parts;
use std::alloc::Global;
use windows::{Coded, WindowFault, Windows};

/// How a grid lies, and the windows over it.
#[derive(Drop)]
pub(crate) struct Opened<G: VertexProgram> {
    pub(crate) layout: Layout,
    pub(crate) windows: Windows<G>,
}

// Why an engine isn't opened where the table isn't read.
fn fault_opened(fault: TableFault) -> OpenFault
    ensures { result ≡ fault_opened fault }
{
    match fault {
        TableFault::Depot => OpenFault::Depot,
        TableFault::Damaged { place, found } => OpenFault::Damaged {
            file: FileKind::Meta,
            place,
            found,
        },
        TableFault::NoMemory => OpenFault::NoMemory,
    }
}

// How the vertices of a grid with this head are cut.
fn parts_of(info: GridInfo) -> Parts
    requires head { IsHead info }
    ensures { result ≡ cut_in info }
{
    match Parts::new(info.vertices, info.parts) {
        Ok(parts) => parts,
        Err(_) => unreachable!(),
    }
}

// Why an engine isn't opened where its windows aren't made.
fn fault_made(fault: WindowFault) -> OpenFault
    ensures { result ≡ fault_made fault }
{
    match fault {
        WindowFault::BudgetTooSmall { need, given } => OpenFault::BudgetTooSmall { need, given },
        WindowFault::NoMemory => OpenFault::NoMemory,
    }
}

// How a grid with this head lies.
fn read_layout<D: Depot>(
    alloc: Global,
    depot: &mut D,
    info: GridInfo,
    parts: Parts,
) -> Result<Layout, OpenFault>
    requires attached { IsSome (D.attached depot.old) }
    requires head { IsHead info }
    requires cut { parts ≡ cut_in info }
    requires accepted { (files : GridFiles) → Holds (D.holds depot.old) files → head_of files ≡ Ok info }
    ensures cut { IfOk result (λ layout. layout.parts ≡ parts) }
    ensures parts { IfOk result (λ layout. layout.table.parts ≡ info.parts) }
    ensures blocks { IfOk result (λ layout. length layout.table.counts ≡ info.parts * info.parts) }
    ensures whole { IfOk result (λ layout. sum layout.table.counts ≡ info.edges) }
    ensures blocks_fit { IfOk result (λ layout. HasBlocks layout.table (D.holds depot.new)) }
    ensures told { (edges : List Edge) → All IsEdge edges → HasGrid edges info.vertices info.parts → Holds (D.holds depot.old) (grid edges info.vertices info.parts)
        → IfOk result (λ layout. IsOnGrid edges (cut_in info) layout.table (D.holds depot.new)) }
    ensures head { (edges : List Edge) → HasGrid edges info.vertices info.parts → Holds (D.holds depot.old) (grid edges info.vertices info.parts)
        → info ≡ grid_head edges info.vertices info.parts }
    ensures damaged { IfErr result (TableShows info (D.holds depot.old FileKind.Meta)) }
    ensures depot { result ≡ Err OpenFault.Depot → Rose (D.faults depot.old) (D.faults depot.new) }
    ensures reads { Reads D.holds D.taken D.stored D.faults D.attached FileKind.Meta depot.old depot.new }
{
    grids_are_read();
    match BlockTable::read(alloc, depot, info) {
        Ok(table) => Ok(Layout { parts, table }),
        Err(fault) => Err(fault_opened(fault)),
    }
}

// Cuts a file to a length, or extends it to that length.
fn size_file<D: Depot>(depot: &mut D, kind: FileKind, size: u64) -> Result<(), OpenFault>
    requires attached { IsSome (D.attached depot.old) }
    ensures sized { OnOk result (IfSome (D.holds depot.new kind) (λ file. length file ≡ size)) }
    ensures outside { IfErr result IsFromDepot }
    ensures stores { Stores D.holds D.taken D.stored D.faults D.attached kind depot.old depot.new }
    ensures counted { Same (D.stored depot.old) (D.stored depot.new) }
    ensures depot { result ≡ Err OpenFault.Depot → Rose (D.faults depot.old) (D.faults depot.new) }
{
    match depot.resize(kind, size) {
        Ok(()) => Ok(()),
        Err(DepotFault::Failed) => Err(OpenFault::Depot),
        Err(DepotFault::NoMemory) => Err(OpenFault::NoMemory),
    }
}

// Makes Values and Sums as long as the vertices need: two values for each, and one sum.
fn size_files<G: VertexProgram, D: Depot>(
    depot: &mut D,
    windows: &Windows<G>,
    vertices: u32,
) -> Result<(), OpenFault>
    requires attached { IsSome (D.attached depot.old) }
    requires vertices { vertices ≡ windows.now.cut.vertices }
    requires few { vertices ≤ 268435456 }
    ensures sized { OnOk result (IsSized ⟦<G as Coded>⟧.coding windows.now (D.holds depot.new)) }
    ensures outside { IfErr result IsFromDepot }
    ensures touches { Touches D.holds D.taken D.stored D.faults D.attached takes_none (stores_of true) depot.old depot.new }
    ensures counted { Same (D.stored depot.old) (D.stored depot.new) }
    ensures depot { result ≡ Err OpenFault.Depot → Rose (D.faults depot.old) (D.faults depot.new) }
{
    let values = 2 * u64::from(vertices) * G::Value::WIDTH as u64;
    match size_file(depot, FileKind::Values, values) {
        Ok(()) => size_file(
            depot,
            FileKind::Sums,
            u64::from(vertices) * G::Sum::WIDTH as u64,
        ),
        Err(fault) => Err(fault),
    }
}

// Makes the windows of an engine, reads how its grid lies, and makes Values and Sums as long as they have to be.
pub(crate) fn open_parts<G: VertexProgram, D: Depot>(
    alloc: Global,
    depot: &mut D,
    info: GridInfo,
    program: &G,
    budget: u64,
) -> Result<Opened<G>, OpenFault>
    requires attached { IsSome (D.attached depot.old) }
    requires head { IsHead info }
    requires accepted { (files : GridFiles) → Holds (D.holds depot.old) files → head_of files ≡ Ok info }
    ensures cut { IfOk result (λ opened. opened.layout.parts ≡ cut_in info) }
    ensures whole { IfOk result (λ opened. sum opened.layout.table.counts ≡ info.edges) }
    ensures fits { IfOk result (λ opened. FitsFiles ⟦<G as Coded>⟧.coding opened.layout.parts opened.layout.table opened.windows (D.holds depot.new)) }
    ensures budget { IfOk result (λ opened. opened.windows.budget ≡ budget) }
    ensures pinned { IfOk result (λ opened. opened.windows.pinned ≡ pinned_of (cut_in info) G.Value.WIDTH G.Sum.WIDTH budget) }
    ensures enough { IfOk result (λ opened. need_of (cut_in info) G.Value.WIDTH G.Sum.WIDTH ≤ budget) }
    ensures told { (edges : List Edge) → All IsEdge edges → HasGrid edges info.vertices info.parts → Holds (D.holds depot.old) (grid edges info.vertices info.parts)
        → IfOk result (λ opened. IsOnGrid edges (cut_in info) opened.layout.table (D.holds depot.new) × (info ≡ grid_head edges info.vertices info.parts)) }
    ensures shows { IfErr result (OpenShows info G.Value.WIDTH G.Sum.WIDTH budget (D.holds depot.old FileKind.Meta)) }
    ensures untouched { IfErr result (λ fault. IsTooSmall fault → depot.new ≡ depot.old) }
    ensures depot { result ≡ Err OpenFault.Depot → Rose (D.faults depot.old) (D.faults depot.new) }
    ensures touches { Touches D.holds D.taken D.stored D.faults D.attached open_takes (stores_of true) depot.old depot.new }
    ensures counted { Same (D.stored depot.old) (D.stored depot.new) }
{
    let parts = parts_of(info);
    let windows = match Windows::new(alloc, program, parts, budget) {
        Ok(windows) => windows,
        Err(fault) => return Err(fault_made(fault)),
    };
    let layout = match read_layout(alloc, depot, info, parts) {
        Ok(layout) => layout,
        Err(fault) => return Err(fault),
    };
    match size_files(depot, &windows, info.vertices) {
        Ok(()) => Ok(Opened { layout, windows }),
        Err(fault) => Err(fault),
    }
}
