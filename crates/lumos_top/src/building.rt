// A grid that is built.
ghost use Rattle.std.specs.Prelude.{◌≡◌, ◌≤◌, ◌<◌, ℕ, length, Err, IfOk, IfSome, IsErrOf, OnOk, None, Some};
ghost use Rattle.lumos_depot.specs.Causes.{Rose};
ghost use Rattle.lumos_depot.specs.declared.depot.FileKind.{FileKind};
ghost use Rattle.lumos_depot.specs.Steps.{RoseBy};
ghost use Rattle.grid_build.specs.Built.{HasBuilt};
ghost use Rattle.grid_build.specs.Chosen.{MayChoose};
ghost use Rattle.grid_format.specs.Heads.{IsHead};
ghost use Rattle.lumos_words.specs.Fits.{GridFits};
ghost use Rattle.lumos_top.specs.Answers.{built_on, stated_parts};
ghost use Rattle.lumos_top.specs.Building.{BuildStops, TextFits};
ghost use Rattle.lumos_top.specs.Ends.{HasCauses, HasDone};
ghost use Rattle.lumos_top.specs.Report.{grid_line};
ghost use Rattle.lumos_top.specs.Sides.{IsAttached, LeavesRuns, sides};

use crate::status::{Completed, Outside, Refusal, Stop};
use edge_text::{TextFault, TextLimits};
use grid_build::{BuildFault, BuildOptions, PartsChoice, build};
use grid_format::GridInfo;
use lumos_base::Line;
use lumos_depot::{Depot, DepotFault, Failed, Sink, Source};
use lumos_words::BuildWords;
use std::alloc::Global;

// The bytes of memory that a build may take for its pool of chains.
const BUDGET: u64 = 1073741824;

/// Over how many parts a grid is built: as many as the words state, or 16.
pub fn parts_of(grid: &BuildWords) -> u64
    ensures { result ≡ stated_parts grid.now }
{
    grid.parts.unwrap_or(16)
}

/// The same, where they aren't too many.
pub fn few_parts(grid: &BuildWords) -> u32
    requires { stated_parts grid.now ≤ 256 }
    ensures { result ≡ stated_parts grid.now }
{
    parts_of(grid) as u32
}

// The line of a grid that was built.
#[tactic(auto, unfolding(crate::specs::Report::grid_line))]
fn grid_text(info: GridInfo) -> Line
    ensures { result ≡ grid_line info.vertices info.edges info.parts }
{
    let mut line = Line::new();
    line.push_text("grid vertices ");
    line.push_number(u64::from(info.vertices));
    line.push_text(" edges ");
    line.push_number(info.edges);
    line.push_text(" parts ");
    line.push_number(u64::from(info.parts));
    line.push_text("\n");
    line
}

/// Why a command stops where its grid isn't built.
pub fn build_stop(fault: BuildFault) -> Stop
    ensures { BuildStops fault result }
{
    match fault {
        BuildFault::Input(faulty) => Stop::Refused(Refusal::Text(TextFault::Input(faulty))),
        BuildFault::TooManyEdges { limit } => {
            Stop::Refused(Refusal::Text(TextFault::TooManyEdges { limit }))
        }
        BuildFault::InputTooLong { limit } => {
            Stop::Refused(Refusal::Text(TextFault::InputTooLong { limit }))
        }
        BuildFault::BudgetTooSmall { need, given } => {
            Stop::Refused(Refusal::BudgetTooSmall { need, given })
        }
        BuildFault::Read => Stop::Outside(Outside::Read),
        BuildFault::Depot => Stop::Outside(Outside::Depot),
        BuildFault::NoMemory => Stop::Outside(Outside::Memory),
    }
}

/// Attaches a directory, and builds in it the grid of a list that is read within the limits of its text, over as many parts as
/// are chosen. Where the files are told, it takes of Primary as many bytes as Secondary then has, which it copies.
///
/// Its faults are those of `build`, and `Depot` and `NoMemory` of the directory that isn't attached.
pub fn build_files<I: Source, D: Depot>(
    alloc: Global,
    path: &str,
    parts: PartsChoice,
    text: TextLimits,
    input: &mut I,
    depot: &mut D,
) -> Result<GridInfo, BuildFault>
    requires free { D.attached depot.old ≡ None }
    requires parts { MayChoose parts }
    requires text { TextFits text }
    ensures built { HasBuilt text parts (I.left input.old) (I.left input.new) (D.holds depot.old) (D.holds depot.new) result }
    ensures memory { IsErrOf result BuildFault.NoMemory → D.stored depot.new FileKind.Meta ≡ D.stored depot.old FileKind.Meta }
    ensures limits { IfOk result IsHead }
    ensures copied { OnOk result (IfSome (D.holds depot.new FileKind.Secondary) (λ file. RoseBy (D.taken depot.old FileKind.Primary) (D.taken depot.new FileKind.Primary) (length file))) }
    ensures unread { D.taken depot.new FileKind.Secondary ≡ D.taken depot.old FileKind.Secondary }
    ensures leaves { LeavesRuns D.holds D.taken D.stored depot.old depot.new }
    ensures attached { IsAttached (Some path.now) (D.attached depot.new) (result ≡ Err BuildFault.NoMemory) (result ≡ Err BuildFault.Depot) }
    ensures input_later { I.faults input.old ≤ I.faults input.new }
    ensures depot_later { D.faults depot.old ≤ D.faults depot.new }
    ensures read { result ≡ Err BuildFault.Read → Rose (I.faults input.old) (I.faults input.new) }
    ensures depot { result ≡ Err BuildFault.Depot → Rose (D.faults depot.old) (D.faults depot.new) }
{
    match depot.attach(path) {
        Ok(()) => {}
        Err(fault) => {
            return Err(match fault {
                DepotFault::Failed => BuildFault::Depot,
                DepotFault::NoMemory => BuildFault::NoMemory,
            });
        }
    }
    let options = BuildOptions {
        parts,
        limits: text,
        budget: BUDGET,
    };
    build(alloc, input, depot, &options)
}

/// Attaches the directory of the words, builds in it the grid of a list that is read within the limits of its text, over as
/// many parts as they state, or 16, and writes its line.
///
/// It is refused by `Text` exactly where the input has that fault. It stops by `Read`, `Depot` and `Write` only where the
/// faults of the input, the depot and `out` rose, and by `Memory` for no cause of its own.
pub fn build_grid<I: Source, D: Depot, O: Sink>(
    alloc: Global,
    grid: &BuildWords,
    text: TextLimits,
    input: &mut I,
    depot: &mut D,
    out: &mut O,
) -> Result<Completed, Stop>
    requires free { D.attached depot.old ≡ None }
    requires grid { GridFits grid.now }
    requires parts { stated_parts grid.now ≤ 256 }
    requires text { TextFits text }
    ensures done { HasDone (built_on grid.now) text (sides I.left D.holds D.taken D.stored O.written input.old input.new depot.old depot.new out.old out.new) result }
    ensures leaves { LeavesRuns D.holds D.taken D.stored depot.old depot.new }
    ensures attached { IsAttached (Some grid.now.dir) (D.attached depot.new) (result ≡ Err (Stop.Outside Outside.Memory)) (result ≡ Err (Stop.Outside Outside.Depot)) }
    ensures causes { HasCauses I.faults D.faults O.faults input.old input.new depot.old depot.new out.old out.new result }
{
    let parts = PartsChoice::Stated(few_parts(grid));
    let info = match build_files(alloc, grid.dir.text(), parts, text, input, depot) {
        Ok(info) => info,
        Err(fault) => return Err(build_stop(fault)),
    };
    match out.write_all(grid_text(info).bytes()) {
        Ok(()) => Ok(Completed::Build),
        Err(_) => Err(Stop::Outside(Outside::Write)),
    }
}
