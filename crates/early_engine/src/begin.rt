// The values at first, from what leads out of each vertex, and which parts are hot by them.
ghost use Rattle.std.specs.Prelude.{◌≡◌, ◌≤◌, ◌<◌, ◌+◌, ◌*◌, ℕ, false, List, Err, length, sum_by, IfErr, IfSome, IsSome, OnOk};
ghost use Rattle.std.specs.List.{list_any, range_with_len};
ghost use Rattle.active_sets.specs.Active.{hot_at};
ghost use Rattle.lumos_base.specs.declared.records.Edge.{Edge};
ghost use Rattle.lumos_depot.specs.Causes.{Rose};
ghost use Rattle.lumos_depot.specs.Steps.{Moves, RoseBy, Touches};
ghost use Rattle.lumos_depot.specs.declared.depot.FileKind.{FileKind};
ghost use Rattle.windows.specs.Kept.{load_bytes};
ghost use Rattle.windows.specs.Sums.{given_values};
ghost use Rattle.windows.specs.Windows.{IsSameRoom, chunk_count, chunk_first};
ghost use Rattle.grid_format.specs.Grid.{grid_head};
ghost use Rattle.early_engine.specs.Engines.{cut_in};
ghost use Rattle.early_engine.specs.Early.{AreHot};
ghost use Rattle.early_engine.specs.Files.{start_takes, stores_of};
ghost use Rattle.early_engine.specs.Grids.{FitsFiles, IsOnGrid};
ghost use Rattle.early_engine.specs.Reported.{IsOpening};
ghost use Rattle.early_engine.specs.Runs.{RoseAll, stored_first, taken_first};
ghost use Rattle.early_engine.specs.Shown.{KeepsAll};
ghost use Rattle.early_engine.specs.Starts.{StartComes, StartShows};

use crate::layout::Layout;
use crate::options::{RunFault, Show};
use crate::room::Room;
use crate::write::{fault_of_file, write_first};
use grid_format::GridInfo;
use lumos_base::Fixed;
use lumos_depot::{Depot, FileKind, Sink};
use lumos_law::VertexProgram;
use value_files::FileFault;
use windows::Coded;

// Sets the values at first of all parts and keeps them, and marks which parts are hot by them.
fn set_first<G: VertexProgram, D: Depot>(
    program: &G,
    layout: &Layout,
    depot: &mut D,
    room: &mut Room<G>,
) -> Result<(), FileFault>
    requires attached { IsSome (D.attached depot.old) }
    requires active_fits { room.old.active.parts ≡ layout.now.parts.parts }
    requires fits { FitsFiles ⟦<G as Coded>⟧.coding layout.now.parts layout.now.table room.old.windows (D.holds depot.old) }
    requires infos { IfSome (D.holds depot.old FileKind.Info) (λ file. length file ≡ 12 * layout.now.parts.vertices) }
    ensures some { 0 < layout.now.parts.parts }
    ensures active_fits { room.new.active.parts ≡ room.old.active.parts }
    ensures kept { IfSome (D.holds depot.old FileKind.Info) (λ file. OnOk result (KeepsAll ⟦<G as Coded>⟧.coding room.new.windows (D.holds depot.new) 0 (given_values (G.model program.now) file))) }
    ensures hot { IfSome (D.holds depot.old FileKind.Info) (λ file. OnOk result ((i : ℕ) → i < layout.now.parts.parts → hot_at room.new.active.was_hot i ≡ list_any (λ v. (G.model program.now).contributes (given_values (G.model program.now) file v))
        (range_with_len (chunk_first room.old.windows i) (chunk_count room.old.windows i)))) }
    ensures room { IsSameRoom room.old.windows room.new.windows }
    ensures fits { FitsFiles ⟦<G as Coded>⟧.coding layout.now.parts layout.now.table room.new.windows (D.holds depot.new) }
    ensures taken { OnOk result (RoseBy (D.taken depot.old FileKind.Info) (D.taken depot.new FileKind.Info) (12 * layout.now.parts.vertices)) }
    ensures stored { OnOk result (RoseBy (D.stored depot.old FileKind.Values) (D.stored depot.new FileKind.Values) (sum_by (load_bytes ⟦<G as Coded>⟧.coding room.old.windows) (range_with_len 0 layout.now.parts.parts))) }
    ensures moves { Moves D.holds D.taken D.stored D.faults D.attached FileKind.Info FileKind.Values depot.old depot.new }
    ensures intact { IfErr result (λ fault. fault ≡ FileFault.Depot) }
    ensures cause { result ≡ Err FileFault.Depot → Rose (D.faults depot.old) (D.faults depot.new) }
{
    for i in 0..layout.parts.parts() {
        match room.windows.set_initial(depot, program, i) {
            Ok(hot) => room.active.mark(i, hot),
            Err(fault) => return Err(fault),
        }
    }
    room.active.turn();
    Ok(())
}

// Sets the values at first and reports them.
pub(crate) fn make_start<G: VertexProgram, D: Depot, O: Sink>(
    program: &G,
    layout: &Layout,
    info: GridInfo,
    show: Show,
    depot: &mut D,
    out: &mut O,
    room: &mut Room<G>,
) -> Result<(), RunFault>
    requires attached { IsSome (D.attached depot.old) }
    requires cut { layout.now.parts ≡ cut_in info }
    requires active_fits { room.old.active.parts ≡ layout.now.parts.parts }
    requires fits { FitsFiles ⟦<G as Coded>⟧.coding layout.now.parts layout.now.table room.old.windows (D.holds depot.old) }
    requires infos { IfSome (D.holds depot.old FileKind.Info) (λ file. length file ≡ 12 * layout.now.parts.vertices) }
    ensures active_fits { room.new.active.parts ≡ room.old.active.parts }
    ensures told { (edges : List Edge) → IsOnGrid edges (cut_in info) layout.now.table (D.holds depot.old) → info ≡ grid_head edges info.vertices info.parts
        → StartComes ⟦<G as Coded>⟧.coding (G.model program.now) (G.name_text program.now) show edges (cut_in info) room.new.windows (D.holds depot.new) (O.written out.old) (O.written out.new) result }
    ensures hot { (edges : List Edge) → IsOnGrid edges (cut_in info) layout.now.table (D.holds depot.old) → OnOk result (AreHot (G.model program.now) edges (cut_in info) 0 room.new.active.was_hot) }
    ensures opened { OnOk result (IsOpening ⟦<G as Coded>⟧.coding (G.model program.now) (G.name_text program.now) show info room.new.windows (D.holds depot.new) (O.written out.old) (O.written out.new)) }
    ensures room { IsSameRoom room.old.windows room.new.windows }
    ensures fits { FitsFiles ⟦<G as Coded>⟧.coding layout.now.parts layout.now.table room.new.windows (D.holds depot.new) }
    ensures taken { OnOk result (RoseAll (D.taken depot.old) (D.taken depot.new) (taken_first (cut_in info) G.Value.WIDTH room.old.windows.pinned show)) }
    ensures stored { OnOk result (RoseAll (D.stored depot.old) (D.stored depot.new) (stored_first (cut_in info) G.Value.WIDTH room.old.windows.pinned)) }
    ensures shows { IfErr result (StartShows ⟦<G as Coded>⟧.coding room.old.windows) }
    ensures touches { Touches D.holds D.taken D.stored D.faults D.attached start_takes (stores_of false) depot.old depot.new }
    ensures depot { result ≡ Err RunFault.Depot → Rose (D.faults depot.old) (D.faults depot.new) }
    ensures later { O.faults out.old ≤ O.faults out.new }
    ensures out { result ≡ Err RunFault.Out → Rose (O.faults out.old) (O.faults out.new) }
{
    match set_first(program, layout, depot, room) {
        Ok(()) => write_first(program, layout, info, show, depot, out, &mut room.windows),
        Err(fault) => Err(fault_of_file(fault)),
    }
}
