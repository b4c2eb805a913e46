// An iteration that is made and reported.
ghost use Rattle.std.specs.Prelude.{◌≡◌, ◌≤◌, ◌<◌, ◌+◌, ◌-◌, ◌≢◌, ℕ, Bool, suc, List, Ok, Err, IfErr, IfOk, IsSome, MatchResult, OnOk};
ghost use Rattle.lumos_base.specs.declared.records.Edge.{Edge};
ghost use Rattle.lumos_depot.specs.Causes.{Rose};
ghost use Rattle.lumos_depot.specs.Steps.{Touches};
ghost use Rattle.lumos_law.specs.Sync.{ending, ending_from};
ghost use Rattle.windows.specs.Kept.{load_bytes};
ghost use Rattle.windows.specs.Windows.{IsSameRoom};
ghost use Rattle.early_engine.specs.Early.{IsKept};
ghost use Rattle.early_engine.specs.Files.{stores_of, takes_of};
ghost use Rattle.early_engine.specs.Gone.{AreOf, HasGone, HasPassed, IsTallied, and_shown, beside_of};
ghost use Rattle.early_engine.specs.Grids.{FitsFiles, IsOnGrid, bytes_in};
ghost use Rattle.early_engine.specs.Making.{IsMade, IsUnmade, StopShows};
ghost use Rattle.early_engine.specs.Passes.{Place, feeds_ahead, file_of, kind_of, passes};
ghost use Rattle.early_engine.specs.Reported.{TurnReports};
ghost use Rattle.early_engine.specs.Runs.{RoseAll, loose_bytes, shown_bytes, stored_in, taken_in};
ghost use Rattle.early_engine.specs.Turns.{RunShows, TurnComes, fault_of};

use crate::iteration::iterate;
use crate::kind::kind_of;
use crate::layout::Layout;
use crate::options::{RunFault, RunOptions, Turn};
use crate::part::Stop;
use crate::room::Room;
use crate::write::{fault_of_file, write_turn};
use io_account::Counts;
use lumos_base::Fixed;
use lumos_depot::{Depot, Sink};
use lumos_law::VertexProgram;
use value_files::FileFault;
use windows::Coded;

// Makes iteration t, and turns to the parts that are hot after it.
fn advance<G: VertexProgram, D: Depot>(
    program: &G,
    layout: &Layout,
    options: RunOptions,
    t: u32,
    depot: &mut D,
    room: &mut Room<G>,
) -> Result<Counts, Stop>
    requires attached { IsSome (D.attached depot.old) }
    requires some { 0 < t }
    requires few { t ≤ options.iterations }
    requires active_fits { room.old.active.parts ≡ layout.now.parts.parts }
    requires fits { FitsFiles ⟦<G as Coded>⟧.coding layout.now.parts layout.now.table room.old.windows (D.holds depot.old) }
    ensures some { 0 < layout.now.parts.parts }
    ensures active_fits { room.new.active.parts ≡ room.old.active.parts }
    ensures made { (edges : List Edge) (u : ℕ) → IsOnGrid edges layout.now.parts layout.now.table (D.holds depot.old) → t ≡ suc u
        → IsKept ⟦<G as Coded>⟧.coding (G.model program.now) edges layout.now.parts options.mode options.iterations u room.old.windows (D.holds depot.old) room.old.active.was_hot
        → MatchResult result (IsMade (G.model program.now) ⟦<G as Coded>⟧.coding edges layout.now.parts options.mode options.iterations u room.new.windows (D.holds depot.new) room.new.active.was_hot)
        (IsUnmade (G.model program.now) edges layout.now.parts u) }
    ensures room { IsSameRoom room.old.windows room.new.windows }
    ensures fits { FitsFiles ⟦<G as Coded>⟧.coding layout.now.parts layout.now.table room.new.windows (D.holds depot.new) }
    ensures gone { (size : Place → ℕ) (need : Place → Bool) (loads : Place → ℕ)
        → ((i j : ℕ) → i < layout.now.parts.parts → j < layout.now.parts.parts
        → AreOf layout.now.table (load_bytes ⟦<G as Coded>⟧.coding room.old.windows) room.old.active.was_hot room.new.active.was_hot (feeds_ahead options.mode options.iterations t) size need loads i j)
        → IfOk result (HasGone (kind_of options.mode t) size need loads (passes (kind_of options.mode t) layout.now.parts.parts)
        (beside_of layout.now.parts G.Value.WIDTH G.Sum.WIDTH room.old.windows.pinned (kind_of options.mode t) (feeds_ahead options.mode options.iterations t) layout.now.parts.parts)
        (D.taken depot.old) (D.stored depot.old) (D.taken depot.new) (D.stored depot.new)) }
    ensures stop { IfErr result (StopShows G.Value.is_in_range G.Sum.is_in_range ⟦<G as Coded>⟧.coding (G.model program.now) room.old.windows (kind_of options.mode t) layout.now.table) }
    ensures most { D.taken depot.new (file_of (kind_of options.mode t)) ≤ D.taken depot.old (file_of (kind_of options.mode t)) + bytes_in (kind_of options.mode t) layout.now.table }
    ensures touches { Touches D.holds D.taken D.stored D.faults D.attached (takes_of (kind_of options.mode t)) (stores_of (feeds_ahead options.mode options.iterations t)) depot.old depot.new }
    ensures cause { result ≡ Err (Stop.File FileFault.Depot) → Rose (D.faults depot.old) (D.faults depot.new) }
{
    match iterate(program, layout, options, t, depot, room) {
        Ok(counts) => {
            room.active.turn();
            Ok(counts)
        }
        Err(stop) => Err(stop),
    }
}

// Why a run stops where iteration t isn't made.
fn fault_of(t: u32, stop: Stop) -> RunFault
    ensures { result ≡ fault_of t stop }
{
    match stop {
        Stop::File(fault) => fault_of_file(fault),
        Stop::Over(vertex) => RunFault::Range {
            iteration: t,
            vertex: vertex.0,
        },
    }
}

// Makes iteration t of a run and reports it.
pub(crate) fn make_turn<G: VertexProgram, D: Depot, O: Sink>(
    program: &G,
    layout: &Layout,
    options: RunOptions,
    t: u32,
    depot: &mut D,
    out: &mut O,
    room: &mut Room<G>,
) -> Result<Turn, RunFault>
    requires attached { IsSome (D.attached depot.old) }
    requires some { 0 < t }
    requires few { t ≤ options.iterations }
    requires active_fits { room.old.active.parts ≡ layout.now.parts.parts }
    requires fits { FitsFiles ⟦<G as Coded>⟧.coding layout.now.parts layout.now.table room.old.windows (D.holds depot.old) }
    ensures active_fits { room.new.active.parts ≡ room.old.active.parts }
    ensures told { (edges : List Edge) (u : ℕ) → IsOnGrid edges layout.now.parts layout.now.table (D.holds depot.old)
        → IsKept ⟦<G as Coded>⟧.coding (G.model program.now) edges layout.now.parts options.mode options.iterations u room.old.windows (D.holds depot.old) room.old.active.was_hot
        → t ≡ suc u → u < options.iterations
        → ending (G.model program.now) edges layout.now.parts.vertices options.iterations
        ≡ ending_from (G.model program.now) edges layout.now.parts.vertices (options.iterations - u) u
        → TurnComes (G.model program.now) options.show options.mode edges layout.now.parts options.iterations u ⟦<G as Coded>⟧.coding
        room.new.windows (D.holds depot.new) room.new.active.was_hot (O.written out.old) (O.written out.new) result }
    ensures reported { TurnReports ⟦<G as Coded>⟧.coding (G.model program.now) options.show options.mode options.iterations layout.now.parts.vertices
        (λ u. HasPassed options.mode options.iterations layout.now.table (load_bytes ⟦<G as Coded>⟧.coding room.old.windows) room.old.active.was_hot room.new.active.was_hot u
        (and_shown (shown_bytes options.show (loose_bytes layout.now.parts G.Value.WIDTH room.old.windows.pinned))
        (beside_of layout.now.parts G.Value.WIDTH G.Sum.WIDTH room.old.windows.pinned (kind_of options.mode t) (feeds_ahead options.mode options.iterations t) layout.now.parts.parts))
        (D.taken depot.old) (D.stored depot.old) (D.taken depot.new) (D.stored depot.new)) (IsTallied options.mode layout.now.table) t room.new.windows (D.holds depot.new) (O.written out.old) (O.written out.new) result }
    ensures going { result ≡ Ok Turn.Going → t ≢ options.iterations }
    ensures taken { (edges : List Edge) (u : ℕ) → IsOnGrid edges layout.now.parts layout.now.table (D.holds depot.old) → t ≡ suc u
        → IsKept ⟦<G as Coded>⟧.coding (G.model program.now) edges layout.now.parts options.mode options.iterations u room.old.windows (D.holds depot.old) room.old.active.was_hot
        → OnOk result (RoseAll (D.taken depot.old) (D.taken depot.new)
        (taken_in layout.now.parts G.Value.WIDTH G.Sum.WIDTH room.old.windows.pinned (G.model program.now) edges options.show options.mode options.iterations t)) }
    ensures stored { OnOk result (RoseAll (D.stored depot.old) (D.stored depot.new) (stored_in layout.now.parts G.Value.WIDTH G.Sum.WIDTH room.old.windows.pinned options.mode options.iterations t)) }
    ensures room { IsSameRoom room.old.windows room.new.windows }
    ensures fits { FitsFiles ⟦<G as Coded>⟧.coding layout.now.parts layout.now.table room.new.windows (D.holds depot.new) }
    ensures shows { IfErr result (RunShows G.Value.is_in_range G.Sum.is_in_range ⟦<G as Coded>⟧.coding (G.model program.now) room.old.windows options.mode layout.now.table t) }
    ensures most { D.taken depot.new (file_of (kind_of options.mode t)) ≤ D.taken depot.old (file_of (kind_of options.mode t)) + bytes_in (kind_of options.mode t) layout.now.table }
    ensures touches { Touches D.holds D.taken D.stored D.faults D.attached (takes_of (kind_of options.mode t)) (stores_of (feeds_ahead options.mode options.iterations t)) depot.old depot.new }
    ensures depot { result ≡ Err RunFault.Depot → Rose (D.faults depot.old) (D.faults depot.new) }
    ensures later { O.faults out.old ≤ O.faults out.new }
    ensures out { result ≡ Err RunFault.Out → Rose (O.faults out.old) (O.faults out.new) }
{
    let counts = match advance(program, layout, options, t, depot, room) {
        Ok(counts) => counts,
        Err(stop) => return Err(fault_of(t, stop)),
    };
    let kind = kind_of(options.mode, t);
    let windows = &mut room.windows;
    write_turn(
        program, layout, options, t, kind, &counts, depot, out, windows,
    )
}
