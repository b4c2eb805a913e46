// One iteration over the blocks of a grid in its files, column by column.
ghost use Rattle.std.specs.Prelude.{◌≡◌, ◌≤◌, ◌<◌, ◌+◌, ◌-◌, ◌*◌, ◌++◌, [], ℕ, Bool, suc, false, true, cond, List, Err, IfErr, IfOk, IfSome, IsSome, MatchResult, OnOk};
ghost use Rattle.active_sets.specs.Active.{hot_at};
ghost use Rattle.lumos_base.specs.declared.records.Edge.{Edge};
ghost use Rattle.lumos_depot.specs.Causes.{Rose};
ghost use Rattle.lumos_depot.specs.Steps.{Reads, RoseBy, Stores, Touches};
ghost use Rattle.lumos_depot.specs.declared.depot.FileKind.{FileKind};
ghost use Rattle.lumos_law.specs.Sync.{values};
ghost use Rattle.lumos_report.specs.declared.records.Kind.{Kind};
ghost use Rattle.partition.specs.Blocks.{column};
ghost use Rattle.partition.specs.Parts.{chunk_of};
ghost use Rattle.value_files.specs.Records.{IsIntact};
ghost use Rattle.windows.specs.Kept.{Stays, StaysButSums, load_bytes};
ghost use Rattle.windows.specs.Sums.{HasNext, HasSums, StoresEarly};
ghost use Rattle.windows.specs.Windows.{IsSameRoom, IsSized, chunk_count};
ghost use Rattle.grid_format.specs.Tables.{edges_in_rows};
ghost use Rattle.early_engine.specs.Early.{IsKept, early_edges};
ghost use Rattle.early_engine.specs.Files.{stores_of, takes_of};
ghost use Rattle.early_engine.specs.Gone.{AreOf, Beside, HasGone, and_column, beside_of, sums_of_chunk};
ghost use Rattle.early_engine.specs.Grids.{FitsFiles, IsOfSums, IsOnGrid, bytes_in};
ghost use Rattle.early_engine.specs.Making.{IsMade, IsUnmade, StopShows};
ghost use Rattle.early_engine.specs.Passes.{Place, feeds_ahead, file_of, first_row, kind_of, of_secondary, passes, places};
ghost use Rattle.early_engine.specs.Steps.{AreEarly, IsMadeBelow, blocks_in};

use crate::column::feed_column;
use crate::kind::{feeds_ahead, kind_of};
use crate::layout::Layout;
use crate::options::RunOptions;
use crate::part::{Stop, close_part};
use crate::room::Room;
use io_account::Counts;
use lumos_base::Fixed;
use lumos_depot::{Depot, FileKind};
use lumos_law::VertexProgram;
use lumos_report::Kind;
use value_files::FileFault;
use windows::{Coded, Windows};

// Begins with the sums of part j: with those of nothing in a full iteration, and in a fed one with the early sums.
fn begin_sums<G: VertexProgram, D: Depot>(
    kind: Kind,
    j: u32,
    depot: &mut D,
    windows: &mut Windows<G>,
) -> Result<(), FileFault>
    requires attached { IsSome (D.attached depot.old) }
    requires column { j < windows.old.cut.parts }
    requires sized { IsSized ⟦<G as Coded>⟧.coding windows.old (D.holds depot.old) }
    ensures sums { (program : G) (edges : List Edge) (state : ℕ → G.Value)
        → (kind ≡ Kind.Fed → StoresEarly ⟦<G as Coded>⟧.coding (G.model program) windows.old (D.holds depot.old) j state (early_edges edges (chunk_of windows.old.cut) j))
        → OnOk result (HasSums (G.model program) windows.new j state (column edges (chunk_of windows.old.cut) j (first_row kind j))) }
    ensures next { (program : G) (state : ℕ → G.Value) → kind ≡ Kind.Full → HasNext (G.model program) windows.new j state [] }
    ensures alone { windows.new ≡ record windows.old { sums_part = j; sums = windows.new.sums; next_sums = windows.new.next_sums } }
    ensures stays { Stays ⟦<G as Coded>⟧.coding windows.old (D.holds depot.old) windows.new (D.holds depot.new) }
    ensures intact { (program : G) (edges : List Edge) (state : ℕ → G.Value)
        → (kind ≡ Kind.Fed → StoresEarly ⟦<G as Coded>⟧.coding (G.model program) windows.old (D.holds depot.old) j state (early_edges edges (chunk_of windows.old.cut) j)) → IfErr result IsIntact }
    ensures broken { IfErr result (IsOfSums ⟦<G as Coded>⟧.coding windows.old kind) }
    ensures taken { OnOk result (RoseBy (D.taken depot.old FileKind.Sums) (D.taken depot.new FileKind.Sums) (of_secondary kind (sums_of_chunk windows.old.cut G.Sum.WIDTH j))) }
    ensures reads { Reads D.holds D.taken D.stored D.faults D.attached FileKind.Sums depot.old depot.new }
    ensures full { kind ≡ Kind.Full → depot.new ≡ depot.old }
    ensures cause { result ≡ Err FileFault.Depot → Rose (D.faults depot.old) (D.faults depot.new) }
{
    match kind {
        Kind::Full => {
            windows.clear_sums(j);
            Ok(())
        }
        Kind::Fed => windows.load_early(depot, j),
    }
}

// Stores the early sums of part j, where an iteration feeds ahead.
fn leave_sums<G: VertexProgram, D: Depot>(
    ahead: bool,
    j: u32,
    depot: &mut D,
    windows: &mut Windows<G>,
) -> Result<(), FileFault>
    requires attached { IsSome (D.attached depot.old) }
    requires column { j ≡ windows.old.sums_part }
    requires sized { IsSized ⟦<G as Coded>⟧.coding windows.old (D.holds depot.old) }
    ensures stored_sums { IfSome (D.holds depot.old FileKind.Sums) (λ file. (program : G) (state : ℕ → G.Value) (edges : List Edge) → ahead ≡ true → HasNext (G.model program) windows.old j state edges
        → OnOk result (StoresEarly ⟦<G as Coded>⟧.coding (G.model program) windows.new (D.holds depot.new) j state edges)) }
    ensures same { windows.new ≡ windows.old }
    ensures stays { StaysButSums ⟦<G as Coded>⟧.coding j windows.old (D.holds depot.old) windows.new (D.holds depot.new) }
    ensures sized { IsSized ⟦<G as Coded>⟧.coding windows.new (D.holds depot.new) }
    ensures intact { IfErr result (λ fault. fault ≡ FileFault.Depot) }
    ensures stored { OnOk result (RoseBy (D.stored depot.old FileKind.Sums) (D.stored depot.new FileKind.Sums) (cond ahead (sums_of_chunk windows.old.cut G.Sum.WIDTH j) 0)) }
    ensures stores { Stores D.holds D.taken D.stored D.faults D.attached FileKind.Sums depot.old depot.new }
    ensures idle { ahead ≡ false → depot.new ≡ depot.old }
    ensures cause { result ≡ Err FileFault.Depot → Rose (D.faults depot.old) (D.faults depot.new) }
{
    if ahead {
        return windows.store_early(depot, j);
    }
    Ok(())
}

// Makes the values of part j after iteration t: its sums by the blocks of its column, and its close. Where the iteration
// feeds ahead, it leaves the early sums of the part for the next one. The parts below j are made. It counts the blocks of the
// column and the values that moved.
fn make_column<G: VertexProgram, D: Depot>(
    program: &G,
    layout: &Layout,
    kind: Kind,
    ahead: bool,
    t: u32,
    j: u32,
    depot: &mut D,
    room: &mut Room<G>,
    counts: &mut Counts,
) -> Result<(), Stop>
    requires attached { IsSome (D.attached depot.old) }
    requires some { 0 < t }
    requires column { j < layout.now.parts.parts }
    requires kinds { ahead ≡ true → kind ≡ Kind.Full }
    requires active_fits { room.old.active.parts ≡ layout.now.parts.parts }
    requires fits { FitsFiles ⟦<G as Coded>⟧.coding layout.now.parts layout.now.table room.old.windows (D.holds depot.old) }
    requires few { blocks_in counts.old ≤ 65280 }
    requires few_moved { counts.old.moved ≤ 268435456 }
    ensures active_fits { room.new.active.parts ≡ room.old.active.parts }
    ensures was_hot { room.new.active.was_hot ≡ room.old.active.was_hot }
    ensures marked { (i : ℕ) → i < j → hot_at room.new.active.is_hot i ≡ hot_at room.old.active.is_hot i }
    ensures few { blocks_in counts.new ≤ blocks_in counts.old + 256 }
    ensures few_moved { counts.new.moved ≤ counts.old.moved + chunk_count room.old.windows j }
    ensures made { (edges : List Edge) (u : ℕ) → IsOnGrid edges layout.now.parts layout.now.table (D.holds depot.old) → t ≡ suc u
        → IsMadeBelow ⟦<G as Coded>⟧.coding (G.model program.now) edges layout.now.parts j u room.old.windows (D.holds depot.old) room.old.active.was_hot room.old.active.is_hot counts.old.moved
        → AreEarly ⟦<G as Coded>⟧.coding (G.model program.now) edges layout.now.parts kind ahead j u room.old.windows (D.holds depot.old)
        → MatchResult result (λ done. IsMadeBelow ⟦<G as Coded>⟧.coding (G.model program.now) edges layout.now.parts (j + 1) u room.new.windows (D.holds depot.new) room.new.active.was_hot room.new.active.is_hot counts.new.moved)
        (IsUnmade (G.model program.now) edges layout.now.parts u) }
    ensures early { (edges : List Edge) (u : ℕ) → IsOnGrid edges layout.now.parts layout.now.table (D.holds depot.old) → t ≡ suc u
        → IsMadeBelow ⟦<G as Coded>⟧.coding (G.model program.now) edges layout.now.parts j u room.old.windows (D.holds depot.old) room.old.active.was_hot room.old.active.is_hot counts.old.moved
        → AreEarly ⟦<G as Coded>⟧.coding (G.model program.now) edges layout.now.parts kind ahead j u room.old.windows (D.holds depot.old)
        → OnOk result (AreEarly ⟦<G as Coded>⟧.coding (G.model program.now) edges layout.now.parts kind ahead (j + 1) u room.new.windows (D.holds depot.new)) }
    ensures room { IsSameRoom room.old.windows room.new.windows }
    ensures fits { FitsFiles ⟦<G as Coded>⟧.coding layout.now.parts layout.now.table room.new.windows (D.holds depot.new) }
    ensures gone { (size : Place → ℕ) (need : Place → Bool) (loads : Place → ℕ) (bs : List Place) (beside : Beside) (taken stored : FileKind → ℕ)
        → ((i : ℕ) → i < layout.now.parts.parts → AreOf layout.now.table (load_bytes ⟦<G as Coded>⟧.coding room.old.windows) room.old.active.was_hot room.old.active.is_hot ahead size need loads i j)
        → HasGone kind size need loads bs beside taken stored (D.taken depot.old) (D.stored depot.old) counts.old
        → OnOk result (HasGone kind size need loads (bs ++ places kind layout.now.parts.parts j)
        (and_column kind ahead (load_bytes ⟦<G as Coded>⟧.coding room.old.windows j) (sums_of_chunk room.old.windows.cut G.Sum.WIDTH j) beside) taken stored (D.taken depot.new) (D.stored depot.new) counts.new) }
    ensures stop { IfErr result (StopShows G.Value.is_in_range G.Sum.is_in_range ⟦<G as Coded>⟧.coding (G.model program.now) room.old.windows kind layout.now.table) }
    ensures most { D.taken depot.new (file_of kind) ≤ D.taken depot.old (file_of kind) + 12 * edges_in_rows layout.now.table j (first_row kind j) (layout.now.parts.parts - first_row kind j) }
    ensures touches { Touches D.holds D.taken D.stored D.faults D.attached (takes_of kind) (stores_of ahead) depot.old depot.new }
    ensures cause { result ≡ Err (Stop.File FileFault.Depot) → Rose (D.faults depot.old) (D.faults depot.new) }
{
    match begin_sums(kind, j, depot, &mut room.windows) {
        Ok(()) => {}
        Err(fault) => return Err(Stop::File(fault)),
    }
    let active = &room.active;
    match feed_column(
        program,
        layout,
        kind,
        ahead,
        t,
        j,
        active,
        depot,
        &mut room.windows,
        counts,
    ) {
        Ok(()) => {}
        Err(fault) => return Err(Stop::File(fault)),
    }
    match close_part(program, layout, t, j, depot, room, counts) {
        Ok(()) => {}
        Err(stop) => return Err(stop),
    }
    match leave_sums(ahead, j, depot, &mut room.windows) {
        Ok(()) => Ok(()),
        Err(fault) => Err(Stop::File(fault)),
    }
}

// Makes iteration t of a run: the values after it of those before it, and, where it feeds ahead, the early sums of the next
// iteration. It marks which parts are hot in it, counts its blocks and the values that moved, and stops at the first vertex
// that is over.
pub(crate) fn iterate<G: VertexProgram, D: Depot>(
    program: &G,
    layout: &Layout,
    options: RunOptions,
    t: u32,
    depot: &mut D,
    room: &mut Room<G>,
) -> Result<Counts, Stop>
    requires attached { IsSome (D.attached depot.old) }
    requires some { 0 < t }
    requires few { t ≤ options.iterations }
    requires active_fits { room.old.active.parts ≡ layout.now.parts.parts }
    requires fits { FitsFiles ⟦<G as Coded>⟧.coding layout.now.parts layout.now.table room.old.windows (D.holds depot.old) }
    ensures some { 0 < layout.now.parts.parts }
    ensures active_fits { room.new.active.parts ≡ room.old.active.parts }
    ensures was_hot { room.new.active.was_hot ≡ room.old.active.was_hot }
    ensures made { (edges : List Edge) (u : ℕ) → IsOnGrid edges layout.now.parts layout.now.table (D.holds depot.old) → t ≡ suc u
        → IsKept ⟦<G as Coded>⟧.coding (G.model program.now) edges layout.now.parts options.mode options.iterations u room.old.windows (D.holds depot.old) room.old.active.was_hot
        → MatchResult result (IsMade (G.model program.now) ⟦<G as Coded>⟧.coding edges layout.now.parts options.mode options.iterations u room.new.windows (D.holds depot.new) room.new.active.is_hot)
        (IsUnmade (G.model program.now) edges layout.now.parts u) }
    ensures room { IsSameRoom room.old.windows room.new.windows }
    ensures fits { FitsFiles ⟦<G as Coded>⟧.coding layout.now.parts layout.now.table room.new.windows (D.holds depot.new) }
    ensures gone { (size : Place → ℕ) (need : Place → Bool) (loads : Place → ℕ)
        → ((i j : ℕ) → i < layout.now.parts.parts → j < layout.now.parts.parts
        → AreOf layout.now.table (load_bytes ⟦<G as Coded>⟧.coding room.old.windows) room.old.active.was_hot room.new.active.is_hot (feeds_ahead options.mode options.iterations t) size need loads i j)
        → IfOk result (HasGone (kind_of options.mode t) size need loads (passes (kind_of options.mode t) layout.now.parts.parts)
        (beside_of layout.now.parts G.Value.WIDTH G.Sum.WIDTH room.old.windows.pinned (kind_of options.mode t) (feeds_ahead options.mode options.iterations t) layout.now.parts.parts)
        (D.taken depot.old) (D.stored depot.old) (D.taken depot.new) (D.stored depot.new)) }
    ensures stop { IfErr result (StopShows G.Value.is_in_range G.Sum.is_in_range ⟦<G as Coded>⟧.coding (G.model program.now) room.old.windows (kind_of options.mode t) layout.now.table) }
    ensures most { D.taken depot.new (file_of (kind_of options.mode t)) ≤ D.taken depot.old (file_of (kind_of options.mode t)) + bytes_in (kind_of options.mode t) layout.now.table }
    ensures touches { Touches D.holds D.taken D.stored D.faults D.attached (takes_of (kind_of options.mode t)) (stores_of (feeds_ahead options.mode options.iterations t)) depot.old depot.new }
    ensures cause { result ≡ Err (Stop.File FileFault.Depot) → Rose (D.faults depot.old) (D.faults depot.new) }
{
    let kind = kind_of(options.mode, t);
    let ahead = feeds_ahead(options.mode, options.iterations, t);
    let mut counts = Counts::zero();
    for j in 0..layout.parts.parts() {
        match make_column(program, layout, kind, ahead, t, j, depot, room, &mut counts) {
            Ok(()) => {}
            Err(stop) => return Err(stop),
        }
    }
    Ok(counts)
}
