// The close of a column: the values of a part, made of its sums.
ghost use Rattle.std.specs.Prelude.{◌≡◌, ◌≤◌, ◌<◌, ◌+◌, ◌*◌, ℕ, Bool, suc, List, Err, IfErr, IsSome, MatchResult, OnOk};
ghost use Rattle.active_sets.specs.Active.{hot_at};
ghost use Rattle.lumos_base.specs.declared.records.Edge.{Edge};
ghost use Rattle.lumos_depot.specs.Causes.{Rose};
ghost use Rattle.lumos_depot.specs.Steps.{Moves};
ghost use Rattle.lumos_depot.specs.declared.depot.FileKind.{FileKind};
ghost use Rattle.lumos_law.specs.Sync.{values};
ghost use Rattle.lumos_report.specs.declared.records.Kind.{Kind};
ghost use Rattle.partition.specs.Blocks.{column};
ghost use Rattle.partition.specs.Parts.{chunk_of};
ghost use Rattle.windows.specs.Kept.{StaysBut, load_bytes};
ghost use Rattle.windows.specs.Sums.{HasSums};
ghost use Rattle.windows.specs.Windows.{chunk_count};
ghost use Rattle.grid_format.specs.Tables.{BlockCounts};
ghost use Rattle.early_engine.specs.Gone.{Beside, HasGone, and_closed};
ghost use Rattle.early_engine.specs.Grids.{FitsFiles, IsOnGrid};
ghost use Rattle.early_engine.specs.Making.{IsUnmade, StopShows};
ghost use Rattle.early_engine.specs.Passes.{Place};
ghost use Rattle.early_engine.specs.Steps.{IsMadeBelow, blocks_in};

use crate::layout::Layout;
use crate::room::Room;
use io_account::Counts;
use lumos_base::Vertex;
use lumos_depot::{Depot, FileKind};
use lumos_law::VertexProgram;
use value_files::FileFault;
use windows::Coded;

// Why an iteration isn't made.
#[derive(Clone, Copy, Debug, PartialEq, Eq, Drop)]
pub(crate) enum Stop {
    // A file failed, or has a number that can't stand there.
    File(FileFault),
    // This vertex is over, and none below it.
    Over(Vertex),
}

// Makes the values of part j after iteration t of those before it and of the part's sums, keeps them, marks whether the part
// is hot, and counts how many values moved. The parts below j are made, and the sums have to be those of part j.
pub(crate) fn close_part<G: VertexProgram, D: Depot>(
    program: &G,
    layout: &Layout,
    t: u32,
    j: u32,
    depot: &mut D,
    room: &mut Room<G>,
    counts: &mut Counts,
) -> Result<(), Stop>
    requires attached { IsSome (D.attached depot.old) }
    requires some { 0 < t }
    requires column { j < layout.now.parts.parts }
    requires active_fits { room.old.active.parts ≡ layout.now.parts.parts }
    requires fits { FitsFiles ⟦<G as Coded>⟧.coding layout.now.parts layout.now.table room.old.windows (D.holds depot.old) }
    requires sums { j ≡ room.old.windows.sums_part }
    requires few { counts.old.moved ≤ 268435456 }
    ensures active_fits { room.new.active.parts ≡ room.old.active.parts }
    ensures was_hot { room.new.active.was_hot ≡ room.old.active.was_hot }
    ensures few { counts.new.moved ≤ counts.old.moved + chunk_count room.old.windows j }
    ensures blocks { blocks_in counts.new ≡ blocks_in counts.old }
    ensures made { (edges : List Edge) (u : ℕ) → IsOnGrid edges layout.now.parts layout.now.table (D.holds depot.old) → t ≡ suc u
        → IsMadeBelow ⟦<G as Coded>⟧.coding (G.model program.now) edges layout.now.parts j u room.old.windows (D.holds depot.old) room.old.active.was_hot room.old.active.is_hot counts.old.moved
        → HasSums (G.model program.now) room.old.windows j (values (G.model program.now) edges u) (column edges (chunk_of layout.now.parts) j layout.now.parts.parts)
        → MatchResult result (λ done. IsMadeBelow ⟦<G as Coded>⟧.coding (G.model program.now) edges layout.now.parts (j + 1) u room.new.windows (D.holds depot.new) room.new.active.was_hot room.new.active.is_hot counts.new.moved)
        (IsUnmade (G.model program.now) edges layout.now.parts u) }
    ensures next { room.new.windows.next_sums ≡ room.old.windows.next_sums }
    ensures part { room.new.windows.sums_part ≡ room.old.windows.sums_part }
    ensures stays { StaysBut ⟦<G as Coded>⟧.coding t j room.old.windows (D.holds depot.old) room.new.windows (D.holds depot.new) }
    ensures fits { FitsFiles ⟦<G as Coded>⟧.coding layout.now.parts layout.now.table room.new.windows (D.holds depot.new) }
    ensures gone { (kind : Kind) (size : Place → ℕ) (need : Place → Bool) (loads : Place → ℕ) (bs : List Place) (beside : Beside) (taken stored : FileKind → ℕ)
        → HasGone kind size need loads bs beside taken stored (D.taken depot.old) (D.stored depot.old) counts.old
        → OnOk result (HasGone kind size need loads bs (and_closed (load_bytes ⟦<G as Coded>⟧.coding room.old.windows j) beside) taken stored (D.taken depot.new) (D.stored depot.new) counts.new) }
    ensures stop { (kind : Kind) (table : BlockCounts) → IfErr result (StopShows G.Value.is_in_range G.Sum.is_in_range ⟦<G as Coded>⟧.coding (G.model program.now) room.old.windows kind table) }
    ensures marked { (i : ℕ) → i < j → hot_at room.new.active.is_hot i ≡ hot_at room.old.active.is_hot i }
    ensures moves { Moves D.holds D.taken D.stored D.faults D.attached FileKind.Values FileKind.Values depot.old depot.new }
    ensures cause { result ≡ Err (Stop.File FileFault.Depot) → Rose (D.faults depot.old) (D.faults depot.new) }
{
    let end = match room.windows.close(depot, program, t, j) {
        Ok(end) => end,
        Err(fault) => return Err(Stop::File(fault)),
    };
    let over = end.over;
    if let Some(vertex) = over {
        return Err(Stop::Over(vertex));
    }
    room.active.mark(j, end.hot);
    counts.add_moved(end.moved);
    Ok(())
}
