// The blocks of a column, one after another.
ghost use Rattle.std.specs.Prelude.{◌≡◌, ◌≤◌, ◌<◌, ◌+◌, ◌-◌, ◌*◌, ◌++◌, ◌&&◌, [], ℕ, Bool, suc, true, nat_lt, List, Err, IfErr, IsSome, OnOk};
ghost use Rattle.active_sets.specs.Active.{hot_at};
ghost use Rattle.lumos_base.specs.declared.records.Edge.{Edge};
ghost use Rattle.lumos_law.specs.Sync.{values};
ghost use Rattle.lumos_depot.specs.Causes.{Rose};
ghost use Rattle.lumos_depot.specs.Steps.{Touches};
ghost use Rattle.lumos_depot.specs.declared.depot.FileKind.{FileKind};
ghost use Rattle.lumos_report.specs.declared.records.Kind.{Kind};
ghost use Rattle.partition.specs.Blocks.{column};
ghost use Rattle.partition.specs.Parts.{chunk_of};
ghost use Rattle.grid_format.specs.Tables.{edges_in_rows};
ghost use Rattle.value_files.specs.Records.{IsIntact};
ghost use Rattle.windows.specs.Kept.{Stays, load_bytes};
ghost use Rattle.windows.specs.Sums.{HasNext, HasSums};
ghost use Rattle.early_engine.specs.Early.{early_edges};
ghost use Rattle.early_engine.specs.Files.{stores_none, takes_of};
ghost use Rattle.early_engine.specs.Gone.{AreOf, Beside, HasGone};
ghost use Rattle.early_engine.specs.Grids.{FitsFiles, IsOfIteration, IsOnGrid};
ghost use Rattle.early_engine.specs.Passes.{Place, file_of, first_row, places};
ghost use Rattle.early_engine.specs.Steps.{IsReady, below, blocks_in};

use crate::block::Visit;
use crate::layout::Layout;
use crate::visit::visit_block;
use active_sets::ActiveParts;
use io_account::Counts;
use lumos_depot::Depot;
use lumos_law::VertexProgram;
use lumos_report::Kind;
use value_files::FileFault;
use windows::{Coded, Windows};

// The first row of column j that an iteration of a kind goes through.
fn first_row(kind: Kind, j: u32) -> u32
    ensures { result ≡ first_row kind j }
{
    match kind {
        Kind::Full => 0,
        Kind::Fed => j,
    }
}

// Whether the block from part i into part j is fed ahead: the iteration feeds ahead, i comes before j, and part i is hot after
// it.
fn is_fed_ahead(active: &ActiveParts, ahead: bool, i: u32, j: u32) -> bool
    requires { i < active.now.parts }
    ensures { result ≡ (ahead && nat_lt i j && hot_at active.now.is_hot i) }
{
    if !ahead {
        return false;
    }
    if i >= j {
        return false;
    }
    active.hot_now(i)
}

// Goes on with the sums of part j through the blocks of its column: joins what they give iteration t, and what those above
// the diagonal give the next one, where this one feeds ahead. It reads the blocks that are needed, and counts them all. The
// sums have to be those of part j.
pub(crate) fn feed_column<G: VertexProgram, D: Depot>(
    program: &G,
    layout: &Layout,
    kind: Kind,
    ahead: bool,
    t: u32,
    j: u32,
    active: &ActiveParts,
    depot: &mut D,
    windows: &mut Windows<G>,
    counts: &mut Counts,
) -> Result<(), FileFault>
    requires attached { IsSome (D.attached depot.old) }
    requires some { 0 < t }
    requires column { j < layout.now.parts.parts }
    requires kinds { ahead ≡ true → kind ≡ Kind.Full }
    requires active_fits { active.now.parts ≡ layout.now.parts.parts }
    requires fits { FitsFiles ⟦<G as Coded>⟧.coding layout.now.parts layout.now.table windows.old (D.holds depot.old) }
    requires sums { windows.old.sums_part ≡ j }
    requires few { blocks_in counts.old ≤ 65280 }
    ensures few { blocks_in counts.new ≤ blocks_in counts.old + 256 }
    ensures moved { counts.new.moved ≡ counts.old.moved }
    ensures fed { (edges : List Edge) (u : ℕ) → IsOnGrid edges layout.now.parts layout.now.table (D.holds depot.old) → t ≡ suc u
        → IsReady ⟦<G as Coded>⟧.coding (G.model program.now) edges layout.now.parts (below j) u windows.old (D.holds depot.old) active.now.was_hot active.now.is_hot
        → HasSums (G.model program.now) windows.old j (values (G.model program.now) edges u) (column edges (chunk_of layout.now.parts) j (first_row kind j))
        → OnOk result (HasSums (G.model program.now) windows.new j (values (G.model program.now) edges u) (column edges (chunk_of layout.now.parts) j layout.now.parts.parts)) }
    ensures early { (edges : List Edge) (u : ℕ) → IsOnGrid edges layout.now.parts layout.now.table (D.holds depot.old) → t ≡ suc u → ahead ≡ true
        → IsReady ⟦<G as Coded>⟧.coding (G.model program.now) edges layout.now.parts (below j) u windows.old (D.holds depot.old) active.now.was_hot active.now.is_hot
        → HasNext (G.model program.now) windows.old j (values (G.model program.now) edges (suc u)) []
        → OnOk result (HasNext (G.model program.now) windows.new j (values (G.model program.now) edges (suc u)) (early_edges edges (chunk_of layout.now.parts) j)) }
    ensures part { windows.new.sums_part ≡ windows.old.sums_part }
    ensures stays { Stays ⟦<G as Coded>⟧.coding windows.old (D.holds depot.old) windows.new (D.holds depot.new) }
    ensures fits { FitsFiles ⟦<G as Coded>⟧.coding layout.now.parts layout.now.table windows.new (D.holds depot.new) }
    ensures gone { (size : Place → ℕ) (need : Place → Bool) (loads : Place → ℕ) (bs : List Place) (beside : Beside) (taken stored : FileKind → ℕ)
        → ((i : ℕ) → i < layout.now.parts.parts → AreOf layout.now.table (load_bytes ⟦<G as Coded>⟧.coding windows.old) active.now.was_hot active.now.is_hot ahead size need loads i j)
        → HasGone kind size need loads bs beside taken stored (D.taken depot.old) (D.stored depot.old) counts.old
        → OnOk result (HasGone kind size need loads (bs ++ places kind layout.now.parts.parts j) beside taken stored (D.taken depot.new) (D.stored depot.new) counts.new) }
    ensures intact { (edges : List Edge) (u : ℕ) → IsOnGrid edges layout.now.parts layout.now.table (D.holds depot.old) → t ≡ suc u
        → IsReady ⟦<G as Coded>⟧.coding (G.model program.now) edges layout.now.parts (below j) u windows.old (D.holds depot.old) active.now.was_hot active.now.is_hot → IfErr result IsIntact }
    ensures damaged { IfErr result (IsOfIteration ⟦<G as Coded>⟧.coding windows.old kind layout.now.table) }
    ensures most { D.taken depot.new (file_of kind) ≤ D.taken depot.old (file_of kind) + 12 * edges_in_rows layout.now.table j (first_row kind j) (layout.now.parts.parts - first_row kind j) }
    ensures touches { Touches D.holds D.taken D.stored D.faults D.attached (takes_of kind) stores_none depot.old depot.new }
    ensures cause { result ≡ Err FileFault.Depot → Rose (D.faults depot.old) (D.faults depot.new) }
{
    for i in first_row(kind, j)..layout.parts.parts() {
        let visit = Visit {
            row: i,
            column: j,
            now: active.hot_before(i),
            ahead: is_fed_ahead(active, ahead, i, j),
        };
        match visit_block(program, layout, kind, t, visit, depot, windows, counts) {
            Ok(()) => {}
            Err(fault) => return Err(fault),
        }
    }
    Ok(())
}
