// A block that an iteration comes to: read and fed where it is needed, and counted.
ghost use Rattle.std.specs.Prelude.{◌≡◌, ◌≤◌, ◌<◌, ◌⊎◌, ◌+◌, ◌-◌, ◌*◌, ◌++◌, ◌∷◌, ◌||◌, [], ℕ, Bool, true, cond, List, Err, IfErr, IsSome, OnOk};
ghost use Rattle.lumos_base.specs.declared.records.Edge.{Edge};
ghost use Rattle.lumos_depot.specs.Causes.{Rose};
ghost use Rattle.lumos_depot.specs.Steps.{Reads, RoseBy, Touches};
ghost use Rattle.lumos_depot.specs.declared.depot.FileKind.{FileKind};
ghost use Rattle.partition.specs.Blocks.{block};
ghost use Rattle.partition.specs.Parts.{chunk_of};
ghost use Rattle.value_files.specs.Records.{IsIntact};
ghost use Rattle.windows.specs.Kept.{BrokenValues, Keeps, Stays, load_bytes};
ghost use Rattle.windows.specs.Sums.{HasNext, HasSums, IsFirst, IsSecond};
ghost use Rattle.windows.specs.Windows.{IsSized};
ghost use Rattle.grid_format.specs.Tables.{count_at};
ghost use Rattle.early_engine.specs.Files.{stores_none, takes_of};
ghost use Rattle.early_engine.specs.Gone.{Beside, HasGone};
ghost use Rattle.early_engine.specs.Grids.{FitsFiles, IsOfBlock, IsOfValues, IsOnGrid};
ghost use Rattle.early_engine.specs.Passes.{Place, file_of, place_at};
ghost use Rattle.early_engine.specs.Steps.{GoesThrough, blocks_in, fed_if, with_read};

use crate::block::{Visit, feed_block};
use crate::layout::Layout;
use io_account::Counts;
use lumos_base::Fixed;
use lumos_depot::{Depot, FileKind};
use lumos_law::VertexProgram;
use lumos_report::Kind;
use value_files::FileFault;
use windows::{Coded, Windows};

// Counts a block that an iteration of a kind read.
fn count_read(kind: Kind, counts: &mut Counts)
    requires few { blocks_in counts.old ≤ 65536 }
    ensures value { counts.new ≡ with_read kind counts.old }
    ensures few { blocks_in counts.new ≡ blocks_in counts.old + 1 }
    ensures moved { counts.new.moved ≡ counts.old.moved }
{
    match kind {
        Kind::Full => counts.add_primary(),
        Kind::Fed => counts.add_secondary(),
    }
}

// Brings the values of a block's row after iteration t into the first window, where they are fed from.
fn load_now<G: VertexProgram, D: Depot>(
    visit: Visit,
    t: u32,
    depot: &mut D,
    windows: &mut Windows<G>,
) -> Result<(), FileFault>
    requires attached { IsSome (D.attached depot.old) }
    requires row { visit.row < windows.old.cut.parts }
    requires sized { IsSized ⟦<G as Coded>⟧.coding windows.old (D.holds depot.old) }
    ensures shown { (state : ℕ → G.Value) → (visit.now ≡ true → Keeps ⟦<G as Coded>⟧.coding windows.old (D.holds depot.old) t visit.row state) → OnOk result (visit.now ≡ true → IsFirst windows.new visit.row state) }
    ensures part { OnOk result (visit.now ≡ true → windows.new.first_part ≡ visit.row) }
    ensures alone { windows.new ≡ record windows.old { first_part = windows.new.first_part; first = windows.new.first } }
    ensures stays { Stays ⟦<G as Coded>⟧.coding windows.old (D.holds depot.old) windows.new (D.holds depot.new) }
    ensures intact { (state : ℕ → G.Value) → (visit.now ≡ true → Keeps ⟦<G as Coded>⟧.coding windows.old (D.holds depot.old) t visit.row state) → IfErr result IsIntact }
    ensures broken { IfErr result (BrokenValues ⟦<G as Coded>⟧.coding windows.old t visit.row) }
    ensures taken { OnOk result (RoseBy (D.taken depot.old FileKind.Values) (D.taken depot.new FileKind.Values) (cond visit.now (load_bytes ⟦<G as Coded>⟧.coding windows.old visit.row) 0)) }
    ensures reads { Reads D.holds D.taken D.stored D.faults D.attached FileKind.Values depot.old depot.new }
    ensures cause { result ≡ Err FileFault.Depot → Rose (D.faults depot.old) (D.faults depot.new) }
{
    if visit.now {
        return windows.load_before(depot, t, visit.row);
    }
    Ok(())
}

// Brings the values of a block's row after iteration t into the second window, where they are fed from ahead.
fn load_ahead<G: VertexProgram, D: Depot>(
    visit: Visit,
    t: u32,
    depot: &mut D,
    windows: &mut Windows<G>,
) -> Result<(), FileFault>
    requires attached { IsSome (D.attached depot.old) }
    requires row { visit.row < windows.old.cut.parts }
    requires sized { IsSized ⟦<G as Coded>⟧.coding windows.old (D.holds depot.old) }
    ensures shown { (state : ℕ → G.Value) → (visit.ahead ≡ true → Keeps ⟦<G as Coded>⟧.coding windows.old (D.holds depot.old) t visit.row state) → OnOk result (visit.ahead ≡ true → IsSecond windows.new visit.row state) }
    ensures part { OnOk result (visit.ahead ≡ true → windows.new.second_part ≡ visit.row) }
    ensures alone { windows.new ≡ record windows.old { second_part = windows.new.second_part; second = windows.new.second } }
    ensures stays { Stays ⟦<G as Coded>⟧.coding windows.old (D.holds depot.old) windows.new (D.holds depot.new) }
    ensures intact { (state : ℕ → G.Value) → (visit.ahead ≡ true → Keeps ⟦<G as Coded>⟧.coding windows.old (D.holds depot.old) t visit.row state) → IfErr result IsIntact }
    ensures broken { IfErr result (BrokenValues ⟦<G as Coded>⟧.coding windows.old t visit.row) }
    ensures taken { OnOk result (RoseBy (D.taken depot.old FileKind.Values) (D.taken depot.new FileKind.Values) (cond visit.ahead (load_bytes ⟦<G as Coded>⟧.coding windows.old visit.row) 0)) }
    ensures reads { Reads D.holds D.taken D.stored D.faults D.attached FileKind.Values depot.old depot.new }
    ensures cause { result ≡ Err FileFault.Depot → Rose (D.faults depot.old) (D.faults depot.new) }
{
    if visit.ahead {
        return windows.load_after(depot, t, visit.row);
    }
    Ok(())
}

// Brings the values of a block's row into the windows from which its edges are fed: those before iteration t into the first,
// those after it into the second.
fn load_sources<G: VertexProgram, D: Depot>(
    visit: Visit,
    t: u32,
    depot: &mut D,
    windows: &mut Windows<G>,
) -> Result<(), FileFault>
    requires attached { IsSome (D.attached depot.old) }
    requires some { 0 < t }
    requires row { visit.row < windows.old.cut.parts }
    requires sized { IsSized ⟦<G as Coded>⟧.coding windows.old (D.holds depot.old) }
    ensures first { (state : ℕ → G.Value) → (visit.now ≡ true → Keeps ⟦<G as Coded>⟧.coding windows.old (D.holds depot.old) (t - 1) visit.row state) → OnOk result (visit.now ≡ true → IsFirst windows.new visit.row state) }
    ensures second { (state : ℕ → G.Value) → (visit.ahead ≡ true → Keeps ⟦<G as Coded>⟧.coding windows.old (D.holds depot.old) t visit.row state) → OnOk result (visit.ahead ≡ true → IsSecond windows.new visit.row state) }
    ensures first_part { OnOk result (visit.now ≡ true → windows.new.first_part ≡ visit.row) }
    ensures second_part { OnOk result (visit.ahead ≡ true → windows.new.second_part ≡ visit.row) }
    ensures alone { windows.new ≡ record windows.old { first_part = windows.new.first_part; first = windows.new.first; second_part = windows.new.second_part; second = windows.new.second } }
    ensures stays { Stays ⟦<G as Coded>⟧.coding windows.old (D.holds depot.old) windows.new (D.holds depot.new) }
    ensures intact { (was is : ℕ → G.Value) → (visit.now ≡ true → Keeps ⟦<G as Coded>⟧.coding windows.old (D.holds depot.old) (t - 1) visit.row was)
        → (visit.ahead ≡ true → Keeps ⟦<G as Coded>⟧.coding windows.old (D.holds depot.old) t visit.row is) → IfErr result IsIntact }
    ensures broken { IfErr result (IsOfValues ⟦<G as Coded>⟧.coding windows.old) }
    ensures taken { OnOk result (RoseBy (D.taken depot.old FileKind.Values) (D.taken depot.new FileKind.Values)
        (cond visit.now (load_bytes ⟦<G as Coded>⟧.coding windows.old visit.row) 0 + cond visit.ahead (load_bytes ⟦<G as Coded>⟧.coding windows.old visit.row) 0)) }
    ensures reads { Reads D.holds D.taken D.stored D.faults D.attached FileKind.Values depot.old depot.new }
    ensures cause { result ≡ Err FileFault.Depot → Rose (D.faults depot.old) (D.faults depot.new) }
{
    match load_now(visit, t - 1, depot, windows) {
        Ok(()) => load_ahead(visit, t, depot, windows),
        Err(fault) => Err(fault),
    }
}

// Reads a block where it has edges and is needed, feeds them by the values before iteration t and, ahead, by those after it,
// and counts the block. The sums have to be those of its column.
pub(crate) fn visit_block<G: VertexProgram, D: Depot>(
    program: &G,
    layout: &Layout,
    kind: Kind,
    t: u32,
    visit: Visit,
    depot: &mut D,
    windows: &mut Windows<G>,
    counts: &mut Counts,
) -> Result<(), FileFault>
    requires attached { IsSome (D.attached depot.old) }
    requires some { 0 < t }
    requires row { visit.row < layout.now.parts.parts }
    requires column { visit.column < layout.now.parts.parts }
    requires low { GoesThrough kind visit.row visit.column }
    requires fits { FitsFiles ⟦<G as Coded>⟧.coding layout.now.parts layout.now.table windows.old (D.holds depot.old) }
    requires sums { windows.old.sums_part ≡ visit.column }
    requires few { blocks_in counts.old ≤ 65536 }
    ensures few { blocks_in counts.new ≤ blocks_in counts.old + 1 }
    ensures moved { counts.new.moved ≡ counts.old.moved }
    ensures fed { (edges : List Edge) (state : ℕ → G.Value) (before : List Edge) → IsOnGrid edges layout.now.parts layout.now.table (D.holds depot.old)
        → (visit.now ≡ true → Keeps ⟦<G as Coded>⟧.coding windows.old (D.holds depot.old) (t - 1) visit.row state) → HasSums (G.model program.now) windows.old visit.column state before
        → OnOk result (HasSums (G.model program.now) windows.new visit.column state (before ++ fed_if visit.now (block edges (chunk_of layout.now.parts) visit.row visit.column))) }
    ensures ahead { (edges : List Edge) (state : ℕ → G.Value) (before : List Edge) → IsOnGrid edges layout.now.parts layout.now.table (D.holds depot.old)
        → (visit.ahead ≡ true → Keeps ⟦<G as Coded>⟧.coding windows.old (D.holds depot.old) t visit.row state) → HasNext (G.model program.now) windows.old visit.column state before
        → OnOk result (HasNext (G.model program.now) windows.new visit.column state (before ++ fed_if visit.ahead (block edges (chunk_of layout.now.parts) visit.row visit.column))) }
    ensures part { windows.new.sums_part ≡ windows.old.sums_part }
    ensures stays { Stays ⟦<G as Coded>⟧.coding windows.old (D.holds depot.old) windows.new (D.holds depot.new) }
    ensures fits { FitsFiles ⟦<G as Coded>⟧.coding layout.now.parts layout.now.table windows.new (D.holds depot.new) }
    ensures gone { (size : Place → ℕ) (need : Place → Bool) (loads : Place → ℕ) (bs : List Place) (beside : Beside) (taken stored : FileKind → ℕ)
        → size (place_at visit.row visit.column) ≡ count_at layout.now.table visit.row visit.column → (visit.now || visit.ahead) ≡ need (place_at visit.row visit.column)
        → cond visit.now (load_bytes ⟦<G as Coded>⟧.coding windows.old visit.row) 0 + cond visit.ahead (load_bytes ⟦<G as Coded>⟧.coding windows.old visit.row) 0 ≡ loads (place_at visit.row visit.column)
        → HasGone kind size need loads bs beside taken stored (D.taken depot.old) (D.stored depot.old) counts.old
        → OnOk result (HasGone kind size need loads (bs ++ place_at visit.row visit.column ∷ []) beside taken stored (D.taken depot.new) (D.stored depot.new) counts.new) }
    ensures intact { (edges : List Edge) (was is : ℕ → G.Value) → IsOnGrid edges layout.now.parts layout.now.table (D.holds depot.old)
        → (visit.now ≡ true → Keeps ⟦<G as Coded>⟧.coding windows.old (D.holds depot.old) (t - 1) visit.row was)
        → (visit.ahead ≡ true → Keeps ⟦<G as Coded>⟧.coding windows.old (D.holds depot.old) t visit.row is) → IfErr result IsIntact }
    ensures damaged { IfErr result (λ fault. IsOfBlock kind layout.now.parts layout.now.table visit.row visit.column fault ⊎ IsOfValues ⟦<G as Coded>⟧.coding windows.old fault) }
    ensures most { D.taken depot.new (file_of kind) ≤ D.taken depot.old (file_of kind) + 12 * count_at layout.now.table visit.row visit.column }
    ensures touches { Touches D.holds D.taken D.stored D.faults D.attached (takes_of kind) stores_none depot.old depot.new }
    ensures cause { result ≡ Err FileFault.Depot → Rose (D.faults depot.old) (D.faults depot.new) }
{
    if layout.table.count(visit.row, visit.column) == 0 {
        counts.add_empty();
        return Ok(());
    }
    if !(visit.now || visit.ahead) {
        counts.add_skipped();
        return Ok(());
    }
    match load_sources(visit, t, depot, windows) {
        Ok(()) => {}
        Err(fault) => return Err(fault),
    }
    match feed_block(program, layout, kind, visit, depot, windows) {
        Ok(()) => {}
        Err(fault) => return Err(fault),
    }
    count_read(kind, counts);
    Ok(())
}
