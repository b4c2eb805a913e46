// The edges of a block, read from the file of an iteration's kind and fed piece by piece.
ghost use Rattle.std.specs.Prelude.{◌≡◌, ◌≤◌, ◌<◌, ◌+◌, ◌*◌, ◌++◌, ◌^◌, ℕ, true, List, All, Err, length, IfErr, IfSome, IsSome, OnOk};
ghost use Rattle.lumos_base.specs.declared.records.Edge.{Edge};
ghost use Rattle.lumos_depot.specs.Causes.{Rose};
ghost use Rattle.partition.specs.Blocks.{block};
ghost use Rattle.partition.specs.Parts.{chunk_of, IsInPart};
ghost use Rattle.grid_format.specs.Tables.{count_at};
ghost use Rattle.lumos_depot.specs.Steps.{Reads, RoseBy};
ghost use Rattle.value_files.specs.Records.{FaultIs, IsIntact};
ghost use Rattle.column_stream.specs.Cursors.{IsInside, edges_left, fault_left};
ghost use Rattle.column_stream.specs.Records.{IsDamage};
ghost use Rattle.windows.specs.Kept.{Stays};
ghost use Rattle.windows.specs.Sums.{HasNext, HasSums, IsFirst, IsSecond};
ghost use Rattle.windows.specs.Windows.{Told};
ghost use Rattle.early_engine.specs.Grids.{HasBlocks, IsLaid, IsOfBlock, IsOnGrid, cursor_at, ends_of, place_in};
ghost use Rattle.early_engine.specs.Passes.{file_of};
ghost use Rattle.early_engine.specs.Steps.{GoesThrough, fed_if};

use crate::kind::file_of;
use crate::layout::Layout;
use column_stream::BlockCursor;
use grid_format::BlockTable;
use lumos_base::{Edge, Vertex, Weight};
use lumos_depot::Depot;
use lumos_law::VertexProgram;
use lumos_report::Kind;
use value_files::FileFault;
use windows::{Coded, Windows};

// How many edges a piece of a block has at most.
const PIECE: usize = 256;

// What stands in room for an edge.
const NO_EDGE: Edge = Edge {
    source: Vertex(0),
    target: Vertex(0),
    weight: Weight(0),
};

// A block, from part `row` into part `column`, and whether its edges are fed to the iteration and ahead to the next one.
#[derive(Clone, Copy, Debug, PartialEq, Eq, Drop)]
pub(crate) struct Visit {
    pub(crate) row: u32,
    pub(crate) column: u32,
    pub(crate) now: bool,
    pub(crate) ahead: bool,
}

// Where the block from part i into part j begins in the file from which iterations of a kind read.
fn place_in(table: &BlockTable, kind: Kind, i: u32, j: u32) -> u64
    requires row { i < table.now.parts }
    requires column { j < table.now.parts }
    requires low { GoesThrough kind i j }
    ensures { result ≡ place_in kind table.now i j }
{
    match kind {
        Kind::Full => table.primary_place(i, j),
        Kind::Fed => table.secondary_place(i, j),
    }
}

// The cursor at the beginning of a block.
fn cursor_at(layout: &Layout, kind: Kind, i: u32, j: u32) -> BlockCursor
    requires row { i < layout.now.parts.parts }
    requires column { j < layout.now.parts.parts }
    requires low { GoesThrough kind i j }
    requires laid { IsLaid layout.now.parts layout.now.table }
    ensures { result ≡ cursor_at kind layout.now.parts layout.now.table i j }
{
    let place = place_in(&layout.table, kind, i, j);
    let count = layout.table.count(i, j);
    let sources = layout.parts.range_of(i);
    let targets = layout.parts.range_of(j);
    BlockCursor::new(file_of(kind), place, count, sources, targets)
}

// Feeds edges to the iteration, where they are fed.
fn feed_now<G: VertexProgram>(program: &G, visit: Visit, edges: &[Edge], windows: &mut Windows<G>)
    requires first { visit.now ≡ true → windows.old.first_part ≡ visit.row }
    requires sums { windows.old.sums_part ≡ visit.column }
    requires sources { All (λ e. IsInPart windows.old.cut.vertices (chunk_of windows.old.cut) visit.row e.source.0) edges.now }
    requires targets { All (λ e. IsInPart windows.old.cut.vertices (chunk_of windows.old.cut) visit.column e.target.0) edges.now }
    ensures fed { (i j : ℕ) (state : ℕ → G.Value) (before : List Edge) → (visit.now ≡ true → IsFirst windows.old i state) → HasSums (G.model program.now) windows.old j state before
        → HasSums (G.model program.now) windows.new j state (before ++ fed_if visit.now edges.now) }
    ensures alone { windows.new ≡ record windows.old { sums = windows.new.sums } }
    ensures stays { (told : Told) → Stays ⟦<G as Coded>⟧.coding windows.old told windows.new told }
{
    if visit.now {
        windows.feed_now(program, edges);
    }
}

// Feeds edges ahead to the next iteration, where they are fed.
fn feed_ahead<G: VertexProgram>(program: &G, visit: Visit, edges: &[Edge], windows: &mut Windows<G>)
    requires second { visit.ahead ≡ true → windows.old.second_part ≡ visit.row }
    requires sums { windows.old.sums_part ≡ visit.column }
    requires sources { All (λ e. IsInPart windows.old.cut.vertices (chunk_of windows.old.cut) visit.row e.source.0) edges.now }
    requires targets { All (λ e. IsInPart windows.old.cut.vertices (chunk_of windows.old.cut) visit.column e.target.0) edges.now }
    ensures fed { (i j : ℕ) (state : ℕ → G.Value) (before : List Edge) → (visit.ahead ≡ true → IsSecond windows.old i state) → HasNext (G.model program.now) windows.old j state before
        → HasNext (G.model program.now) windows.new j state (before ++ fed_if visit.ahead edges.now) }
    ensures alone { windows.new ≡ record windows.old { next_sums = windows.new.next_sums } }
    ensures stays { (told : Told) → Stays ⟦<G as Coded>⟧.coding windows.old told windows.new told }
{
    if visit.ahead {
        windows.feed_ahead(program, edges);
    }
}

// Reads all records that are left for a cursor, a piece at a time, and feeds the edges of each.
fn feed_left<G: VertexProgram, D: Depot>(
    program: &G,
    visit: Visit,
    count: u64,
    cursor: &mut BlockCursor,
    depot: &mut D,
    windows: &mut Windows<G>,
) -> Result<(), FileFault>
    requires attached { IsSome (D.attached depot.old) }
    requires whole { cursor.old.left ≡ count }
    requires inside { IfSome (D.holds depot.old cursor.old.file) (IsInside cursor.old) }
    requires ends { cursor.old.ends ≡ ends_of windows.old.cut visit.row visit.column }
    requires first { visit.now ≡ true → windows.old.first_part ≡ visit.row }
    requires second { visit.ahead ≡ true → windows.old.second_part ≡ visit.row }
    requires sums { windows.old.sums_part ≡ visit.column }
    ensures fed { OnOk result (IfSome (D.holds depot.old cursor.old.file) (λ bytes. (i j : ℕ) (state : ℕ → G.Value) (before : List Edge) → (visit.now ≡ true → IsFirst windows.old i state)
        → HasSums (G.model program.now) windows.old j state before → HasSums (G.model program.now) windows.new j state (before ++ fed_if visit.now (edges_left cursor.old bytes)))) }
    ensures ahead { OnOk result (IfSome (D.holds depot.old cursor.old.file) (λ bytes. (i j : ℕ) (state : ℕ → G.Value) (before : List Edge) → (visit.ahead ≡ true → IsSecond windows.old i state)
        → HasNext (G.model program.now) windows.old j state before → HasNext (G.model program.now) windows.new j state (before ++ fed_if visit.ahead (edges_left cursor.old bytes)))) }
    ensures alone { windows.new ≡ record windows.old { sums = windows.new.sums; next_sums = windows.new.next_sums } }
    ensures stays { (told : Told) → Stays ⟦<G as Coded>⟧.coding windows.old told windows.new told }
    ensures fault { IfSome (D.holds depot.old cursor.old.file) (λ bytes. FaultIs result (fault_left cursor.old bytes)) }
    ensures damaged { IfErr result (IsDamage cursor.old.file cursor.old.ends cursor.old.place cursor.old.left) }
    ensures taken { OnOk result (RoseBy (D.taken depot.old cursor.old.file) (D.taken depot.new cursor.old.file) (12 * count)) }
    ensures most { D.taken depot.new cursor.old.file ≤ D.taken depot.old cursor.old.file + 12 * count }
    ensures reads { Reads D.holds D.taken D.stored D.faults D.attached cursor.old.file depot.old depot.new }
    ensures cause { result ≡ Err FileFault.Depot → Rose (D.faults depot.old) (D.faults depot.new) }
{
    let mut places = [NO_EDGE; PIECE];
    let mut done = 0;
    while done < count {
        match cursor.next(depot, &mut places) {
            Ok(piece) => {
                feed_now(program, visit, &places[..piece], windows);
                feed_ahead(program, visit, &places[..piece], windows);
                done += piece as u64;
            }
            Err(fault) => return Err(fault),
        }
    }
    Ok(())
}

// Reads a block and feeds its edges, now by the values in the first window, which have to be those of its row, and ahead by
// those in the second one. The sums have to be those of its column.
pub(crate) fn feed_block<G: VertexProgram, D: Depot>(
    program: &G,
    layout: &Layout,
    kind: Kind,
    visit: Visit,
    depot: &mut D,
    windows: &mut Windows<G>,
) -> Result<(), FileFault>
    requires attached { IsSome (D.attached depot.old) }
    requires row { visit.row < layout.now.parts.parts }
    requires column { visit.column < layout.now.parts.parts }
    requires low { GoesThrough kind visit.row visit.column }
    requires laid { IsLaid layout.now.parts layout.now.table }
    requires inside { HasBlocks layout.now.table (D.holds depot.old) }
    requires cut { windows.old.cut ≡ layout.now.parts }
    requires first { visit.now ≡ true → windows.old.first_part ≡ visit.row }
    requires second { visit.ahead ≡ true → windows.old.second_part ≡ visit.row }
    requires sums { windows.old.sums_part ≡ visit.column }
    ensures fed { (edges : List Edge) (state : ℕ → G.Value) (before : List Edge) → IsOnGrid edges layout.now.parts layout.now.table (D.holds depot.old) → (visit.now ≡ true → IsFirst windows.old visit.row state)
        → HasSums (G.model program.now) windows.old visit.column state before
        → OnOk result (HasSums (G.model program.now) windows.new visit.column state (before ++ fed_if visit.now (block edges (chunk_of layout.now.parts) visit.row visit.column))) }
    ensures ahead { (edges : List Edge) (state : ℕ → G.Value) (before : List Edge) → IsOnGrid edges layout.now.parts layout.now.table (D.holds depot.old) → (visit.ahead ≡ true → IsSecond windows.old visit.row state)
        → HasNext (G.model program.now) windows.old visit.column state before
        → OnOk result (HasNext (G.model program.now) windows.new visit.column state (before ++ fed_if visit.ahead (block edges (chunk_of layout.now.parts) visit.row visit.column))) }
    ensures alone { windows.new ≡ record windows.old { sums = windows.new.sums; next_sums = windows.new.next_sums } }
    ensures stays { (told : Told) → Stays ⟦<G as Coded>⟧.coding windows.old told windows.new told }
    ensures intact { (edges : List Edge) → IsOnGrid edges layout.now.parts layout.now.table (D.holds depot.old) → IfErr result IsIntact }
    ensures damaged { IfErr result (IsOfBlock kind layout.now.parts layout.now.table visit.row visit.column) }
    ensures taken { OnOk result (RoseBy (D.taken depot.old (file_of kind)) (D.taken depot.new (file_of kind)) (12 * count_at layout.now.table visit.row visit.column)) }
    ensures most { D.taken depot.new (file_of kind) ≤ D.taken depot.old (file_of kind) + 12 * count_at layout.now.table visit.row visit.column }
    ensures reads { Reads D.holds D.taken D.stored D.faults D.attached (file_of kind) depot.old depot.new }
    ensures cause { result ≡ Err FileFault.Depot → Rose (D.faults depot.old) (D.faults depot.new) }
{
    let count = layout.table.count(visit.row, visit.column);
    let mut cursor = cursor_at(layout, kind, visit.row, visit.column);
    match feed_left(program, visit, count, &mut cursor, depot, windows) {
        Ok(()) => Ok(()),
        Err(fault) => Err(fault),
    }
}
