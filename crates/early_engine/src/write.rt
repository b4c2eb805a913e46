// The parts of the report.
ghost use Rattle.std.specs.Prelude.{◌≡◌, ◌≤◌, ◌<◌, ◌+◌, ◌++◌, ℕ, length, sum_by, Err, IfErr, IfOk, IsSome, OnOk};
ghost use Rattle.std.specs.List.{range_with_len};
ghost use Rattle.lumos_depot.specs.Causes.{HasCause, Rose};
ghost use Rattle.lumos_depot.specs.Steps.{Reads, RoseBy};
ghost use Rattle.lumos_depot.specs.Streams.{Writes};
ghost use Rattle.lumos_depot.specs.declared.depot.FileKind.{FileKind};
ghost use Rattle.lumos_law.specs.Sync.{IsChunk};
ghost use Rattle.lumos_report.specs.Report.{counts_line, head_line, zero_line};
ghost use Rattle.windows.specs.Kept.{Stays, load_bytes};
ghost use Rattle.early_engine.specs.Grids.{FitsFiles};
ghost use Rattle.early_engine.specs.Report.{shown_lines, turn_line, turn_of, value_lines};
ghost use Rattle.early_engine.specs.Runs.{shown_bytes};
ghost use Rattle.early_engine.specs.Shown.{KeepsAll, ShowsKept, WritesRun};
ghost use Rattle.early_engine.specs.Starts.{IsFromOutside, StartShows, fault_of_file};

use crate::layout::Layout;
use crate::options::{RunFault, RunOptions, Show, Turn};
use grid_format::GridInfo;
use io_account::Counts;
use lumos_base::{Line, Vertex};
use lumos_depot::{Depot, Failed, FileKind, Sink};
use lumos_law::VertexProgram;
use lumos_report::{
    Ending, Kind, Why, write_counts, write_ending, write_head, write_value, write_zero,
};
use value_files::FileFault;
use windows::{Coded, Windows};

// Why a run stops at a file.
pub(crate) fn fault_of_file(fault: FileFault) -> RunFault
    ensures { result ≡ fault_of_file fault }
{
    match fault {
        FileFault::Depot => RunFault::Depot,
        FileFault::Damaged { file, place, found } => RunFault::Damaged { file, place, found },
    }
}

// Writes a line for each of the vertices from `first` on, in order.
fn write_part<G: VertexProgram, O: Sink>(
    out: &mut O,
    program: &G,
    first: u32,
    values: &[G::Value],
) -> Result<(), Failed>
    requires { first + length values.now ≤ 268435456 }
    ensures bytes { (state : ℕ → G.Value) → IsChunk state first values.now
        → Writes (O.written out.old) (O.written out.new) result (value_lines (G.model program.now) state first (length values.now)) }
    ensures cause { HasCause (O.faults out.old) (O.faults out.new) result }
{
    for i in 0..values.len() {
        let mut shown = Line::new();
        program.show(&values[i], &mut shown);
        match write_value(out, Vertex(first + i as u32), &shown) {
            Ok(()) => {}
            Err(_) => return Err(Failed),
        }
    }
    Ok(())
}

// Writes a line for each vertex, in order, with the values that are kept after iteration t.
fn write_values<G: VertexProgram, D: Depot, O: Sink>(
    program: &G,
    layout: &Layout,
    t: u32,
    depot: &mut D,
    out: &mut O,
    windows: &mut Windows<G>,
) -> Result<(), RunFault>
    requires attached { IsSome (D.attached depot.old) }
    requires fits { FitsFiles ⟦<G as Coded>⟧.coding layout.now.parts layout.now.table windows.old (D.holds depot.old) }
    ensures told { (state : ℕ → G.Value) → KeepsAll ⟦<G as Coded>⟧.coding windows.old (D.holds depot.old) t state
        → WritesRun (O.written out.old) (O.written out.new) (value_lines (G.model program.now) state 0 layout.now.parts.vertices) result }
    ensures shown { ShowsKept ⟦<G as Coded>⟧.coding windows.new (D.holds depot.new) t (λ state. value_lines (G.model program.now) state 0 layout.now.parts.vertices) (O.written out.old) (O.written out.new) result }
    ensures stays { Stays ⟦<G as Coded>⟧.coding windows.old (D.holds depot.old) windows.new (D.holds depot.new) }
    ensures fits { FitsFiles ⟦<G as Coded>⟧.coding layout.now.parts layout.now.table windows.new (D.holds depot.new) }
    ensures intact { (state : ℕ → G.Value) → KeepsAll ⟦<G as Coded>⟧.coding windows.old (D.holds depot.old) t state → IfErr result IsFromOutside }
    ensures shows { IfErr result (StartShows ⟦<G as Coded>⟧.coding windows.old) }
    ensures taken { OnOk result (RoseBy (D.taken depot.old FileKind.Values) (D.taken depot.new FileKind.Values) (sum_by (load_bytes ⟦<G as Coded>⟧.coding windows.old) (range_with_len 0 layout.now.parts.parts))) }
    ensures reads { Reads D.holds D.taken D.stored D.faults D.attached FileKind.Values depot.old depot.new }
    ensures depot { result ≡ Err RunFault.Depot → Rose (D.faults depot.old) (D.faults depot.new) }
    ensures later { O.faults out.old ≤ O.faults out.new }
    ensures out { result ≡ Err RunFault.Out → Rose (O.faults out.old) (O.faults out.new) }
{
    for j in 0..layout.parts.parts() {
        match windows.load_before(depot, t, j) {
            Ok(()) => {}
            Err(fault) => return Err(fault_of_file(fault)),
        }
        let first = layout.parts.range_of(j).first;
        match write_part(out, program, first, windows.before()) {
            Ok(()) => {}
            Err(_) => return Err(RunFault::Out),
        }
    }
    Ok(())
}

// Writes the values that are kept after iteration t, where they are shown.
fn write_shown<G: VertexProgram, D: Depot, O: Sink>(
    program: &G,
    layout: &Layout,
    show: Show,
    t: u32,
    depot: &mut D,
    out: &mut O,
    windows: &mut Windows<G>,
) -> Result<(), RunFault>
    requires attached { IsSome (D.attached depot.old) }
    requires fits { FitsFiles ⟦<G as Coded>⟧.coding layout.now.parts layout.now.table windows.old (D.holds depot.old) }
    ensures told { (state : ℕ → G.Value) → KeepsAll ⟦<G as Coded>⟧.coding windows.old (D.holds depot.old) t state
        → WritesRun (O.written out.old) (O.written out.new) (shown_lines (G.model program.now) show state layout.now.parts.vertices) result }
    ensures shown { ShowsKept ⟦<G as Coded>⟧.coding windows.new (D.holds depot.new) t (λ state. shown_lines (G.model program.now) show state layout.now.parts.vertices) (O.written out.old) (O.written out.new) result }
    ensures stays { Stays ⟦<G as Coded>⟧.coding windows.old (D.holds depot.old) windows.new (D.holds depot.new) }
    ensures fits { FitsFiles ⟦<G as Coded>⟧.coding layout.now.parts layout.now.table windows.new (D.holds depot.new) }
    ensures intact { (state : ℕ → G.Value) → KeepsAll ⟦<G as Coded>⟧.coding windows.old (D.holds depot.old) t state → IfErr result IsFromOutside }
    ensures shows { IfErr result (StartShows ⟦<G as Coded>⟧.coding windows.old) }
    ensures taken { OnOk result (RoseBy (D.taken depot.old FileKind.Values) (D.taken depot.new FileKind.Values) (shown_bytes show (sum_by (load_bytes ⟦<G as Coded>⟧.coding windows.old) (range_with_len 0 layout.now.parts.parts)))) }
    ensures reads { Reads D.holds D.taken D.stored D.faults D.attached FileKind.Values depot.old depot.new }
    ensures depot { result ≡ Err RunFault.Depot → Rose (D.faults depot.old) (D.faults depot.new) }
    ensures later { O.faults out.old ≤ O.faults out.new }
    ensures out { result ≡ Err RunFault.Out → Rose (O.faults out.old) (O.faults out.new) }
{
    match show {
        Show::All => write_values(program, layout, t, depot, out, windows),
        Show::Brief => Ok(()),
    }
}

// Writes the lines before the values at first: the head, and that they come.
fn write_opening<G: VertexProgram, O: Sink>(
    out: &mut O,
    program: &G,
    info: GridInfo,
) -> Result<(), Failed>
    ensures bytes { Writes (O.written out.old) (O.written out.new) result (head_line (G.name_text program.now) info ++ zero_line) }
    ensures cause { HasCause (O.faults out.old) (O.faults out.new) result }
{
    let mut name = Line::new();
    program.name(&mut name);
    match write_head(out, &name, info) {
        Ok(()) => write_zero(out),
        Err(_) => Err(Failed),
    }
}

// Writes the lines before the first iteration: the head, and the values at first.
pub(crate) fn write_first<G: VertexProgram, D: Depot, O: Sink>(
    program: &G,
    layout: &Layout,
    info: GridInfo,
    show: Show,
    depot: &mut D,
    out: &mut O,
    windows: &mut Windows<G>,
) -> Result<(), RunFault>
    requires attached { IsSome (D.attached depot.old) }
    requires fits { FitsFiles ⟦<G as Coded>⟧.coding layout.now.parts layout.now.table windows.old (D.holds depot.old) }
    ensures told { (state : ℕ → G.Value) → KeepsAll ⟦<G as Coded>⟧.coding windows.old (D.holds depot.old) 0 state
        → WritesRun (O.written out.old) (O.written out.new) (head_line (G.name_text program.now) info ++ (zero_line ++ shown_lines (G.model program.now) show state layout.now.parts.vertices)) result }
    ensures shown { ShowsKept ⟦<G as Coded>⟧.coding windows.new (D.holds depot.new) 0 (λ state. head_line (G.name_text program.now) info ++ (zero_line ++ shown_lines (G.model program.now) show state layout.now.parts.vertices))
        (O.written out.old) (O.written out.new) result }
    ensures stays { Stays ⟦<G as Coded>⟧.coding windows.old (D.holds depot.old) windows.new (D.holds depot.new) }
    ensures fits { FitsFiles ⟦<G as Coded>⟧.coding layout.now.parts layout.now.table windows.new (D.holds depot.new) }
    ensures intact { (state : ℕ → G.Value) → KeepsAll ⟦<G as Coded>⟧.coding windows.old (D.holds depot.old) 0 state → IfErr result IsFromOutside }
    ensures shows { IfErr result (StartShows ⟦<G as Coded>⟧.coding windows.old) }
    ensures taken { OnOk result (RoseBy (D.taken depot.old FileKind.Values) (D.taken depot.new FileKind.Values) (shown_bytes show (sum_by (load_bytes ⟦<G as Coded>⟧.coding windows.old) (range_with_len 0 layout.now.parts.parts)))) }
    ensures reads { Reads D.holds D.taken D.stored D.faults D.attached FileKind.Values depot.old depot.new }
    ensures depot { result ≡ Err RunFault.Depot → Rose (D.faults depot.old) (D.faults depot.new) }
    ensures later { O.faults out.old ≤ O.faults out.new }
    ensures out { result ≡ Err RunFault.Out → Rose (O.faults out.old) (O.faults out.new) }
{
    match write_opening(out, program, info) {
        Ok(()) => write_shown(program, layout, show, 0, depot, out, windows),
        Err(_) => Err(RunFault::Out),
    }
}

// Whether the run goes on after iteration t, in which so many values moved.
fn turn_of(t: u32, limit: u32, moved: u64) -> Turn
    ensures { result ≡ turn_of t limit moved }
{
    if moved == 0 {
        return Turn::Ended(Ending {
            iterations: t,
            why: Why::Still,
        });
    }
    if t == limit {
        return Turn::Ended(Ending {
            iterations: t,
            why: Why::Limit,
        });
    }
    Turn::Going
}

// Writes the last line, where there is one.
fn write_close<O: Sink>(out: &mut O, turn: Turn) -> Result<(), Failed>
    ensures bytes { Writes (O.written out.old) (O.written out.new) result (turn_line turn) }
    ensures cause { HasCause (O.faults out.old) (O.faults out.new) result }
{
    match turn {
        Turn::Going => Ok(()),
        Turn::Ended(ending) => write_ending(out, ending),
    }
}

// Writes the lines of iteration t, which is of this kind, and the last line where the run ends with it.
pub(crate) fn write_turn<G: VertexProgram, D: Depot, O: Sink>(
    program: &G,
    layout: &Layout,
    options: RunOptions,
    t: u32,
    kind: Kind,
    counts: &Counts,
    depot: &mut D,
    out: &mut O,
    windows: &mut Windows<G>,
) -> Result<Turn, RunFault>
    requires attached { IsSome (D.attached depot.old) }
    requires fits { FitsFiles ⟦<G as Coded>⟧.coding layout.now.parts layout.now.table windows.old (D.holds depot.old) }
    ensures told { (state : ℕ → G.Value) → KeepsAll ⟦<G as Coded>⟧.coding windows.old (D.holds depot.old) t state
        → WritesRun (O.written out.old) (O.written out.new)
        ((counts_line t kind counts.now ++ shown_lines (G.model program.now) options.show state layout.now.parts.vertices) ++ turn_line (turn_of t options.iterations counts.now.moved)) result }
    ensures shown { ShowsKept ⟦<G as Coded>⟧.coding windows.new (D.holds depot.new) t
        (λ state. (counts_line t kind counts.now ++ shown_lines (G.model program.now) options.show state layout.now.parts.vertices) ++ turn_line (turn_of t options.iterations counts.now.moved))
        (O.written out.old) (O.written out.new) result }
    ensures turn { IfOk result (λ turn. turn ≡ turn_of t options.iterations counts.now.moved) }
    ensures stays { Stays ⟦<G as Coded>⟧.coding windows.old (D.holds depot.old) windows.new (D.holds depot.new) }
    ensures fits { FitsFiles ⟦<G as Coded>⟧.coding layout.now.parts layout.now.table windows.new (D.holds depot.new) }
    ensures intact { (state : ℕ → G.Value) → KeepsAll ⟦<G as Coded>⟧.coding windows.old (D.holds depot.old) t state → IfErr result IsFromOutside }
    ensures shows { IfErr result (StartShows ⟦<G as Coded>⟧.coding windows.old) }
    ensures taken { OnOk result (RoseBy (D.taken depot.old FileKind.Values) (D.taken depot.new FileKind.Values) (shown_bytes options.show (sum_by (load_bytes ⟦<G as Coded>⟧.coding windows.old) (range_with_len 0 layout.now.parts.parts)))) }
    ensures reads { Reads D.holds D.taken D.stored D.faults D.attached FileKind.Values depot.old depot.new }
    ensures depot { result ≡ Err RunFault.Depot → Rose (D.faults depot.old) (D.faults depot.new) }
    ensures later { O.faults out.old ≤ O.faults out.new }
    ensures out { result ≡ Err RunFault.Out → Rose (O.faults out.old) (O.faults out.new) }
{
    match write_counts(out, t, kind, counts) {
        Ok(()) => {}
        Err(_) => return Err(RunFault::Out),
    }
    match write_shown(program, layout, options.show, t, depot, out, windows) {
        Ok(()) => {}
        Err(fault) => return Err(fault),
    }
    let turn = turn_of(t, options.iterations, counts.moved);
    match write_close(out, turn) {
        Ok(()) => Ok(turn),
        Err(_) => Err(RunFault::Out),
    }
}
