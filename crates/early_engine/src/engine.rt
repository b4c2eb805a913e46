// The engine.
ghost use Rattle.std.specs.Prelude.{◌≡◌, ◌≤◌, ◌<◌, ◌+◌, ◌*◌, ℕ, true, false, List, All, Ok, Err, IfErr, IfOk, IsOk, IsSome, OnOk};
ghost use Rattle.lumos_base.specs.declared.records.Edge.{Edge};
ghost use Rattle.lumos_depot.specs.Causes.{Rose};
ghost use Rattle.lumos_depot.specs.Files.{Same};
ghost use Rattle.lumos_depot.specs.Steps.{Touches};
ghost use Rattle.lumos_depot.specs.declared.depot.FileKind.{FileKind};
ghost use Rattle.lumos_law.specs.Sync.{ending};
ghost use Rattle.lumos_report.specs.declared.records.Kind.{Kind};
ghost use Rattle.windows.specs.Budget.{held_of, need_of, pinned_of};
ghost use Rattle.windows.specs.Kept.{load_bytes};
ghost use Rattle.grid_format.specs.Checks.{GridFiles, head_of};
ghost use Rattle.grid_format.specs.Grid.{HasGrid, grid};
ghost use Rattle.grid_format.specs.Heads.{IsHead};
ghost use Rattle.grid_format.specs.Outside.{Holds};
ghost use Rattle.lumos_base.specs.Records.{IsEdge};
ghost use Rattle.early_engine.specs.Core.{IsCoreState};
ghost use Rattle.early_engine.specs.Engines.{HasFiles, IsOpened, IsSameRun, IsStanding, cut_in};
ghost use Rattle.early_engine.specs.Files.{open_takes, run_stores, run_takes, start_takes, stores_of, takes_of};
ghost use Rattle.early_engine.specs.Gone.{HasPassed, IsTallied, and_shown, beside_of};
ghost use Rattle.early_engine.specs.Grids.{bytes_in};
ghost use Rattle.early_engine.specs.Opens.{IsTooSmall, OpenShows};
ghost use Rattle.early_engine.specs.Passes.{feeds_ahead, file_of, kind_of};
ghost use Rattle.early_engine.specs.Report.{report};
ghost use Rattle.early_engine.specs.Reported.{IsOpening, IsReport, TurnReports};
ghost use Rattle.early_engine.specs.Runs.{RoseAll, RunComes, loose_bytes, most_taken, shown_bytes, stored_by, stored_first, stored_in, taken_by, taken_first, taken_in};
ghost use Rattle.early_engine.specs.Starts.{StartComes, StartShows, phase_begun};
ghost use Rattle.early_engine.specs.Turns.{RunShows, SomeShows, TurnComes, phase_after, phase_of};

use crate::begin::make_start;
use crate::layout::Layout;
use crate::open::open_parts;
use crate::options::{OpenFault, Phase, RunFault, RunOptions, Turn};
use crate::room::Room;
use crate::run::run_turns;
use crate::turning::make_turn;
use active_sets::ActiveParts;
use grid_format::GridInfo;
use lumos_base::Fixed;
use lumos_depot::{Depot, FileKind, Sink};
use lumos_law::VertexProgram;
use lumos_report::Ending;
use std::alloc::Global;
use std::marker::Model;
use windows::Coded;

/// A vertex program over the grid in a directory, whose iterations it makes by streaming the grid's blocks, as GridGraph
/// does. In plain mode each iteration goes through every block, in Primary. In fed mode an odd iteration does that too,
/// and feeds the blocks above the diagonal to the next one as well, whose sums for these blocks are so made early; the next
/// one goes on from these sums, and goes only through the blocks on the diagonal and below it, in Secondary. That is our
/// own rule, and early propagation itself is an idea of LUMOS (Vora, 2019).
///
/// A chunk is hot in an iteration where some vertex of it contributes by its value after that iteration. A block whose
/// source chunk wasn't hot in the iteration before gives nothing, and it is skipped: GridGraph's selective scheduling, by
/// chunk. Where an iteration feeds ahead, a block above the diagonal is also read where its source chunk is hot in the
/// iteration itself, which is our own rule.
///
/// It keeps windows over the values and sums under a budget, with as many chunks in memory as fit beside them; the values of
/// the other chunks stand in the file Values, and the early sums in Sums. Beside that it keeps which chunks are hot. Contracts
/// see the program, the options, the grid's head and its blocks' numbers of edges, the windows, which chunks are hot, how far
/// the run is, and how many iterations were finished.
#[derive(Drop)]
pub struct Engine<G: VertexProgram> {
    program: G,
    options: RunOptions,
    info: GridInfo,
    layout: Layout,
    room: Room<G>,
    phase: Phase,
    finished: u32,
}

impl<G: VertexProgram> Model for Engine<G> {
    ghost use Rattle.early_engine.specs.Engines.{EngineState, IsEngine};

    ghost Value = { EngineState G G.Value G.Sum };

    ghost view = { λ e. record {
      program = e.program;
      options = e.options;
      info = e.info;
      table = e.layout.table;
      windows = e.room.windows;
      active = e.room.active.was_hot;
      phase = e.phase;
      finished = e.finished;
    } };

    ghost invariant = { λ e. IsEngine e.info e.options e.layout.parts e.layout.table e.room.windows e.room.active.parts e.phase e.finished };
}

// How far an engine is after an iteration.
fn phase_after(turn: Turn) -> Phase
    ensures { result ≡ phase_after turn }
{
    match turn {
        Turn::Going => Phase::Going,
        Turn::Ended(_) => Phase::Stopped,
    }
}

impl<G: VertexProgram> Engine<G> {
    /// Opens an engine for a program over the grid in the attached directory, whose files were found to be a grid's with this
    /// head. It makes the windows under the budget, then reads the numbers of edges of the blocks from Meta, and then makes
    /// Values and Sums as long as they have to be. The four files of the grid stay as they are, and no other is read. The
    /// iterations lie in 1..=1000000, which are our own bounds. The engine is fresh.
    ///
    /// `BudgetTooSmall` comes exactly where two values and two sums for each vertex of a chunk need more bytes than the
    /// budget has, before anything else is done, and carries both numbers. `Depot` comes only where the depot's count of
    /// faults rose, and `NoMemory` is want of memory. `Damaged` never comes over a depot that tells its files: it carries a
    /// number of Meta with which the blocks' edges don't add up to all.
    pub fn open<D: Depot>(
        alloc: Global,
        depot: &mut D,
        info: GridInfo,
        program: G,
        options: RunOptions,
    ) -> Result<Engine<G>, OpenFault>
        requires attached { IsSome (D.attached depot.old) }
        requires head { IsHead info }
        requires accepted { (files : GridFiles) → Holds (D.holds depot.old) files → head_of files ≡ Ok info }
        requires some { 1 ≤ options.iterations }
        requires few { options.iterations ≤ 1000000 }
        ensures program { IfOk result (λ engine. engine.program ≡ program) }
        ensures options { IfOk result (λ engine. engine.options ≡ options) }
        ensures info { IfOk result (λ engine. engine.info ≡ info) }
        ensures fresh { IfOk result (λ engine. engine.phase ≡ Phase.Fresh) }
        ensures told { (edges : List Edge) → All IsEdge edges → HasGrid edges info.vertices info.parts → Holds (D.holds depot.old) (grid edges info.vertices info.parts)
            → IfOk result (IsOpened edges (D.holds depot.new)) }
        ensures files { IfOk result (HasFiles ⟦<G as Coded>⟧.coding (D.holds depot.new)) }
        ensures cut { IfOk result (λ engine. engine.windows.cut ≡ cut_in info) }
        ensures pinned { IfOk result (λ engine. engine.windows.pinned ≡ pinned_of (cut_in info) G.Value.WIDTH G.Sum.WIDTH options.budget) }
        ensures enough { IfOk result (λ engine. need_of (cut_in info) G.Value.WIDTH G.Sum.WIDTH ≤ options.budget) }
        ensures shows { IfErr result (OpenShows info G.Value.WIDTH G.Sum.WIDTH options.budget (D.holds depot.old FileKind.Meta)) }
        ensures untouched { IfErr result (λ fault. IsTooSmall fault → depot.new ≡ depot.old) }
        ensures depot { result ≡ Err OpenFault.Depot → Rose (D.faults depot.old) (D.faults depot.new) }
        ensures touches { Touches D.holds D.taken D.stored D.faults D.attached open_takes (stores_of true) depot.old depot.new }
        ensures stored { Same (D.stored depot.old) (D.stored depot.new) }
    {
        match open_parts(alloc, depot, info, &program, options.budget) {
            Ok(opened) => {
                let active = ActiveParts::new(opened.layout.parts.parts());
                Ok(Engine {
                    program,
                    options,
                    info,
                    layout: opened.layout,
                    room: Room {
                        windows: opened.windows,
                        active,
                    },
                    phase: Phase::Fresh,
                    finished: 0,
                })
            }
            Err(fault) => Err(fault),
        }
    }

    /// How far the engine is.
    pub fn phase(&self) -> Phase
        ensures { result ≡ self.now.phase }
    {
        self.phase
    }

    /// How many bytes the values and sums take that the engine has room for, by their widths: never more than the budget. They
    /// are those of the windows and of the chunks that are kept in memory.
    pub fn held(&self) -> u64
        ensures rule { result ≡ held_of (cut_in self.now.info) G.Value.WIDTH G.Sum.WIDTH self.now.windows.pinned }
        ensures lists { result ≡ self.now.windows.value_room * G.Value.WIDTH + self.now.windows.sum_room * G.Sum.WIDTH }
        ensures few { result ≤ self.now.options.budget }
    {
        self.room.windows.held()
    }

    // How many iterations are done at most.
    fn limit(&self) -> u32
        ensures { result ≡ self.now.options.iterations }
    {
        self.options.iterations
    }

    /// Sets the values at first, by what the file Info says of each vertex, keeps them, and writes the head of the report and
    /// these values, where they are shown. It needs an engine that is fresh, an attached directory and, where the contents are
    /// told, an Info with a record for each vertex, a Values with two for each and a Sums with one, and blocks as the engine
    /// knows them. It takes no memory and leaves the files of the grid. A chunk is hot then where some value at first
    /// contributes. What is kept is what the event core keeps at its start. It does the same in both modes.
    ///
    /// `Depot` comes only where the depot's count of faults rose. `Out` comes only where the sink's rose. `Damaged` never
    /// comes over a depot that tells its files: it carries a record of Values that stands for no value. After each of them a
    /// front of the text was written. No other fault comes. After a fault the engine is stopped, else it is going.
    pub fn begin<D: Depot, O: Sink>(&mut self, depot: &mut D, out: &mut O) -> Result<(), RunFault>
        requires attached { IsSome (D.attached depot.old) }
        requires files { HasFiles ⟦<G as Coded>⟧.coding (D.holds depot.old) self.old }
        requires fresh { self.old.phase ≡ Phase.Fresh }
        ensures told { (edges : List Edge) → IsOpened edges (D.holds depot.old) self.old
            → StartComes ⟦<G as Coded>⟧.coding (G.model self.old.program) (G.name_text self.old.program) self.old.options.show edges (cut_in self.old.info)
            self.new.windows (D.holds depot.new) (O.written out.old) (O.written out.new) result }
        ensures opened { OnOk result (IsOpening ⟦<G as Coded>⟧.coding (G.model self.old.program) (G.name_text self.old.program) self.old.options.show self.old.info
            self.new.windows (D.holds depot.new) (O.written out.old) (O.written out.new)) }
        ensures stands { (edges : List Edge) → IsOpened edges (D.holds depot.old) self.old
            → IsOk result → IsStanding ⟦<G as Coded>⟧.coding (G.model self.old.program) edges (D.holds depot.new) self.new }
        ensures core { (edges : List Edge) → IsOpened edges (D.holds depot.old) self.old
            → OnOk result (IsCoreState ⟦<G as Coded>⟧.coding (G.model self.old.program) edges (cut_in self.old.info) self.old.options.mode self.old.options.iterations 0 self.new.windows (D.holds depot.new)) }
        ensures same { IsSameRun self.old self.new }
        ensures files { HasFiles ⟦<G as Coded>⟧.coding (D.holds depot.new) self.new }
        ensures finished { self.new.finished ≡ 0 }
        ensures phase { self.new.phase ≡ phase_begun result }
        ensures some { 0 < self.new.options.iterations }
        ensures taken { OnOk result (RoseAll (D.taken depot.old) (D.taken depot.new) (taken_first (cut_in self.old.info) G.Value.WIDTH self.old.windows.pinned self.old.options.show)) }
        ensures stored { OnOk result (RoseAll (D.stored depot.old) (D.stored depot.new) (stored_first (cut_in self.old.info) G.Value.WIDTH self.old.windows.pinned)) }
        ensures shows { IfErr result (StartShows ⟦<G as Coded>⟧.coding self.old.windows) }
        ensures touches { Touches D.holds D.taken D.stored D.faults D.attached start_takes (stores_of false) depot.old depot.new }
        ensures depot { result ≡ Err RunFault.Depot → Rose (D.faults depot.old) (D.faults depot.new) }
        ensures later { O.faults out.old ≤ O.faults out.new }
        ensures out { result ≡ Err RunFault.Out → Rose (O.faults out.old) (O.faults out.new) }
    {
        match make_start(
            &self.program,
            &self.layout,
            self.info,
            self.options.show,
            depot,
            out,
            &mut self.room,
        ) {
            Ok(()) => {
                self.phase = Phase::Going;
                Ok(())
            }
            Err(fault) => {
                self.phase = Phase::Stopped;
                Err(fault)
            }
        }
    }

    /// Makes the next iteration and writes its part of the report: the line of its kind, its blocks and how many values
    /// moved, the values where they are shown, and the last line where the run ends with it. It needs an engine that is
    /// going, an attached directory and, where the contents are told, files as `begin` needs them. It takes no memory and leaves
    /// the files of the grid.
    ///
    /// A full iteration goes through each block, in Primary: in plain mode each iteration is full, in fed mode each odd one.
    /// Where one more comes after it in fed mode, it feeds that one too, from each block above the diagonal, whose sources
    /// are final by then. A fed iteration goes through each block on the diagonal and below it, in Secondary. Of the blocks
    /// that have edges it reads once each that is needed: its source chunk was hot in the iteration before, or it is fed
    /// ahead and its source chunk is hot in this one. It skips the others, and counts them as skipped. What is kept then is
    /// what the event core keeps after the same passes, in which it skips exactly the blocks from chunks that weren't hot.
    ///
    /// `Going`: the run goes on. `Ended`: it ended, still or by the limit. `Range` carries the iteration and the least
    /// vertex that is over in it, and comes exactly where there is one; nothing is written of that iteration. `Out` comes
    /// only where the sink's count of faults rose, and `Depot` only where the depot's rose; both leave a front of the
    /// iteration's text. `Damaged` never comes over the files of a grid that are told; it carries a word of a block's records
    /// that names a vertex outside its part, where the block is one that this iteration goes through, in the file of its
    /// kind, or a record of Values or of Sums that stands for no number. After each fault, and at the end, the engine is
    /// stopped.
    ///
    /// Over every depot, also one that tells nothing: where it answers Ok, each block of the iteration was read, skipped or
    /// empty, by the grid's numbers of edges and by the chunks that were hot before it and are hot after it; twelve bytes were
    /// taken for each edge of the blocks that were read, and the values of chunks that aren't kept in memory once for each
    /// block that was fed from them, at the close of each column, and where they are shown; and what was written is the line
    /// of these counts, the values that are kept then, and the last line exactly where the run ended. Where no block was read
    /// wrong, a fault leaves nothing written, or a front of such a text. After every answer at most twelve bytes were taken for
    /// each edge of the blocks that the iteration goes through, and only Values, and Sums where it feeds ahead, changed.
    pub fn turn<D: Depot, O: Sink>(&mut self, depot: &mut D, out: &mut O) -> Result<Turn, RunFault>
        requires attached { IsSome (D.attached depot.old) }
        requires files { HasFiles ⟦<G as Coded>⟧.coding (D.holds depot.old) self.old }
        requires going { self.old.phase ≡ Phase.Going }
        ensures told { (edges : List Edge) → IsStanding ⟦<G as Coded>⟧.coding (G.model self.old.program) edges (D.holds depot.old) self.old
            → TurnComes (G.model self.old.program) self.old.options.show self.old.options.mode edges (cut_in self.old.info) self.old.options.iterations self.old.finished
            ⟦<G as Coded>⟧.coding self.new.windows (D.holds depot.new) self.new.active (O.written out.old) (O.written out.new) result }
        ensures reported { TurnReports ⟦<G as Coded>⟧.coding (G.model self.old.program) self.old.options.show self.old.options.mode self.old.options.iterations self.old.info.vertices
            (λ t. HasPassed self.old.options.mode self.old.options.iterations self.old.table (load_bytes ⟦<G as Coded>⟧.coding self.old.windows) self.old.active self.new.active t
            (and_shown (shown_bytes self.old.options.show (loose_bytes (cut_in self.old.info) G.Value.WIDTH self.old.windows.pinned))
            (beside_of (cut_in self.old.info) G.Value.WIDTH G.Sum.WIDTH self.old.windows.pinned (kind_of self.old.options.mode (self.old.finished + 1))
            (feeds_ahead self.old.options.mode self.old.options.iterations (self.old.finished + 1)) self.old.info.parts))
            (D.taken depot.old) (D.stored depot.old) (D.taken depot.new) (D.stored depot.new)) (IsTallied self.old.options.mode self.old.table) (self.old.finished + 1)
            self.new.windows (D.holds depot.new) (O.written out.old) (O.written out.new) result }
        ensures stands { (edges : List Edge) → IsStanding ⟦<G as Coded>⟧.coding (G.model self.old.program) edges (D.holds depot.old) self.old
            → result ≡ Ok Turn.Going → IsStanding ⟦<G as Coded>⟧.coding (G.model self.old.program) edges (D.holds depot.new) self.new }
        ensures core { (edges : List Edge) → IsStanding ⟦<G as Coded>⟧.coding (G.model self.old.program) edges (D.holds depot.old) self.old
            → OnOk result (IsCoreState ⟦<G as Coded>⟧.coding (G.model self.old.program) edges (cut_in self.old.info) self.old.options.mode self.old.options.iterations self.new.finished self.new.windows (D.holds depot.new)) }
        ensures same { IsSameRun self.old self.new }
        ensures files { HasFiles ⟦<G as Coded>⟧.coding (D.holds depot.new) self.new }
        ensures finished { OnOk result (self.new.finished ≡ self.old.finished + 1) }
        ensures phase { self.new.phase ≡ phase_of result }
        ensures left { self.new.phase ≡ Phase.Going → self.new.finished < self.new.options.iterations }
        ensures taken { (edges : List Edge) → IsStanding ⟦<G as Coded>⟧.coding (G.model self.old.program) edges (D.holds depot.old) self.old
            → OnOk result (RoseAll (D.taken depot.old) (D.taken depot.new)
            (taken_in (cut_in self.old.info) G.Value.WIDTH G.Sum.WIDTH self.old.windows.pinned (G.model self.old.program) edges self.old.options.show self.old.options.mode self.old.options.iterations (self.old.finished + 1))) }
        ensures stored { OnOk result (RoseAll (D.stored depot.old) (D.stored depot.new)
            (stored_in (cut_in self.old.info) G.Value.WIDTH G.Sum.WIDTH self.old.windows.pinned self.old.options.mode self.old.options.iterations (self.old.finished + 1))) }
        ensures shows { IfErr result (RunShows G.Value.is_in_range G.Sum.is_in_range ⟦<G as Coded>⟧.coding (G.model self.old.program) self.old.windows self.old.options.mode self.old.table (self.old.finished + 1)) }
        ensures most { D.taken depot.new (file_of (kind_of self.old.options.mode (self.old.finished + 1)))
            ≤ D.taken depot.old (file_of (kind_of self.old.options.mode (self.old.finished + 1))) + bytes_in (kind_of self.old.options.mode (self.old.finished + 1)) self.old.table }
        ensures touches { Touches D.holds D.taken D.stored D.faults D.attached (takes_of (kind_of self.old.options.mode (self.old.finished + 1)))
            (stores_of (feeds_ahead self.old.options.mode self.old.options.iterations (self.old.finished + 1))) depot.old depot.new }
        ensures depot { result ≡ Err RunFault.Depot → Rose (D.faults depot.old) (D.faults depot.new) }
        ensures later { O.faults out.old ≤ O.faults out.new }
        ensures out { result ≡ Err RunFault.Out → Rose (O.faults out.old) (O.faults out.new) }
    {
        let t = self.finished + 1;
        match make_turn(
            &self.program,
            &self.layout,
            self.options,
            t,
            depot,
            out,
            &mut self.room,
        ) {
            Ok(turn) => {
                self.finished = t;
                self.phase = phase_after(turn);
                Ok(turn)
            }
            Err(fault) => {
                self.phase = Phase::Stopped;
                Err(fault)
            }
        }
    }

    /// Makes the whole run: the values at first, and iterations until the run ends, and writes the report. It needs an
    /// engine that is fresh, an attached directory and, where the contents are told, files as `begin` needs them. It takes no
    /// memory and leaves the files of the grid. It takes each record of Info once, and in each iteration each record of the
    /// blocks that it reads once: in a full one from Primary, in a fed one from Secondary, as `turn` says of the two modes, of
    /// the blocks that are skipped, and of the values and sums in Values and Sums.
    ///
    /// Ok tells how the run ended. `Range` carries the iteration and the least vertex that is over in it, and comes exactly
    /// where the run ends so; the report then ends after the last finished iteration. `Out` and `Depot` come only where the
    /// counts of faults of the sink and of the depot rose, and leave a front of the report. `Damaged` never comes over the
    /// files of a grid that are told; it carries a word of a block's records that names a vertex outside its part, where the
    /// block is one that some iteration goes through, in the file of its kind, or a record of Values or of Sums that stands
    /// for no number.
    ///
    /// Over every depot, also one that tells nothing, Ok says that a whole report stands on `out`: of each iteration up to the
    /// last the counts of all its blocks, and some values, and the line of the ending that is answered. What is counted of
    /// Secondary stays where all iterations are full. After every answer at most twelve bytes were taken of each layout for
    /// each edge of its blocks, in each iteration that reads it.
    pub fn run<D: Depot, O: Sink>(self, depot: &mut D, out: &mut O) -> Result<Ending, RunFault>
        requires attached { IsSome (D.attached depot.old) }
        requires files { HasFiles ⟦<G as Coded>⟧.coding (D.holds depot.old) self }
        requires fresh { self.phase ≡ Phase.Fresh }
        ensures told { (edges : List Edge) → IsOpened edges (D.holds depot.old) self
            → RunComes (ending (G.model self.program) edges self.info.vertices self.options.iterations)
            (report (G.model self.program) (G.name_text self.program) self.options.show self.options.mode edges self.info.vertices self.info.parts self.options.iterations)
            (O.written out.old) (O.written out.new) result }
        ensures reported { IfOk result (IsReport (G.model self.program) (G.name_text self.program) self.options.show self.options.mode self.options.iterations self.info self.table
            (O.written out.old) (O.written out.new)) }
        ensures taken { (edges : List Edge) → IsOpened edges (D.holds depot.old) self
            → IfOk result (λ end. RoseAll (D.taken depot.old) (D.taken depot.new)
            (taken_by (cut_in self.info) G.Value.WIDTH G.Sum.WIDTH self.windows.pinned (G.model self.program) edges self.options.show self.options.mode self.options.iterations end.iterations)) }
        ensures stored { IfOk result (λ end. RoseAll (D.stored depot.old) (D.stored depot.new)
            (stored_by (cut_in self.info) G.Value.WIDTH G.Sum.WIDTH self.windows.pinned self.options.mode self.options.iterations end.iterations)) }
        ensures shows { IfErr result (SomeShows G.Value.is_in_range G.Sum.is_in_range ⟦<G as Coded>⟧.coding (G.model self.program) self.windows self.options.mode self.table self.options.iterations) }
        ensures most { (kind : Kind) → D.taken depot.new (file_of kind) ≤ D.taken depot.old (file_of kind) + most_taken kind self.options.mode self.table self.options.iterations }
        ensures touches { Touches D.holds D.taken D.stored D.faults D.attached (run_takes self.options.mode self.options.iterations) (run_stores self.options.mode self.options.iterations) depot.old depot.new }
        ensures depot { result ≡ Err RunFault.Depot → Rose (D.faults depot.old) (D.faults depot.new) }
        ensures later { O.faults out.old ≤ O.faults out.new }
        ensures out { result ≡ Err RunFault.Out → Rose (O.faults out.old) (O.faults out.new) }
    {
        let mut engine = self;
        match engine.begin(depot, out) {
            Ok(()) => {
                let iterations = engine.limit();
                run_turns(&mut engine, iterations, depot, out)
            }
            Err(fault) => Err(fault),
        }
    }
}
