// The iterations of a run.
ghost use Rattle.std.specs.Prelude.{◌≡◌, ◌≤◌, ◌<◌, ◌+◌, ℕ, List, Err, IfErr, IfOk, IsSome};
ghost use Rattle.lumos_base.specs.declared.records.Edge.{Edge};
ghost use Rattle.lumos_depot.specs.Causes.{Rose};
ghost use Rattle.lumos_depot.specs.Steps.{Touches};
ghost use Rattle.lumos_law.specs.Sync.{ending};
ghost use Rattle.lumos_report.specs.declared.records.Kind.{Kind};
ghost use Rattle.early_engine.specs.Engines.{HasFiles, IsStanding, cut_in};
ghost use Rattle.early_engine.specs.Files.{run_stores, run_takes};
ghost use Rattle.early_engine.specs.Gone.{IsTallied};
ghost use Rattle.early_engine.specs.Passes.{file_of};
ghost use Rattle.early_engine.specs.Report.{later_lines};
ghost use Rattle.early_engine.specs.Reported.{AreEnded};
ghost use Rattle.early_engine.specs.Runs.{RoseAll, RunComes, most_taken, stored_to, taken_to};
ghost use Rattle.early_engine.specs.Turns.{SomeShows};
ghost use Rattle.early_engine.specs.declared.options.Phase.{Phase};

use crate::engine::Engine;
use crate::options::{RunFault, Turn};
use lumos_base::Fixed;
use lumos_depot::{Depot, Sink};
use lumos_law::VertexProgram;
use lumos_report::Ending;
use windows::Coded;

// Makes the iterations of an engine that began, which are asked for, until the run ends.
pub(crate) fn run_turns<G: VertexProgram, D: Depot, O: Sink>(
    engine: &mut Engine<G>,
    iterations: u32,
    depot: &mut D,
    out: &mut O,
) -> Result<Ending, RunFault>
    requires attached { IsSome (D.attached depot.old) }
    requires files { HasFiles ⟦<G as Coded>⟧.coding (D.holds depot.old) engine.old }
    requires going { engine.old.phase ≡ Phase.Going }
    requires none { engine.old.finished ≡ 0 }
    requires some { 0 < iterations }
    requires all { iterations ≡ engine.old.options.iterations }
    ensures told { (edges : List Edge) → IsStanding ⟦<G as Coded>⟧.coding (G.model engine.old.program) edges (D.holds depot.old) engine.old
        → RunComes (ending (G.model engine.old.program) edges engine.old.info.vertices engine.old.options.iterations)
        (later_lines (G.model engine.old.program) engine.old.options.show engine.old.options.mode edges engine.old.info.vertices engine.old.info.parts engine.old.options.iterations)
        (O.written out.old) (O.written out.new) result }
    ensures reported { IfOk result (AreEnded (G.model engine.old.program) engine.old.options.show engine.old.options.mode engine.old.options.iterations engine.old.info.vertices (IsTallied engine.old.options.mode engine.old.table)
        (O.written out.old) (O.written out.new)) }
    ensures taken { (edges : List Edge) → IsStanding ⟦<G as Coded>⟧.coding (G.model engine.old.program) edges (D.holds depot.old) engine.old
        → IfOk result (λ end. RoseAll (D.taken depot.old) (D.taken depot.new)
        (taken_to (cut_in engine.old.info) G.Value.WIDTH G.Sum.WIDTH engine.old.windows.pinned (G.model engine.old.program) edges engine.old.options.show engine.old.options.mode engine.old.options.iterations end.iterations)) }
    ensures stored { IfOk result (λ end. RoseAll (D.stored depot.old) (D.stored depot.new)
        (stored_to (cut_in engine.old.info) G.Value.WIDTH G.Sum.WIDTH engine.old.windows.pinned engine.old.options.mode engine.old.options.iterations end.iterations)) }
    ensures shows { IfErr result (SomeShows G.Value.is_in_range G.Sum.is_in_range ⟦<G as Coded>⟧.coding (G.model engine.old.program) engine.old.windows engine.old.options.mode engine.old.table engine.old.options.iterations) }
    ensures most { (kind : Kind) → D.taken depot.new (file_of kind) ≤ D.taken depot.old (file_of kind) + most_taken kind engine.old.options.mode engine.old.table engine.old.options.iterations }
    ensures touches { Touches D.holds D.taken D.stored D.faults D.attached (run_takes engine.old.options.mode engine.old.options.iterations) (run_stores engine.old.options.mode engine.old.options.iterations) depot.old depot.new }
    ensures depot { result ≡ Err RunFault.Depot → Rose (D.faults depot.old) (D.faults depot.new) }
    ensures later { O.faults out.old ≤ O.faults out.new }
    ensures out { result ≡ Err RunFault.Out → Rose (O.faults out.old) (O.faults out.new) }
{
    for turn in 0..iterations {
        match engine.turn(depot, out) {
            Ok(Turn::Going) => {}
            Ok(Turn::Ended(ending)) => return Ok(ending),
            Err(fault) => return Err(fault),
        }
    }
    unreachable!()
}
