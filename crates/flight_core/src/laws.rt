// What holds of the state after any legal events, as functions that do nothing and promise the law.
ghost use Rattle.std.specs.Prelude.{◌≡◌, ℕ, suc, ◌<◌, List, All, None};
ghost use Rattle.flight_core.specs.EdgeList.{IsEdgeList};
ghost use Rattle.flight_core.specs.Events.{State, start, step, after, refusal, AreLegal};
ghost use Rattle.flight_core.specs.Sound.{IsSound, IsOpen};
ghost use Rattle.flight_core.specs.declared.event.Event.{Event};
ghost use Rattle.lumos_base.specs.declared.records.Edge.{Edge};
ghost use Rattle.partition.specs.Blocks.{IsBelow};
ghost use Rattle.partition.specs.Parts.{chunk_size};

use lumos_law::VertexProgram;

/// Whatever legal events come, and in whatever order, the state after them is sound: above all, its final values are those
/// of synchronous execution. `begins` and `each` say it of the first state and of one legal event in any sound state, and
/// `all` of any list of legal events from the first state on, for any program, any edges between the vertices, any number
/// of parts and any greatest iteration. The rule of which events are legal, and the law, are our own.
pub fn legal_events<G: VertexProgram>()
    ensures begins { (program : G) (edges : List Edge) (n parts : ℕ) → 0 < parts → All (IsBelow n) edges
        → IsSound (G.model program) edges n (chunk_size n parts) parts (start (G.model program) edges n (chunk_size n parts) parts) }
    ensures each { (program : G) (edges : List Edge) (n parts bound : ℕ) → 0 < parts → IsEdgeList n edges
        → (state : State G.Value G.Sum) (event : Event) → IsSound (G.model program) edges n (chunk_size n parts) parts state
        → refusal (G.model program) n (chunk_size n parts) parts bound state event ≡ None
        → IsSound (G.model program) edges n (chunk_size n parts) parts (step (G.model program) edges n (chunk_size n parts) state event) }
    ensures all { (program : G) (edges : List Edge) (n parts bound : ℕ) → 0 < parts → IsEdgeList n edges → (events : List Event)
        → AreLegal (G.model program) edges n (chunk_size n parts) parts bound (start (G.model program) edges n (chunk_size n parts) parts) events
        → IsSound (G.model program) edges n (chunk_size n parts) parts
        (after (G.model program) edges n (chunk_size n parts) (start (G.model program) edges n (chunk_size n parts) parts) events) }
{}

/// In a sound state two open iterations follow one another, and no third one is open. The law is our own.
pub fn open_iterations<G: VertexProgram>()
    ensures consecutive { (program : G) (edges : List Edge) (n c parts : ℕ) (state : State G.Value G.Sum)
        → IsSound (G.model program) edges n c parts state
        → (t u : ℕ) → IsOpen parts state t → IsOpen parts state u → t < u → u ≡ suc t }
    ensures at_most_two { (program : G) (edges : List Edge) (n c parts : ℕ) (state : State G.Value G.Sum)
        → IsSound (G.model program) edges n c parts state
        → (t u v : ℕ) → IsOpen parts state t → IsOpen parts state u → t < u → u < v → IsOpen parts state v → ⊥ }
{}
