// Many iterations on one state, event by event.
ghost use Rattle.std.specs.Prelude.{◌≡◌, ℕ, ◌≤◌, ◌<◌, true, List, length, All, IfOk, OnOk, OnErr, Some, None};
ghost use Rattle.std.specs.Option.{is_some, option_copied, IfSome};
ghost use Rattle.flight_core.specs.Sound.{IsOfChunk};
ghost use Rattle.lumos_law.specs.Sync.{values};
ghost use Rattle.flight_core.specs.Events.{block_refusal, chunk_refusal, fed_sums, giver, is_done, is_final, kept_of, made_values, prior};

use crate::event::{Event, Illegal, StepFault};
use crate::kept::{KeptItems, drop_kept, kept_among, kept_in, replace_kept};
use crate::made::{block_edges, copy_sums, fed_copy, first_giver, first_open, next_copy};
use crate::mark::{Mark, mark_in, marked};
use crate::refusal::{before, block_fault, chunk_fault, lies_in_bounds};
use crate::start::{copy_edges, first_finals};
use lumos_base::{Edge, NoMemory};
use lumos_law::VertexProgram;
use partition::Parts;
use std::alloc::Global;
use std::collections::VecDeque;
use std::marker::Model;

/// A program over a list of edges, and the state of its iterations after some events: which blocks are done, the partial
/// sums of the columns, and the values of the final chunks.
///
/// Whatever events were done, in whatever order, the final values are those of synchronous execution. The greatest
/// iteration is 1024, which is our own bound.
#[derive(Drop)]
pub struct Replay<G: VertexProgram> {
    program: G,
    edges: Vec<Edge>,
    parts: Parts,
    done: VecDeque<Mark>,
    sums: Vec<KeptItems<G::Sum>>,
    finals: VecDeque<KeptItems<G::Value>>,
}

impl<G: VertexProgram> Model for Replay<G> {
    ghost use Rattle.flight_core.specs.Replayed.{Replayed, IsReplay};

    ghost Value = { Replayed G G.Value G.Sum };

    ghost view = { λ r. record {
      program = r.program;
      edges = r.edges.items;
      cut = r.parts;
      state = record { done = r.done.items; sums = r.sums.items; finals = r.finals.items };
    } };

    ghost invariant = { λ r. IsReplay (G.model r.program) r.edges.items r.parts
        (record { done = r.done.items; sums = r.sums.items; finals = r.finals.items }) };
}

impl<G: VertexProgram> Replay<G> {
    ghost use Rattle.flight_core.specs.Replayed.{begun, refused, refused_by, stepped, IsDoneOrFull, IsSoundReplay};
    ghost use Rattle.flight_core.specs.declared.event.Event.TheVariants.{Feed, Skip, Finalise};
    ghost use Rattle.flight_core.specs.declared.event.Illegal.{Illegal as Reason};
    ghost use Rattle.partition.specs.Blocks.{IsBelow};
    ghost use Rattle.partition.specs.Parts.{chunk_of};

    /// A program over a list of edges, with iteration 0 final in all chunks and nothing done. The ends of the edges
    /// have to lie below the number of vertices, and there may be at most 2147483648 edges, which is our own bound.
    /// `NoMemory` is want of memory.
    pub fn new(
        alloc: Global,
        edges: &[Edge],
        parts: Parts,
        program: G,
    ) -> Result<Replay<G>, NoMemory>
        requires ends { All (IsBelow parts.vertices) edges.now }
        requires few { length edges.now ≤ 2147483648 }
        ensures made { IfOk result (λ replay. replay ≡ begun (G.model program) program edges.now parts) }
        ensures sound { IfOk result (λ replay. IsSoundReplay (G.model program) replay) }
    {
        let Ok(kept) = copy_edges(alloc, edges) else {
            return Err(NoMemory);
        };
        let Ok(finals) = first_finals(alloc, &program, edges, &parts) else {
            return Err(NoMemory);
        };
        let _some = parts.parts();
        let _few = parts.vertices();
        Ok(Replay {
            program,
            edges: kept,
            parts,
            done: VecDeque::new(alloc),
            sums: Vec::new(alloc),
            finals,
        })
    }

    // Whether a chunk is final in an iteration.
    fn is_final(&self, t: u32, j: u32) -> bool
        ensures { result ≡ is_final self.now.state t j }
    {
        kept_in(&self.finals, t, j).is_some()
    }

    // Whether a block is done in an iteration.
    fn is_done(&self, t: u32, i: u32, j: u32) -> bool
        ensures { result ≡ is_done self.now.state t i j }
    {
        mark_in(&self.done, t, i, j).is_some()
    }

    // Why a block can't be fed.
    fn block_refusal(&self, t: u32, i: u32, j: u32) -> Option<Illegal>
        ensures { result ≡ block_refusal 1024 self.now.cut.parts self.now.state t i j }
    {
        let outside = !lies_in_bounds(self.parts.parts(), t, i, j);
        let source_open = !self.is_final(before(t), i);
        block_fault(
            outside,
            self.is_final(t, j),
            self.is_done(t, i, j),
            source_open,
        )
    }

    // Why a chunk can't be made final.
    fn chunk_refusal(&self, t: u32, j: u32) -> Option<Illegal>
        ensures { result ≡ chunk_refusal 1024 self.now.cut.parts self.now.state t j }
    {
        let parts = self.parts.parts();
        let outside = !lies_in_bounds(parts, t, 0, j);
        let old_open = !self.is_final(before(t), j);
        let row = first_open(&self.done, parts, t, j);
        chunk_fault(outside, self.is_final(t, j), old_open, row)
    }

    // The least vertex of a chunk whose final value before an iteration contributes.
    fn giver(&self, t: u32, i: u32) -> Option<u32>
        requires row_is { i < self.now.cut.parts }
        requires source { is_final self.now.state (prior t) i ≡ true }
        ensures { result ≡ giver (G.model self.now.program) self.now.cut.vertices (chunk_of self.now.cut) self.now.state t i }
    {
        let first = self.parts.range_of(i).first;
        let Some(values) = kept_in(&self.finals, before(t), i) else {
            unreachable!();
        };
        first_giver(&self.program, first, values)
    }

    // Why a block can't be skipped.
    fn skip_refusal(&self, t: u32, i: u32, j: u32) -> Option<Illegal>
        ensures { result ≡ refused (G.model self.now.program) self.now (Skip t i j) }
    {
        let refusal = self.block_refusal(t, i, j);
        if refusal.is_some() {
            return refusal;
        }
        match self.giver(t, i) {
            Some(vertex) => Some(Illegal::NotSkippable { vertex }),
            None => None,
        }
    }

    // Why an event is refused.
    fn refusal(&self, event: Event) -> Option<Illegal>
        ensures { result ≡ refused (G.model self.now.program) self.now event }
    {
        match event {
            Event::Feed { t, i, j } => self.block_refusal(t, i, j),
            Event::Skip { t, i, j } => self.skip_refusal(t, i, j),
            Event::Finalise { t, j } => self.chunk_refusal(t, j),
        }
    }

    // The partial sums of a column, with what a block contributes joined to them.
    fn fed(&self, alloc: Global, t: u32, i: u32, j: u32) -> Result<Vec<G::Sum>, NoMemory>
        requires { block_refusal 1024 self.now.cut.parts self.now.state t i j ≡ None }
        ensures { IfOk result (λ made. made.items ≡ fed_sums (G.model self.now.program) self.now.edges self.now.cut.vertices
            (chunk_of self.now.cut) self.now.state t i j) }
    {
        let from = self.parts.range_of(i);
        let into = self.parts.range_of(j);
        let Some(values) = kept_in(&self.finals, before(t), i) else {
            unreachable!();
        };
        let Ok(block) = block_edges(alloc, &self.parts, &self.edges, i, j) else {
            return Err(NoMemory);
        };
        let sums = kept_among(&self.sums, t, j);
        let count = (into.past - into.first) as usize;
        fed_copy(
            alloc,
            &self.program,
            &block,
            from.first,
            values,
            into.first,
            sums,
            count,
        )
    }

    // The next values of a chunk.
    fn made(&self, alloc: Global, t: u32, j: u32) -> Result<Vec<G::Value>, NoMemory>
        requires { chunk_refusal 1024 self.now.cut.parts self.now.state t j ≡ None }
        ensures { IfOk result (λ made. made.items ≡ made_values (G.model self.now.program) self.now.cut.vertices
            (chunk_of self.now.cut) self.now.state t j) }
    {
        let first = self.parts.range_of(j).first;
        let Some(values) = kept_in(&self.finals, before(t), j) else {
            unreachable!();
        };
        let Ok(sums) = copy_sums(alloc, kept_among(&self.sums, t, j), values.len()) else {
            return Err(NoMemory);
        };
        next_copy(alloc, &self.program, first, values, &sums)
    }

    // Feeds a column from a block.
    fn feed(&mut self, alloc: Global, t: u32, i: u32, j: u32) -> Result<(), NoMemory>
        requires { refused (G.model self.old.program) self.old (Feed t i j) ≡ None }
        ensures done { OnOk result (self.new ≡ stepped (G.model self.old.program) self.old (Feed t i j)) }
        ensures unchanged { OnErr result (self.new ≡ self.old) }
    {
        let Ok(items) = self.fed(alloc, t, i, j) else {
            return Err(NoMemory);
        };
        if self.done.reserve(1).is_err() || self.sums.reserve(1).is_err() {
            return Err(NoMemory);
        }
        self.done.push_front_reserved(marked(t, i, j, true));
        let kept = KeptItems {
            time: t,
            column: j,
            items,
        };
        replace_kept(&mut self.sums, kept);
        Ok(())
    }

    // Marks a block as skipped.
    fn skip(&mut self, t: u32, i: u32, j: u32) -> Result<(), NoMemory>
        requires { refused (G.model self.old.program) self.old (Skip t i j) ≡ None }
        ensures done { OnOk result (self.new ≡ stepped (G.model self.old.program) self.old (Skip t i j)) }
        ensures unchanged { OnErr result (self.new ≡ self.old) }
    {
        if self.done.push_front(marked(t, i, j, false)).is_err() {
            return Err(NoMemory);
        }
        Ok(())
    }

    // Makes a chunk final.
    fn finish(&mut self, alloc: Global, t: u32, j: u32) -> Result<(), NoMemory>
        requires { refused (G.model self.old.program) self.old (Finalise t j) ≡ None }
        ensures done { OnOk result (self.new ≡ stepped (G.model self.old.program) self.old (Finalise t j)) }
        ensures unchanged { OnErr result (self.new ≡ self.old) }
    {
        let Ok(items) = self.made(alloc, t, j) else {
            return Err(NoMemory);
        };
        if self.finals.reserve(1).is_err() {
            return Err(NoMemory);
        }
        let kept = KeptItems {
            time: t,
            column: j,
            items,
        };
        drop_kept(&mut self.sums, t, j);
        self.finals.push_front_reserved(kept);
        Ok(())
    }

    // Does a legal event.
    fn act(&mut self, alloc: Global, event: Event) -> Result<(), StepFault>
        requires { refused (G.model self.old.program) self.old event ≡ None }
        ensures done { OnOk result (self.new ≡ stepped (G.model self.old.program) self.old event) }
        ensures unchanged { OnErr result (self.new ≡ self.old) }
        ensures legal { IsDoneOrFull result }
    {
        let done = match event {
            Event::Feed { t, i, j } => self.feed(alloc, t, i, j),
            Event::Skip { t, i, j } => self.skip(t, i, j),
            Event::Finalise { t, j } => self.finish(alloc, t, j),
        };
        match done {
            Ok(()) => Ok(()),
            Err(NoMemory) => Err(StepFault::NoMemory),
        }
    }

    /// Does an event, where it is legal. The fault is `Illegal` exactly where the event is refused, with the first
    /// reason that applies, and `NoMemory` is want of memory, at a legal event alone. After a fault nothing has
    /// changed.
    ///
    /// The state stays sound: whatever events were done, its final values are those of synchronous execution.
    pub fn step(&mut self, alloc: Global, event: Event) -> Result<(), StepFault>
        ensures done { OnOk result (self.new ≡ stepped (G.model self.old.program) self.old event) }
        ensures unchanged { OnErr result (self.new ≡ self.old) }
        ensures legal { refused (G.model self.old.program) self.old event ≡ None → IsDoneOrFull result }
        ensures illegal { (why : Reason) → refused (G.model self.old.program) self.old event ≡ Some why → result ≡ refused_by why }
        ensures sound { IsSoundReplay (G.model self.new.program) self.new }
    {
        if let Some(why) = self.refusal(event) {
            let _sound = &self.program;
            return Err(StepFault::Illegal(why));
        }
        let done = self.act(alloc, event);
        let _sound = &self.program;
        done
    }

    /// The values of a chunk in an iteration, where they are final: those of synchronous execution. There are none exactly
    /// where the chunk isn't final in the iteration.
    pub fn final_values(&self, t: u32, j: u32) -> Option<&[G::Value]>
        ensures values { option_copied result ≡ kept_of self.now.state.finals t j }
        ensures only_final { is_some result ≡ is_final self.now.state t j }
        ensures synchronous { IfSome result (λ xs. IsOfChunk self.now.cut.vertices (chunk_of self.now.cut) j
            (values (G.model self.now.program) self.now.edges t) xs.now) }
    {
        kept_in(&self.finals, t, j)
    }
}
