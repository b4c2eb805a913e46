// The windows.
ghost use Rattle.std.specs.Prelude.{◌≡◌, ◌≢◌, ◌≤◌, ◌<◌, ◌+◌, ◌-◌, ◌*◌, ◌^◌, ◌++◌, [], ℕ, List, All, Err, None, length, take, IfErr, IfOk, IfSome, IsOk, IsSome, OnOk};
ghost use Rattle.std.specs.List.{list_any, range_with_len};
ghost use Rattle.lumos_base.specs.declared.records.Edge.{Edge};
ghost use Rattle.lumos_depot.specs.Causes.{Rose};
ghost use Rattle.lumos_depot.specs.declared.depot.FileKind.{FileKind};
ghost use Rattle.lumos_depot.specs.Steps.{Moves, Reads, RoseBy, Stores};
ghost use Rattle.lumos_law.specs.Sync.{next_values, sum_at, IsChunk};
ghost use Rattle.partition.specs.Parts.{chunk_of, first_vertex, part_length, IsInPart};
ghost use Rattle.flight_core.specs.Finish.{IsOver, finish_of};
ghost use Rattle.value_files.specs.Records.{FaultIs, IsIntact};
ghost use Rattle.windows.specs.Budget.{IsRefusal, held_of, need_of, pinned_of};
ghost use Rattle.windows.specs.Kept.{BrokenSums, BrokenValues, Keeps, Stays, StaysBut, StaysButSums, load_bytes, sums_damage, values_damage};
ghost use Rattle.windows.specs.Sums.{HasNext, HasSums, IsFirst, IsSecond, StoresEarly, given_values};
ghost use Rattle.windows.specs.Windows.{IsSized, Told, chunk_count, chunk_first};

use crate::close::{close_in_file, close_in_memory};
use crate::coding::Coded;
use crate::copies::clear_sums;
use crate::fault::WindowFault;
use crate::feed::{feed_window, load_early_part};
use crate::initial::{initial_in_file, initial_in_memory};
use crate::part::{load_part, shown};
use flight_core::Finish;
use lumos_base::{Edge, Fixed, OutInfo, Vertex};
use lumos_depot::{Depot, FileKind};
use lumos_law::{Combine, VertexProgram};
use partition::Parts;
use std::alloc::Global;
use std::marker::Model;
use value_files::{FileFault, store_sums};

// Nothing leads out of a vertex.
const NO_INFO: OutInfo = OutInfo {
    degree: 0,
    weight: 0,
};

/// Two windows over values and two over sums, a chunk long each, of the vertices as they are cut, and the chunks that a
/// budget leaves room for in memory: those below `pinned`, with the values after even and after odd iterations. The values
/// of the other chunks stand in the file Values, and the sums for the iteration ahead in the file Sums. A window over values
/// that shows a chunk in memory is where that chunk lies, and no copy of it. The windows are GridGraph's; the budget, and
/// which chunks stay in memory, are our own.
///
/// Contracts see which records values and sums have, how the vertices are cut, the budget, how many chunks are in memory, how
/// many values and sums the lists have room for, what the windows show and of which chunks, and the values in memory.
#[derive(Drop)]
pub struct Windows<G: VertexProgram> {
    parts: Parts,
    budget: u64,
    pinned: u32,
    first_part: u32,
    first_turn: u32,
    first: Vec<G::Value>,
    second_part: u32,
    second_turn: u32,
    second: Vec<G::Value>,
    sums_part: u32,
    sums: Vec<G::Sum>,
    next_sums: Vec<G::Sum>,
    even: Vec<G::Value>,
    odd: Vec<G::Value>,
}

impl<G: VertexProgram> Model for Windows<G> {
    ghost use Rattle.std.specs.Prelude.{◌+◌, take, vec_len};
    ghost use Rattle.partition.specs.Parts.{chunk_of, part_length};
    ghost use Rattle.windows.specs.Windows.{WindowState, IsWindows, shown_of};

    ghost Value = { WindowState G.Value G.Sum };

    ghost view = { λ w. record {
      cut = w.parts;
      budget = w.budget;
      pinned = w.pinned;
      value_room = vec_len w.first + vec_len w.second + vec_len w.even + vec_len w.odd;
      sum_room = vec_len w.sums + vec_len w.next_sums;
      first_part = w.first_part;
      first = shown_of w.parts w.pinned w.first_part w.first_turn w.first.items w.even.items w.odd.items;
      second_part = w.second_part;
      second = shown_of w.parts w.pinned w.second_part w.second_turn w.second.items w.even.items w.odd.items;
      sums_part = w.sums_part;
      sums = w.sums.items;
      next_sums = w.next_sums.items;
      even = w.even.items;
      odd = w.odd.items;
    } };

    ghost invariant = { λ w. IsWindows w.parts G.Value.WIDTH G.Sum.WIDTH w.budget w.pinned w.first_part w.second_part w.sums_part
        (vec_len w.first) (vec_len w.second) (vec_len w.sums) (vec_len w.next_sums) (vec_len w.even) (vec_len w.odd) };
}

// How many bytes the windows alone need.
fn need_of<G: VertexProgram>(parts: Parts) -> u64
    ensures value { result ≡ need_of parts G.Value.WIDTH G.Sum.WIDTH }
    ensures small { result < 2 ^ 40 }
{
    u64::from(parts.chunk()) * (2 * G::Value::WIDTH as u64 + 2 * G::Sum::WIDTH as u64)
}

// How many bytes a chunk in memory takes.
fn chunk_bytes<G: VertexProgram>(parts: Parts) -> u64
    ensures value { result ≡ chunk_of parts * (2 * G.Value.WIDTH) }
    ensures some { 0 < result }
    ensures small { result < 2 ^ 40 }
{
    u64::from(parts.chunk()) * (2 * G::Value::WIDTH as u64)
}

// How many chunks are kept in memory.
fn pinned_of<G: VertexProgram>(parts: Parts, budget: u64) -> u32
    requires { need_of parts G.Value.WIDTH G.Sum.WIDTH ≤ budget }
    ensures { result ≡ pinned_of parts G.Value.WIDTH G.Sum.WIDTH budget }
{
    let most = (budget - need_of::<G>(parts)) / chunk_bytes::<G>(parts);
    u64::from(parts.parts()).min(most) as u32
}

impl<G: VertexProgram> Windows<G> {
    /// Windows over the vertices as they are cut, under a budget of bytes, for the values and sums of a program.
    ///
    /// They need room for two values and two sums for each vertex of a chunk, by their widths; `BudgetTooSmall` comes exactly
    /// where that is more than the budget, before memory is taken, and carries both numbers. Beside that as many chunks as fit
    /// stay in memory, with two values for each vertex. `NoMemory` comes only where memory ran out; no other call takes any.
    /// Until calls bring something in, all windows show chunk 0, and what they show of it is left open.
    pub fn new(
        alloc: Global,
        program: &G,
        parts: Parts,
        budget: u64,
    ) -> Result<Windows<G>, WindowFault>
        ensures cut { IfOk result (λ windows. windows.cut ≡ parts) }
        ensures budget { IfOk result (λ windows. windows.budget ≡ budget) }
        ensures pinned { IfOk result (λ windows. windows.pinned ≡ pinned_of parts G.Value.WIDTH G.Sum.WIDTH budget) }
        ensures enough { IfOk result (λ windows. need_of parts G.Value.WIDTH G.Sum.WIDTH ≤ budget) }
        ensures refused { IfErr result (IsRefusal parts G.Value.WIDTH G.Sum.WIDTH budget) }
    {
        let need = need_of::<G>(parts);
        if need > budget {
            return Err(WindowFault::BudgetTooSmall {
                need,
                given: budget,
            });
        }
        let pinned = pinned_of::<G>(parts, budget);
        let value = program.init(Vertex(0), NO_INFO);
        let _vertices = parts.vertices();
        let _parts = parts.parts();
        let chunk = parts.chunk() as usize;
        let room = pinned as usize * chunk;
        let Ok(first) = vec![in alloc; value; chunk] else {
            return Err(WindowFault::NoMemory);
        };
        let Ok(second) = vec![in alloc; value; chunk] else {
            return Err(WindowFault::NoMemory);
        };
        let Ok(sums) = vec![in alloc; G::Sum::unit(); chunk] else {
            return Err(WindowFault::NoMemory);
        };
        let Ok(next_sums) = vec![in alloc; G::Sum::unit(); chunk] else {
            return Err(WindowFault::NoMemory);
        };
        let Ok(even) = vec![in alloc; value; room] else {
            return Err(WindowFault::NoMemory);
        };
        let Ok(odd) = vec![in alloc; value; room] else {
            return Err(WindowFault::NoMemory);
        };
        Ok(Windows {
            parts,
            budget,
            pinned,
            first_part: 0,
            first_turn: 0,
            first,
            second_part: 0,
            second_turn: 0,
            second,
            sums_part: 0,
            sums,
            next_sums,
            even,
            odd,
        })
    }

    /// How many chunks are kept in memory, from the first on: as many as the budget leaves room for beside the windows, and
    /// at most all.
    pub fn pinned(&self) -> u32
        ensures value { result ≡ self.now.pinned }
        ensures rule { result ≡ pinned_of self.now.cut G.Value.WIDTH G.Sum.WIDTH self.now.budget }
    {
        self.pinned
    }

    /// The budget in bytes.
    pub fn budget(&self) -> u64
        ensures { result ≡ self.now.budget }
    {
        self.budget
    }

    /// How many bytes the values and sums take that the lists have room for, by their widths: never more than the budget.
    pub fn held(&self) -> u64
        ensures rule { result ≡ held_of self.now.cut G.Value.WIDTH G.Sum.WIDTH self.now.pinned }
        ensures lists { result ≡ self.now.value_room * G.Value.WIDTH + self.now.sum_room * G.Sum.WIDTH }
        ensures few { result ≤ self.now.budget }
    {
        need_of::<G>(self.parts) + u64::from(self.pinned) * chunk_bytes::<G>(self.parts)
    }

    /// What the first window over values shows, a value for each vertex of its chunk.
    pub fn before(&self) -> &[G::Value]
        ensures shown { result.now ≡ self.now.first }
        ensures long { length result.now ≡ chunk_count self.now self.now.first_part }
    {
        shown(
            self.parts,
            self.pinned,
            self.first_part,
            self.first_turn,
            &self.first,
            &self.even,
            &self.odd,
        )
    }

    /// Brings the values of a chunk after iteration t into the first window over values. Of a chunk in memory the window
    /// shows those that were kept there last after an iteration that is odd or even like t, and the depot isn't called.
    ///
    /// The chunk has to be one of the cut. It needs an attached directory and, where the contents are told, Values and Sums
    /// of their sizes. It takes no memory and changes no file. `Damaged` comes exactly where a record of the chunk in Values
    /// stands for no value, at the first one, and `Depot` only where the depot's count of faults rose; after both it is left
    /// open what the window shows.
    pub fn load_before<D: Depot>(
        &mut self,
        depot: &mut D,
        t: u32,
        part: u32,
    ) -> Result<(), FileFault>
        requires attached { IsSome (D.attached depot.old) }
        requires part { part < self.old.cut.parts }
        requires sized { IsSized ⟦<G as Coded>⟧.coding self.old (D.holds depot.old) }
        ensures shown { (state : ℕ → G.Value) → Keeps ⟦<G as Coded>⟧.coding self.old (D.holds depot.old) t part state → OnOk result (IsFirst self.new part state) }
        ensures part { OnOk result (self.new.first_part ≡ part) }
        ensures alone { self.new ≡ record self.old { first_part = self.new.first_part; first = self.new.first } }
        ensures stays { Stays ⟦<G as Coded>⟧.coding self.old (D.holds depot.old) self.new (D.holds depot.new) }
        ensures intact { (state : ℕ → G.Value) → Keeps ⟦<G as Coded>⟧.coding self.old (D.holds depot.old) t part state → IfErr result IsIntact }
        ensures fault { self.old.pinned ≤ part → IfSome (D.holds depot.old FileKind.Values) (λ file. FaultIs result (values_damage ⟦<G as Coded>⟧.coding self.old t part file)) }
        ensures broken { IfErr result (BrokenValues ⟦<G as Coded>⟧.coding self.old t part) }
        ensures untouched { part < self.old.pinned → depot.new ≡ depot.old }
        ensures in_memory { part < self.old.pinned → IsOk result }
        ensures taken { OnOk result (RoseBy (D.taken depot.old FileKind.Values) (D.taken depot.new FileKind.Values) (load_bytes ⟦<G as Coded>⟧.coding self.old part)) }
        ensures taken_most { D.taken depot.new FileKind.Values ≤ D.taken depot.old FileKind.Values + load_bytes ⟦<G as Coded>⟧.coding self.old part }
        ensures reads { Reads D.holds D.taken D.stored D.faults D.attached FileKind.Values depot.old depot.new }
        ensures cause { result ≡ Err FileFault.Depot → Rose (D.faults depot.old) (D.faults depot.new) }
    {
        self.first_part = part;
        self.first_turn = t;
        load_part(depot, self.parts, self.pinned, t, part, &mut self.first)
    }

    /// Brings the values of a chunk after iteration t into the second window over values. Of a chunk in memory the window
    /// shows those that were kept there last after an iteration that is odd or even like t, and the depot isn't called.
    ///
    /// The chunk has to be one of the cut. It needs an attached directory and, where the contents are told, Values and Sums
    /// of their sizes. It takes no memory and changes no file. `Damaged` comes exactly where a record of the chunk in Values
    /// stands for no value, at the first one, and `Depot` only where the depot's count of faults rose; after both it is left
    /// open what the window shows.
    pub fn load_after<D: Depot>(
        &mut self,
        depot: &mut D,
        t: u32,
        part: u32,
    ) -> Result<(), FileFault>
        requires attached { IsSome (D.attached depot.old) }
        requires part { part < self.old.cut.parts }
        requires sized { IsSized ⟦<G as Coded>⟧.coding self.old (D.holds depot.old) }
        ensures shown { (state : ℕ → G.Value) → Keeps ⟦<G as Coded>⟧.coding self.old (D.holds depot.old) t part state → OnOk result (IsSecond self.new part state) }
        ensures part { OnOk result (self.new.second_part ≡ part) }
        ensures alone { self.new ≡ record self.old { second_part = self.new.second_part; second = self.new.second } }
        ensures stays { Stays ⟦<G as Coded>⟧.coding self.old (D.holds depot.old) self.new (D.holds depot.new) }
        ensures intact { (state : ℕ → G.Value) → Keeps ⟦<G as Coded>⟧.coding self.old (D.holds depot.old) t part state → IfErr result IsIntact }
        ensures fault { self.old.pinned ≤ part → IfSome (D.holds depot.old FileKind.Values) (λ file. FaultIs result (values_damage ⟦<G as Coded>⟧.coding self.old t part file)) }
        ensures broken { IfErr result (BrokenValues ⟦<G as Coded>⟧.coding self.old t part) }
        ensures untouched { part < self.old.pinned → depot.new ≡ depot.old }
        ensures in_memory { part < self.old.pinned → IsOk result }
        ensures taken { OnOk result (RoseBy (D.taken depot.old FileKind.Values) (D.taken depot.new FileKind.Values) (load_bytes ⟦<G as Coded>⟧.coding self.old part)) }
        ensures taken_most { D.taken depot.new FileKind.Values ≤ D.taken depot.old FileKind.Values + load_bytes ⟦<G as Coded>⟧.coding self.old part }
        ensures reads { Reads D.holds D.taken D.stored D.faults D.attached FileKind.Values depot.old depot.new }
        ensures cause { result ≡ Err FileFault.Depot → Rose (D.faults depot.old) (D.faults depot.new) }
    {
        self.second_part = part;
        self.second_turn = t;
        load_part(depot, self.parts, self.pinned, t, part, &mut self.second)
    }

    /// Sets the sums of both windows to that of nothing, and makes them those of a chunk, which has to be one of the cut.
    pub fn clear_sums(&mut self, part: u32)
        requires { part < self.old.cut.parts }
        ensures sums { (program : G) (state : ℕ → G.Value) → HasSums (G.model program) self.new part state [] }
        ensures next { (program : G) (state : ℕ → G.Value) → HasNext (G.model program) self.new part state [] }
        ensures alone { self.new ≡ record self.old { sums_part = part; sums = self.new.sums; next_sums = self.new.next_sums } }
        ensures stays { (told : Told) → Stays ⟦<G as Coded>⟧.coding self.old told self.new told }
    {
        self.sums_part = part;
        clear_sums(&mut self.sums);
        clear_sums(&mut self.next_sums);
    }

    /// Joins to the first sums what edges give by the values in the first window, in list order. Each source has to lie in
    /// the chunk that was brought into that window last, and each target in the chunk of the sums.
    pub fn feed_now(&mut self, program: &G, edges: &[Edge])
        requires sources { All (λ e. IsInPart self.old.cut.vertices (chunk_of self.old.cut) self.old.first_part e.source.0) edges.now }
        requires targets { All (λ e. IsInPart self.old.cut.vertices (chunk_of self.old.cut) self.old.sums_part e.target.0) edges.now }
        ensures fed { (i j : ℕ) (state : ℕ → G.Value) (before : List Edge) → IsFirst self.old i state → HasSums (G.model program.now) self.old j state before
            → HasSums (G.model program.now) self.new j state (before ++ edges.now) }
        ensures alone { self.new ≡ record self.old { sums = self.new.sums } }
        ensures stays { (told : Told) → Stays ⟦<G as Coded>⟧.coding self.old told self.new told }
    {
        let from = self.parts.range_of(self.first_part);
        let into = self.parts.range_of(self.sums_part);
        let values = shown(
            self.parts,
            self.pinned,
            self.first_part,
            self.first_turn,
            &self.first,
            &self.even,
            &self.odd,
        );
        feed_window(program, edges, from.first, values, into, &mut self.sums);
    }

    /// Joins to the second sums what edges give by the values in the second window, in list order. Each source has to lie in
    /// the chunk that was brought into that window last, and each target in the chunk of the sums.
    pub fn feed_ahead(&mut self, program: &G, edges: &[Edge])
        requires sources { All (λ e. IsInPart self.old.cut.vertices (chunk_of self.old.cut) self.old.second_part e.source.0) edges.now }
        requires targets { All (λ e. IsInPart self.old.cut.vertices (chunk_of self.old.cut) self.old.sums_part e.target.0) edges.now }
        ensures fed { (i j : ℕ) (state : ℕ → G.Value) (before : List Edge) → IsSecond self.old i state → HasNext (G.model program.now) self.old j state before
            → HasNext (G.model program.now) self.new j state (before ++ edges.now) }
        ensures alone { self.new ≡ record self.old { next_sums = self.new.next_sums } }
        ensures stays { (told : Told) → Stays ⟦<G as Coded>⟧.coding self.old told self.new told }
    {
        let from = self.parts.range_of(self.second_part);
        let into = self.parts.range_of(self.sums_part);
        let values = shown(
            self.parts,
            self.pinned,
            self.second_part,
            self.second_turn,
            &self.second,
            &self.even,
            &self.odd,
        );
        feed_window(
            program,
            edges,
            from.first,
            values,
            into,
            &mut self.next_sums,
        );
    }

    /// Brings the sums of a chunk in Sums into the first window over sums, and makes the windows those of the chunk, which has
    /// to be one of the cut. What the second window over sums holds stays.
    ///
    /// It needs an attached directory and, where the contents are told, Values and Sums of their sizes. It takes no memory and
    /// changes no file. `Damaged` comes exactly where a record of the chunk in Sums stands for no sum, at the first one, and
    /// `Depot` only where the depot's count of faults rose; after both it is left open what the window holds.
    pub fn load_early<D: Depot>(&mut self, depot: &mut D, part: u32) -> Result<(), FileFault>
        requires attached { IsSome (D.attached depot.old) }
        requires part { part < self.old.cut.parts }
        requires sized { IsSized ⟦<G as Coded>⟧.coding self.old (D.holds depot.old) }
        ensures sums { (program : G) (state : ℕ → G.Value) (edges : List Edge) → StoresEarly ⟦<G as Coded>⟧.coding (G.model program) self.old (D.holds depot.old) part state edges
            → OnOk result (HasSums (G.model program) self.new part state edges) }
        ensures alone { self.new ≡ record self.old { sums_part = part; sums = self.new.sums } }
        ensures stays { Stays ⟦<G as Coded>⟧.coding self.old (D.holds depot.old) self.new (D.holds depot.new) }
        ensures intact { (program : G) (state : ℕ → G.Value) (edges : List Edge) → StoresEarly ⟦<G as Coded>⟧.coding (G.model program) self.old (D.holds depot.old) part state edges → IfErr result IsIntact }
        ensures fault { IfSome (D.holds depot.old FileKind.Sums) (λ file. FaultIs result (sums_damage ⟦<G as Coded>⟧.coding self.old part file)) }
        ensures broken { IfErr result (BrokenSums ⟦<G as Coded>⟧.coding self.old part) }
        ensures taken { OnOk result (RoseBy (D.taken depot.old FileKind.Sums) (D.taken depot.new FileKind.Sums) (G.Sum.WIDTH * chunk_count self.old part)) }
        ensures taken_most { D.taken depot.new FileKind.Sums ≤ D.taken depot.old FileKind.Sums + G.Sum.WIDTH * chunk_count self.old part }
        ensures reads { Reads D.holds D.taken D.stored D.faults D.attached FileKind.Sums depot.old depot.new }
        ensures cause { result ≡ Err FileFault.Depot → Rose (D.faults depot.old) (D.faults depot.new) }
    {
        self.sums_part = part;
        load_early_part(depot, self.parts, part, &mut self.sums)
    }

    /// Writes the second sums into Sums. The chunk has to be that of the sums.
    ///
    /// It needs an attached directory and, where the contents are told, Values and Sums of their sizes. It takes no memory,
    /// and the windows stay as they are. `Depot` comes only where the depot's count of faults rose; `Damaged` never comes.
    /// After `Depot` the sums of other chunks are stored as before.
    pub fn store_early<D: Depot>(&mut self, depot: &mut D, part: u32) -> Result<(), FileFault>
        requires attached { IsSome (D.attached depot.old) }
        requires part { part ≡ self.old.sums_part }
        requires sized { IsSized ⟦<G as Coded>⟧.coding self.old (D.holds depot.old) }
        ensures stored_sums { IfSome (D.holds depot.old FileKind.Sums) (λ file. (program : G) (state : ℕ → G.Value) (edges : List Edge) → HasNext (G.model program) self.old part state edges
            → OnOk result (StoresEarly ⟦<G as Coded>⟧.coding (G.model program) self.new (D.holds depot.new) part state edges)) }
        ensures same { self.new ≡ self.old }
        ensures stays { StaysButSums ⟦<G as Coded>⟧.coding part self.old (D.holds depot.old) self.new (D.holds depot.new) }
        ensures sized { IsSized ⟦<G as Coded>⟧.coding self.new (D.holds depot.new) }
        ensures stored { OnOk result (RoseBy (D.stored depot.old FileKind.Sums) (D.stored depot.new FileKind.Sums) (G.Sum.WIDTH * chunk_count self.old part)) }
        ensures stored_most { D.stored depot.new FileKind.Sums ≤ D.stored depot.old FileKind.Sums + G.Sum.WIDTH * chunk_count self.old part }
        ensures stores { Stores D.holds D.taken D.stored D.faults D.attached FileKind.Sums depot.old depot.new }
        ensures intact { IfErr result (λ fault. fault ≡ FileFault.Depot) }
        ensures cause { result ≡ Err FileFault.Depot → Rose (D.faults depot.old) (D.faults depot.new) }
    {
        let range = self.parts.range_of(part);
        store_sums(
            depot,
            range,
            &self.next_sums[..(range.past - range.first) as usize],
        )
    }

    /// Sets the values at first of a chunk, by what the file Info says of each of its vertices, and keeps them as those after
    /// iteration 0. It answers whether some of them contributes. The first window over values shows them then; the second one
    /// stays as it is, except where it shows this very chunk.
    ///
    /// The chunk has to be one of the cut. It needs an attached directory and, where the contents are told, Info, Values and
    /// Sums of their sizes. It takes no memory. `Depot` comes only where the depot's count of faults rose; `Damaged` never
    /// comes. After `Depot` it is left open what the first window shows, and the values of other chunks are kept as before.
    pub fn set_initial<D: Depot>(
        &mut self,
        depot: &mut D,
        program: &G,
        part: u32,
    ) -> Result<bool, FileFault>
        requires attached { IsSome (D.attached depot.old) }
        requires part { part < self.old.cut.parts }
        requires sized { IsSized ⟦<G as Coded>⟧.coding self.old (D.holds depot.old) }
        requires info { IfSome (D.holds depot.old FileKind.Info) (λ file. length file ≡ 12 * self.old.cut.vertices) }
        ensures kept { IfSome (D.holds depot.old FileKind.Info) (λ file. OnOk result (Keeps ⟦<G as Coded>⟧.coding self.new (D.holds depot.new) 0 part (given_values (G.model program.now) file))) }
        ensures shown { IfSome (D.holds depot.old FileKind.Info) (λ file. OnOk result (IsFirst self.new part (given_values (G.model program.now) file))) }
        ensures hot { IfSome (D.holds depot.old FileKind.Info) (λ file. IfOk result (λ hot. hot ≡ list_any (λ v. (G.model program.now).contributes (given_values (G.model program.now) file v))
            (range_with_len (chunk_first self.old part) (chunk_count self.old part)))) }
        ensures part { OnOk result (self.new.first_part ≡ part) }
        ensures by_window { (state : ℕ → G.Value) → IsFirst self.new part state
            → IfOk result (λ hot. hot ≡ list_any (λ v. (G.model program.now).contributes (state v)) (range_with_len (chunk_first self.old part) (chunk_count self.old part))) }
        ensures alone { self.new ≡ record self.old { first_part = self.new.first_part; first = self.new.first; second = self.new.second; even = self.new.even } }
        ensures second { self.old.second_part ≢ part → self.new.second ≡ self.old.second }
        ensures stays { StaysBut ⟦<G as Coded>⟧.coding 0 part self.old (D.holds depot.old) self.new (D.holds depot.new) }
        ensures sized { IsSized ⟦<G as Coded>⟧.coding self.new (D.holds depot.new) }
        ensures taken { OnOk result (RoseBy (D.taken depot.old FileKind.Info) (D.taken depot.new FileKind.Info) (12 * chunk_count self.old part)) }
        ensures taken_most { D.taken depot.new FileKind.Info ≤ D.taken depot.old FileKind.Info + 12 * chunk_count self.old part }
        ensures stored { OnOk result (RoseBy (D.stored depot.old FileKind.Values) (D.stored depot.new FileKind.Values) (load_bytes ⟦<G as Coded>⟧.coding self.old part)) }
        ensures stored_most { D.stored depot.new FileKind.Values ≤ D.stored depot.old FileKind.Values + load_bytes ⟦<G as Coded>⟧.coding self.old part }
        ensures moves { Moves D.holds D.taken D.stored D.faults D.attached FileKind.Info FileKind.Values depot.old depot.new }
        ensures intact { IfErr result (λ fault. fault ≡ FileFault.Depot) }
        ensures cause { result ≡ Err FileFault.Depot → Rose (D.faults depot.old) (D.faults depot.new) }
    {
        self.first_part = part;
        self.first_turn = 0;
        if part < self.pinned {
            let range = self.parts.range_of(part);
            return initial_in_memory(depot, program, range, &mut self.even);
        }
        initial_in_file(depot, program, self.parts, part, &mut self.first)
    }

    /// Makes the values of a chunk after iteration t of those after the one before and of the first sums, which have to be
    /// those of the chunk, and keeps them where none of its vertices is over. It answers how they came out. The first window
    /// over values shows the values before then, and what the second one shows is left open. Of a chunk in memory the values
    /// before are read and those after t are written where they lie.
    ///
    /// t has to be at least 1. It needs an attached directory and, where the contents are told, Values and Sums of their
    /// sizes. It takes no memory. Where a vertex is over, no file changes. `Damaged` comes exactly where a record of the chunk
    /// in Values, after the iteration before, stands for no value, at the first one, and `Depot` only where the depot's count
    /// of faults rose; after both it is left open what the windows over values show, and the other values and the sums are
    /// kept as before.
    pub fn close<D: Depot>(
        &mut self,
        depot: &mut D,
        program: &G,
        t: u32,
        part: u32,
    ) -> Result<Finish, FileFault>
        requires attached { IsSome (D.attached depot.old) }
        requires some { 0 < t }
        requires part { part ≡ self.old.sums_part }
        requires sized { IsSized ⟦<G as Coded>⟧.coding self.old (D.holds depot.old) }
        ensures end { (u : ℕ) (state : ℕ → G.Value) (edges : List Edge) → t ≡ u + 1 → Keeps ⟦<G as Coded>⟧.coding self.old (D.holds depot.old) u part state → HasSums (G.model program.now) self.old part state edges
            → IfOk result (λ end. end ≡ finish_of (G.model program.now) state (sum_at (G.model program.now) edges state) (chunk_first self.old part) (chunk_count self.old part)) }
        ensures kept { (u : ℕ) (state : ℕ → G.Value) (edges : List Edge) → t ≡ u + 1 → Keeps ⟦<G as Coded>⟧.coding self.old (D.holds depot.old) u part state → HasSums (G.model program.now) self.old part state edges
            → IfOk result (λ end. end.over ≡ None → Keeps ⟦<G as Coded>⟧.coding self.new (D.holds depot.new) t part (next_values (G.model program.now) edges state)) }
        ensures shown { (u : ℕ) (state : ℕ → G.Value) → t ≡ u + 1 → Keeps ⟦<G as Coded>⟧.coding self.old (D.holds depot.old) u part state → OnOk result (IsFirst self.new part state) }
        ensures part { OnOk result (self.new.first_part ≡ part) }
        ensures by_window { (state : ℕ → G.Value) (sum : ℕ → G.Sum) → IsFirst self.new part state → IsChunk sum (chunk_first self.old part) (take (chunk_count self.old part) self.old.sums)
            → IfOk result (λ end. end ≡ finish_of (G.model program.now) state sum (chunk_first self.old part) (chunk_count self.old part)) }
        ensures alone { self.new ≡ record self.old { first_part = self.new.first_part; first = self.new.first; second_part = self.new.second_part; second = self.new.second; even = self.new.even; odd = self.new.odd } }
        ensures stays { StaysBut ⟦<G as Coded>⟧.coding t part self.old (D.holds depot.old) self.new (D.holds depot.new) }
        ensures sized { IsSized ⟦<G as Coded>⟧.coding self.new (D.holds depot.new) }
        ensures few { IfOk result (λ end. end.moved ≤ chunk_count self.old part) }
        ensures over { IfOk result (λ end. IfSome end.over (λ vertex. IsInPart self.old.cut.vertices (chunk_of self.old.cut) part vertex.0
            × IsOver G.Value.is_in_range G.Sum.is_in_range (G.model program.now) vertex.0)) }
        ensures unkept { IfOk result (λ end. IfSome end.over (λ vertex. Reads D.holds D.taken D.stored D.faults D.attached FileKind.Values depot.old depot.new)) }
        ensures intact { (u : ℕ) (state : ℕ → G.Value) → t ≡ u + 1 → Keeps ⟦<G as Coded>⟧.coding self.old (D.holds depot.old) u part state → IfErr result IsIntact }
        ensures fault { self.old.pinned ≤ part → IfSome (D.holds depot.old FileKind.Values) (λ file. FaultIs result (values_damage ⟦<G as Coded>⟧.coding self.old (t - 1) part file)) }
        ensures broken { IfErr result (BrokenValues ⟦<G as Coded>⟧.coding self.old (t - 1) part) }
        ensures untouched { part < self.old.pinned → depot.new ≡ depot.old }
        ensures in_memory { part < self.old.pinned → IsOk result }
        ensures taken { OnOk result (RoseBy (D.taken depot.old FileKind.Values) (D.taken depot.new FileKind.Values) (load_bytes ⟦<G as Coded>⟧.coding self.old part)) }
        ensures taken_most { D.taken depot.new FileKind.Values ≤ D.taken depot.old FileKind.Values + load_bytes ⟦<G as Coded>⟧.coding self.old part }
        ensures stored { IfOk result (λ end. end.over ≡ None → RoseBy (D.stored depot.old FileKind.Values) (D.stored depot.new FileKind.Values) (load_bytes ⟦<G as Coded>⟧.coding self.old part)) }
        ensures stored_most { D.stored depot.new FileKind.Values ≤ D.stored depot.old FileKind.Values + load_bytes ⟦<G as Coded>⟧.coding self.old part }
        ensures moves { Moves D.holds D.taken D.stored D.faults D.attached FileKind.Values FileKind.Values depot.old depot.new }
        ensures cause { result ≡ Err FileFault.Depot → Rose (D.faults depot.old) (D.faults depot.new) }
    {
        self.first_part = part;
        self.first_turn = t - 1;
        self.second_part = part;
        self.second_turn = t;
        if part < self.pinned {
            let range = self.parts.range_of(part);
            let even = &mut self.even;
            return Ok(close_in_memory(program, t, range, &self.sums, even, &mut self.odd));
        }
        close_in_file(
            depot,
            program,
            self.parts,
            t,
            part,
            &self.sums,
            &mut self.first,
            &mut self.second,
        )
    }
}
