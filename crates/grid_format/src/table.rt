// The table of a grid's blocks.
ghost use Rattle.std.specs.Prelude.{◌≡◌, ◌+◌, ◌*◌, ◌^◌, ◌<◌, ◌≤◌, ◌++◌, [], ℕ, List, Some, None, Ok, Err, length, sum, vec_len, vec_capacity, IfOk, IfErr, IsErrOf, IsSome, OnOk};
ghost use Rattle.lumos_depot.specs.Causes.{Rose};
ghost use Rattle.lumos_depot.specs.declared.depot.FileKind.{FileKind};
ghost use Rattle.grid_format.specs.Checks.{GridFiles, added, counted, head_of};
ghost use Rattle.grid_format.specs.Heads.{IsHead, counts_of, meta_length, numbers};
ghost use Rattle.grid_format.specs.Outside.{Holds};
ghost use Rattle.lumos_depot.specs.Steps.{Reads};
ghost use Rattle.grid_format.specs.Tables.{ArePlaces, AreStarts, IfDamaged, IsWrongCount, OnDepotFault, block_place, count_at, primary_place_of, secondary_place_of};

use crate::bytes::number_of_eight;
use crate::counts::{add_column, reach};
use crate::head::GridInfo;
use crate::reads::fill;
use lumos_depot::Depot;
use std::alloc::Global;
use std::marker::Model;

/// Why the table of a grid's blocks wasn't read.
#[derive(Clone, Copy, Debug, PartialEq, Eq, Drop)]
pub enum TableFault {
    /// The depot failed.
    Depot,
    /// The counts that were read don't add up to the edges, though they did when the head was read.
    Damaged { place: u64, found: u64 },
    /// Want of memory.
    NoMemory,
}

/// How many edges each block of a grid has, and where it begins. Contracts see the number of parts and the counts in
/// column order.
#[derive(Drop)]
pub struct BlockTable {
    parts: u32,
    counts: Vec<u64>,
    places: Vec<u64>,
    low_starts: Vec<u64>,
}

impl Model for BlockTable {
    ghost use Rattle.grid_format.specs.Tables.{BlockCounts, IsTable};

    ghost Value = { BlockCounts };

    ghost view = { λ t. record { parts = t.parts; counts = t.counts.items } };

    ghost invariant = { λ t. IsTable t.parts t.counts.items t.places.items t.low_starts.items };
}

// Puts the counts in a column's bytes behind those that are there. There has to be room for them.
fn push_column(counts: &mut Vec<u64>, bytes: &[u8], parts: usize)
    requires whole { length bytes.now ≡ 8 * parts }
    requires room { vec_len counts.old + parts ≤ vec_capacity counts.old }
    ensures items { counts.new.items ≡ counts.old.items ++ numbers 0 parts bytes.now }
    ensures len { vec_len counts.new ≡ vec_len counts.old + parts }
    ensures room { vec_capacity counts.old ≤ vec_capacity counts.new }
{
    for i in 0..parts {
        let Ok(()) = counts.push(number_of_eight(bytes, 8 * i)) else {
            unreachable!()
        };
    }
}

// Puts the places in Primary where the blocks with these numbers of edges begin into an empty list, which has room for
// them.
fn push_places(places: &mut Vec<u64>, counts: &[u64])
    requires sum { sum counts.now ≤ 2147483648 }
    requires none { vec_len places.old ≡ 0 }
    requires room { length counts.now ≤ vec_capacity places.old }
    ensures { ArePlaces counts.now places.new.items }
{
    let mut total = 0;
    for count in counts {
        let Ok(()) = places.push(12 * total) else {
            unreachable!()
        };
        total += *count;
    }
}

// Adds counts up.
fn total_of(counts: &[u64]) -> u64
    requires { sum counts.now < 2 ^ 64 }
    ensures { result ≡ sum counts.now }
{
    counts.iter().sum()
}

// Puts the places in Secondary where the columns of blocks with these numbers of edges begin into an empty list, which
// has room for them.
fn push_low_starts(starts: &mut Vec<u64>, counts: &[u64], parts: usize)
    requires blocks { length counts.now ≡ parts * parts }
    requires few_parts { parts ≤ 256 }
    requires sum { sum counts.now ≤ 2147483648 }
    requires none { vec_len starts.old ≡ 0 }
    requires room { parts ≤ vec_capacity starts.old }
    ensures { AreStarts (record { parts = parts; counts = counts.now }) starts.new.items }
{
    let mut total = 0;
    for j in 0..parts {
        let Ok(()) = starts.push(12 * total) else {
            unreachable!()
        };
        let first = j * parts;
        total += total_of(&counts[first + j..first + parts]);
    }
}

// How many blocks stand before block (i,j).
fn place_of(parts: u32, i: u32, j: u32) -> usize
    requires row { i < parts }
    requires column { j < parts }
    ensures value { result ≡ block_place parts i j }
    ensures below { result < parts * parts }
{
    j as usize * parts as usize + i as usize
}

// Reads a column of counts, behind so many others in Meta, puts them behind those that are there, and adds them to a
// total.
fn load_column<D: Depot>(
    depot: &mut D,
    edges: u64,
    first: usize,
    before: u64,
    column: &mut [u8],
    parts: usize,
    counts: &mut Vec<u64>,
) -> Result<u64, TableFault>
    requires attached { IsSome (D.attached depot.old) }
    requires whole { length column.old ≡ 8 * parts }
    requires few { first + parts ≤ 65536 }
    requires inside { (meta : List ℕ) → D.holds depot.old FileKind.Meta ≡ Some meta → 32 + 8 * first + 8 * parts ≤ length meta }
    requires fits { before ≤ edges }
    requires room { vec_len counts.old + parts ≤ vec_capacity counts.old }
    ensures told { IfOk result (λ total. (meta : List ℕ) → D.holds depot.old FileKind.Meta ≡ Some meta
        → (added edges (32 + 8 * first) before (numbers (32 + 8 * first) parts meta) ≡ Ok total)
        × (counts.new.items ≡ counts.old.items ++ numbers (32 + 8 * first) parts meta)) }
    ensures len { OnOk result (vec_len counts.new ≡ vec_len counts.old + parts) }
    ensures room { OnOk result (vec_capacity counts.old ≤ vec_capacity counts.new) }
    ensures sum { IfOk result (λ total. sum counts.new.items + before ≡ sum counts.old.items + total) }
    ensures fits { IfOk result (λ total. total ≤ edges) }
    ensures cause { IfErr result (λ fault. OnDepotFault fault (Rose (D.faults depot.old) (D.faults depot.new))) }
    ensures damaged { IfErr result (λ fault. IfDamaged fault (λ p n.
        (0 < n) × ((k : ℕ) × (k < parts) × (p ≡ 32 + 8 * first + 8 * k)) × ((meta : List ℕ) → D.holds depot.old FileKind.Meta ≡ Some meta
        → added edges (32 + 8 * first) before (numbers (32 + 8 * first) parts meta) ≡ Err (record { place = p; found = n })))) }
    ensures memory { IsErrOf result TableFault.NoMemory → ⊥ }
    ensures reads { Reads D.holds D.taken D.stored D.faults D.attached FileKind.Meta depot.old depot.new }
{
    let place = 32 + 8 * first as u64;
    let Ok(()) = fill(depot, place, column) else {
        return Err(TableFault::Depot);
    };
    let total = match add_column(edges, place, before, column, parts) {
        Ok(total) => total,
        Err(mismatch) => {
            return Err(TableFault::Damaged {
                place: mismatch.place,
                found: mismatch.found,
            });
        }
    };
    push_column(counts, column, parts);
    Ok(total)
}

// Reads the counts of all columns, which have to add up to the edges. The buffer has room for one column.
fn load_columns<D: Depot>(
    depot: &mut D,
    info: GridInfo,
    column: &mut [u8],
    counts: &mut Vec<u64>,
) -> Result<(), TableFault>
    requires attached { IsSome (D.attached depot.old) }
    requires head { IsHead info }
    requires whole { length column.old ≡ 8 * info.parts }
    requires inside { (meta : List ℕ) → D.holds depot.old FileKind.Meta ≡ Some meta → length meta ≡ meta_length info.parts }
    requires none { counts.old.items ≡ [] }
    requires room { vec_len counts.old + info.parts * info.parts ≤ vec_capacity counts.old }
    ensures told { OnOk result ((meta : List ℕ) → D.holds depot.old FileKind.Meta ≡ Some meta → counts.new.items ≡ counts_of info.parts meta) }
    ensures len { OnOk result (length counts.new.items ≡ info.parts * info.parts) }
    ensures sum { OnOk result (sum counts.new.items ≡ info.edges) }
    ensures cause { IfErr result (λ fault. OnDepotFault fault (Rose (D.faults depot.old) (D.faults depot.new))) }
    ensures damaged { IfErr result (λ fault. IfDamaged fault (λ p n.
        IsWrongCount info p n × ((meta : List ℕ) → D.holds depot.old FileKind.Meta ≡ Some meta
        → counted info.edges (counts_of info.parts meta) ≡ Err (record { place = p; found = n })))) }
    ensures memory { IsErrOf result TableFault.NoMemory → ⊥ }
    ensures reads { Reads D.holds D.taken D.stored D.faults D.attached FileKind.Meta depot.old depot.new }
{
    let parts = info.parts as usize;
    let mut total = 0;
    for j in 0..parts {
        total = load_column(depot, info.edges, j * parts, total, column, parts, counts)?;
    }
    match reach(info.edges, total) {
        Ok(()) => Ok(()),
        Err(mismatch) => Err(TableFault::Damaged {
            place: mismatch.place,
            found: mismatch.found,
        }),
    }
}

impl BlockTable {
    /// Reads how many edges each block of a grid has, where the files were found to be a grid's with this head. `Depot`
    /// comes only where the depot's count of faults rose. `NoMemory` is want of memory, before the depot is called.
    /// `Damaged` never comes over a depot that tells its files: it carries the place of one of the counts, or 24, and the
    /// number there with which the counts that were read don't add up to the edges. No file changes. The format is our own.
    pub fn read<D: Depot>(
        alloc: Global,
        depot: &mut D,
        info: GridInfo,
    ) -> Result<BlockTable, TableFault>
        requires attached { IsSome (D.attached depot.old) }
        requires head { IsHead info }
        requires accepted { (files : GridFiles) → Holds (D.holds depot.old) files → head_of files ≡ Ok info }
        ensures told { IfOk result (λ table. (files : GridFiles) → Holds (D.holds depot.old) files → table.counts ≡ counts_of info.parts files.meta) }
        ensures parts { IfOk result (λ table. table.parts ≡ info.parts) }
        ensures len { IfOk result (λ table. length table.counts ≡ info.parts * info.parts) }
        ensures sum { IfOk result (λ table. sum table.counts ≡ info.edges) }
        ensures cause { IfErr result (λ fault. OnDepotFault fault (Rose (D.faults depot.old) (D.faults depot.new))) }
        ensures damaged { IfErr result (λ fault. IfDamaged fault (λ p n.
            IsWrongCount info p n × (D.holds depot.old FileKind.Meta ≡ None))) }
        ensures memory { IsErrOf result TableFault.NoMemory → depot.new ≡ depot.old }
        ensures reads { Reads D.holds D.taken D.stored D.faults D.attached FileKind.Meta depot.old depot.new }
    {
        let parts = info.parts as usize;
        let Ok(mut counts) = Vec::with_capacity(alloc, parts * parts) else {
            return Err(TableFault::NoMemory);
        };
        let Ok(mut places) = Vec::with_capacity(alloc, parts * parts) else {
            return Err(TableFault::NoMemory);
        };
        let Ok(mut low_starts) = Vec::with_capacity(alloc, parts) else {
            return Err(TableFault::NoMemory);
        };
        let mut column = [0; 2048];
        load_columns(depot, info, &mut column[..8 * parts], &mut counts)?;
        push_places(&mut places, &counts);
        push_low_starts(&mut low_starts, &counts, parts);
        Ok(BlockTable {
            parts: info.parts,
            counts,
            places,
            low_starts,
        })
    }

    /// How many edges the block from part i into part j has, in constant time. Both have to be below the number of
    /// parts.
    pub fn count(&self, i: u32, j: u32) -> u64
        requires row { i < self.now.parts }
        requires column { j < self.now.parts }
        ensures { result ≡ count_at self.now i j }
    {
        self.counts[place_of(self.parts, i, j)]
    }

    /// Where in Primary the block from part i into part j begins, in constant time: 12 bytes for each edge of the
    /// blocks before it in column order. Both have to be below the number of parts.
    pub fn primary_place(&self, i: u32, j: u32) -> u64
        requires row { i < self.now.parts }
        requires column { j < self.now.parts }
        ensures { result ≡ primary_place_of self.now i j }
    {
        self.places[place_of(self.parts, i, j)]
    }

    /// Where in Secondary the block from part i into part j begins, in constant time: 12 bytes for each edge of the
    /// blocks on the diagonal or below it that stand before it in column order. It has to be such a block itself, so j is
    /// at most i, and i below the number of parts.
    pub fn secondary_place(&self, i: u32, j: u32) -> u64
        requires row { i < self.now.parts }
        requires low { j ≤ i }
        ensures { result ≡ secondary_place_of self.now i j }
    {
        let first = self.primary_place(j, j);
        let below = self.primary_place(i, j) - first;
        self.low_starts[j as usize] + below
    }
}
