// The head of a grid.
ghost use Rattle.std.specs.Prelude.{◌≡◌, ◌≢◌, ◌+◌, ◌*◌, ◌^◌, ◌<◌, ◌≤◌, ℕ, List, Some, Ok, length, sum, IfOk, IfErr, IsSome, OnOk};
ghost use Rattle.lumos_depot.specs.Causes.{Rose};
ghost use Rattle.lumos_depot.specs.Files.{range_at};
ghost use Rattle.lumos_depot.specs.declared.depot.FileKind.{FileKind};
ghost use Rattle.grid_format.specs.Checks.{GridFiles, added, counted, fields_of, files_sized, head_of, in_meta, judged, sized, table_of};
ghost use Rattle.grid_format.specs.Heads.{IsHead, counts_of, head_at, meta_length, number_at, numbers};
ghost use Rattle.grid_format.specs.Outside.{DepotOwes, FaultGives, Gives, Holds, IsWrongLength, Shows};
ghost use Rattle.lumos_depot.specs.Steps.{Reads};
ghost use Rattle.grid_format.specs.Tables.{low_edges};

use crate::bytes::{begins_grid, number_of_eight, number_of_four};
use crate::counts::{add_column, reach, total_from};
use crate::reads::{fill, length_of};
use lumos_depot::{Depot, FileKind};

/// The numbers in the head of a grid. The format is our own.
#[derive(Clone, Copy, Debug, PartialEq, Eq, Drop)]
pub struct GridInfo {
    /// The version of the format: 1.
    pub version: u32,
    /// The number of parts, from 1 to 256.
    pub parts: u32,
    /// The number of vertices, at most 268435456.
    pub vertices: u32,
    /// The number of edges, at most 2147483648.
    pub edges: u64,
}

/// Why files aren't those of a grid, or why that isn't known. The checks and their order are our own.
#[derive(Clone, Copy, Debug, PartialEq, Eq, Drop)]
pub enum GridFault {
    /// Meta doesn't begin with the eight bytes of a grid.
    NotAGrid,
    /// The format has another version.
    WrongVersion {
        found: u32,
    },
    /// A file has another length than the head wants, or Meta is too short for a head.
    BadLength {
        file: FileKind,
        want: u64,
        found: u64,
    },
    /// A number of Meta is outside its range, or the counts of the blocks don't add up to the edges.
    BadMeta {
        place: u64,
        found: u64,
    },
    /// The depot failed.
    Depot,
}

// Judges the numbers of a head, and the word between them that has to be 0, in the order of their places.
fn judge(info: GridInfo, word: u32) -> Result<GridInfo, GridFault>
    ensures value { result ≡ judged info word }
    ensures version { IfOk result (λ info. info.version ≡ 1) }
    ensures limits { IfOk result IsHead }
    ensures shown { IfErr result Shows }
{
    if info.version != 1 {
        return Err(GridFault::WrongVersion {
            found: info.version,
        });
    }
    if info.parts == 0 || info.parts > 256 {
        return Err(GridFault::BadMeta {
            place: 12,
            found: info.parts as u64,
        });
    }
    if info.vertices > 268435456 {
        return Err(GridFault::BadMeta {
            place: 16,
            found: info.vertices as u64,
        });
    }
    if word != 0 {
        return Err(GridFault::BadMeta {
            place: 20,
            found: word as u64,
        });
    }
    if info.edges > 2147483648 {
        return Err(GridFault::BadMeta {
            place: 24,
            found: info.edges,
        });
    }
    Ok(info)
}

// The head in the 24 bytes behind the magic.
fn judge_bytes(bytes: &[u8]) -> Result<GridInfo, GridFault>
    requires { length bytes.now ≡ 24 }
    ensures value { result ≡ judged (head_at 0 bytes.now) (number_at 4 12 bytes.now) }
    ensures version { IfOk result (λ info. info.version ≡ 1) }
    ensures limits { IfOk result IsHead }
    ensures shown { IfErr result Shows }
{
    let info = GridInfo {
        version: number_of_four(bytes, 0),
        parts: number_of_four(bytes, 4),
        vertices: number_of_four(bytes, 8),
        edges: number_of_eight(bytes, 16),
    };
    judge(info, number_of_four(bytes, 12))
}

// The head of a Meta of so many bytes.
fn read_fields<D: Depot>(depot: &mut D, size: u64) -> Result<GridInfo, GridFault>
    requires attached { IsSome (D.attached depot.old) }
    requires size { (meta : List ℕ) → D.holds depot.old FileKind.Meta ≡ Some meta → length meta ≡ size }
    ensures told { (meta : List ℕ) → D.holds depot.old FileKind.Meta ≡ Some meta → Gives result (fields_of meta) }
    ensures version { IfOk result (λ info. info.version ≡ 1) }
    ensures limits { IfOk result IsHead }
    ensures shown { IfErr result Shows }
    ensures reads { Reads D.holds D.taken D.stored D.faults D.attached FileKind.Meta depot.old depot.new }
    ensures cause { DepotOwes result (Rose (D.faults depot.old) (D.faults depot.new)) }
{
    if size < 8 {
        return Err(GridFault::NotAGrid);
    }
    let mut start = [0; 8];
    let Ok(()) = fill(depot, 0, &mut start) else {
        return Err(GridFault::Depot);
    };
    if !begins_grid(&start) {
        return Err(GridFault::NotAGrid);
    }
    if size < 32 {
        return Err(GridFault::BadLength {
            file: FileKind::Meta,
            want: 32,
            found: size,
        });
    }
    let mut bytes = [0; 24];
    let Ok(()) = fill(depot, 8, &mut bytes) else {
        return Err(GridFault::Depot);
    };
    judge_bytes(&bytes)
}

// A file has so many bytes.
fn check_size<D: Depot>(depot: &mut D, kind: FileKind, want: u64) -> Result<(), GridFault>
    requires attached { IsSome (D.attached depot.old) }
    requires wanted { (found : ℕ) → found ≢ want → IsWrongLength kind want found }
    ensures told { (file : List ℕ) → D.holds depot.old kind ≡ Some file → Gives result (sized kind want (length file)) }
    ensures shown { IfErr result Shows }
    ensures reads { Reads D.holds D.taken D.stored D.faults D.attached FileKind.Meta depot.old depot.new }
    ensures cause { DepotOwes result (Rose (D.faults depot.old) (D.faults depot.new)) }
{
    let Ok(found) = length_of(depot, kind) else {
        return Err(GridFault::Depot);
    };
    if found != want {
        return Err(GridFault::BadLength {
            file: kind,
            want,
            found,
        });
    }
    Ok(())
}

// The files behind a head, and behind counts with so many edges on the diagonal and below it, have their lengths.
fn check_files<D: Depot>(depot: &mut D, info: GridInfo, low: u64) -> Result<(), GridFault>
    requires attached { IsSome (D.attached depot.old) }
    requires head { IsHead info }
    requires few { low ≤ info.edges }
    requires low { (files : GridFiles) → Holds (D.holds depot.old) files → low ≡ low_edges (table_of info.parts files.meta) info.parts }
    ensures told { (files : GridFiles) → Holds (D.holds depot.old) files → Gives result (files_sized info files) }
    ensures shown { IfErr result Shows }
    ensures reads { Reads D.holds D.taken D.stored D.faults D.attached FileKind.Meta depot.old depot.new }
    ensures cause { DepotOwes result (Rose (D.faults depot.old) (D.faults depot.new)) }
{
    check_size(depot, FileKind::Primary, 12 * info.edges)?;
    check_size(depot, FileKind::Secondary, 12 * low)?;
    check_size(depot, FileKind::Info, 12 * u64::from(info.vertices))
}

// Reads a column of counts, behind so many others in Meta, and adds them to a total.
fn check_column<D: Depot>(
    depot: &mut D,
    edges: u64,
    first: usize,
    before: u64,
    column: &mut [u8],
    parts: usize,
) -> Result<u64, GridFault>
    requires attached { IsSome (D.attached depot.old) }
    requires whole { length column.old ≡ 8 * parts }
    requires few { first + parts ≤ 65536 }
    requires inside { (meta : List ℕ) → D.holds depot.old FileKind.Meta ≡ Some meta → 32 + 8 * first + 8 * parts ≤ length meta }
    requires fits { before ≤ edges }
    ensures told { (meta : List ℕ) → D.holds depot.old FileKind.Meta ≡ Some meta
        → Gives result (in_meta (added edges (32 + 8 * first) before (numbers (32 + 8 * first) parts meta))) }
    ensures fits { IfOk result (λ total. total ≤ edges) }
    ensures column { OnOk result ((meta : List ℕ) → D.holds depot.old FileKind.Meta ≡ Some meta → column.new ≡ range_at (32 + 8 * first) (8 * parts) meta) }
    ensures total { IfOk result (λ total. total ≡ before + sum (numbers 0 parts column.new)) }
    ensures shown { IfErr result Shows }
    ensures reads { Reads D.holds D.taken D.stored D.faults D.attached FileKind.Meta depot.old depot.new }
    ensures cause { DepotOwes result (Rose (D.faults depot.old) (D.faults depot.new)) }
{
    let place = 32 + 8 * first as u64;
    let Ok(()) = fill(depot, place, column) else {
        return Err(GridFault::Depot);
    };
    match add_column(edges, place, before, column, parts) {
        Ok(total) => Ok(total),
        Err(mismatch) => Err(GridFault::BadMeta {
            place: mismatch.place,
            found: mismatch.found,
        }),
    }
}

// The counts of all columns add up to the edges. Answers how many of these the blocks on the diagonal and below it have.
// The buffer has room for one column.
fn check_columns<D: Depot>(
    depot: &mut D,
    info: GridInfo,
    column: &mut [u8],
) -> Result<u64, GridFault>
    requires attached { IsSome (D.attached depot.old) }
    requires head { IsHead info }
    requires whole { length column.old ≡ 8 * info.parts }
    requires inside { (meta : List ℕ) → D.holds depot.old FileKind.Meta ≡ Some meta → length meta ≡ meta_length info.parts }
    ensures told { IfOk result (λ low. (meta : List ℕ) → D.holds depot.old FileKind.Meta ≡ Some meta
        → (in_meta (counted info.edges (counts_of info.parts meta)) ≡ Ok tt) × (low ≡ low_edges (table_of info.parts meta) info.parts)) }
    ensures few { IfOk result (λ low. low ≤ info.edges) }
    ensures failed { IfErr result (λ fault. (meta : List ℕ) → D.holds depot.old FileKind.Meta ≡ Some meta
        → FaultGives fault (in_meta (counted info.edges (counts_of info.parts meta)))) }
    ensures shown { IfErr result Shows }
    ensures reads { Reads D.holds D.taken D.stored D.faults D.attached FileKind.Meta depot.old depot.new }
    ensures cause { DepotOwes result (Rose (D.faults depot.old) (D.faults depot.new)) }
{
    let parts = info.parts as usize;
    let mut total = 0;
    let mut low = 0;
    for j in 0..parts {
        total = check_column(depot, info.edges, j * parts, total, column, parts)?;
        low += total_from(j, column, parts);
    }
    match reach(info.edges, total) {
        Ok(()) => Ok(low),
        Err(mismatch) => Err(GridFault::BadMeta {
            place: mismatch.place,
            found: mismatch.found,
        }),
    }
}

/// Reads the head of the grid in the attached directory, after the checks of Meta and of the lengths of Primary,
/// Secondary and Info, in their order, and answers the first fault. Primary has 12 bytes for each edge, Secondary 12 for
/// each edge of the blocks on the diagonal and below it, Info 12 for each vertex. It takes no memory and changes no file.
/// The format and the order are our own.
///
/// `NotAGrid`: Meta doesn't begin with the eight bytes of a grid. `BadLength`: Meta has fewer than 32 bytes, or not 32
/// and 8 for each block, or another file not its length. `WrongVersion`: the version isn't 1. `BadMeta`: the number at
/// a place of Meta is outside its range, or the counts pass the edges there, or (at 24) are fewer than the edges.
/// `Depot` comes only where the depot's count of faults rose, at the place of the checks where it failed. Over a depot
/// that tells nothing a fault shows by its numbers that what was read is no grid's: it names a place that a grid within
/// the limits has, or one of the four files with a length that it may have there.
pub fn read_head<D: Depot>(depot: &mut D) -> Result<GridInfo, GridFault>
    requires { IsSome (D.attached depot.old) }
    ensures told { (files : GridFiles) → Holds (D.holds depot.old) files → Gives result (head_of files) }
    ensures version { IfOk result (λ info. info.version ≡ 1) }
    ensures limits { IfOk result IsHead }
    ensures shown { IfErr result Shows }
    ensures reads { Reads D.holds D.taken D.stored D.faults D.attached FileKind.Meta depot.old depot.new }
    ensures cause { DepotOwes result (Rose (D.faults depot.old) (D.faults depot.new)) }
{
    let Ok(size) = length_of(depot, FileKind::Meta) else {
        return Err(GridFault::Depot);
    };
    let info = read_fields(depot, size)?;
    let parts = info.parts as usize;
    let want = 32 + 8 * (parts * parts) as u64;
    if size != want {
        return Err(GridFault::BadLength {
            file: FileKind::Meta,
            want,
            found: size,
        });
    }
    let mut column = [0; 2048];
    let low = check_columns(depot, info, &mut column[..8 * parts])?;
    check_files(depot, info, low)?;
    Ok(info)
}
