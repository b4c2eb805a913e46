// The head of a grid and its blocks' counts, written.
ghost use Rattle.std.specs.Prelude.{◌≡◌, ◌≤◌, ◌<◌, ◌⊎◌, ◌+◌, ◌*◌, ◌^◌, ◌++◌, [], ℕ, nat_eq, false, length, sum, IfSome, IsErrOf, IsSome, OnOk, OnErr, Err, Option, replicate, take, ◌-◌};
ghost use Rattle.std.specs.List.{flat_map, starts_with};
ghost use Rattle.std.specs.Option.{option_map};
ghost use Rattle.lumos_depot.specs.Files.{HasDepotCause, overwritten};
ghost use Rattle.lumos_depot.specs.declared.depot.FileKind.{FileKind};
ghost use Rattle.grid_format.specs.Heads.{IsHead, field, head_fields, magic, meta_bytes, meta_length};
ghost use Rattle.grid_format.specs.Writing.{IsMeta, MarkedWhole, Unmarked, unfinished};
ghost use Rattle.lumos_depot.specs.Steps.{Stores};

use crate::bytes::{eight_bytes, four_bytes, magic_bytes, put};
use crate::head::GridInfo;
use lumos_depot::{Depot, DepotFault, FileKind};

// The head behind the magic.
#[tactic(auto, unfolding(crate::specs::Heads::field))]
fn head_bytes(info: GridInfo) -> [u8; 24]
    ensures { result ≡ head_fields info }
{
    let mut bytes = [0; 24];
    put(&mut bytes, 0, &four_bytes(info.version));
    put(&mut bytes, 4, &four_bytes(info.parts));
    put(&mut bytes, 8, &four_bytes(info.vertices));
    put(&mut bytes, 12, &four_bytes(0));
    put(&mut bytes, 16, &eight_bytes(info.edges));
    bytes
}

// Fills a column's bytes with its counts.
fn put_column(column: &mut [u8], counts: &[u64])
    requires { length column.old ≡ 8 * length counts.now }
    ensures { column.new ≡ flat_map (field 8) counts.now }
{
    for i in 0..counts.len() {
        put(column, 8 * i, &eight_bytes(counts[i]));
    }
}

// Writes bytes of Meta behind the first eight.
fn write_behind<D: Depot>(depot: &mut D, place: u64, bytes: &[u8]) -> Result<(), DepotFault>
    requires attached { IsSome (D.attached depot.old) }
    requires inside { IfSome (D.holds depot.old FileKind.Meta) (λ meta. place + length bytes.now ≤ length meta) }
    requires behind { 8 ≤ place }
    requires unmarked { Unmarked (D.holds depot.old FileKind.Meta) }
    ensures value { OnOk result (D.holds depot.new FileKind.Meta ≡ option_map (overwritten place bytes.now) (D.holds depot.old FileKind.Meta)) }
    ensures refused { OnErr result (Unmarked (D.holds depot.new FileKind.Meta)) }
    ensures writes { Stores D.holds D.taken D.stored D.faults D.attached FileKind.Meta depot.old depot.new }
    ensures cause { HasDepotCause (D.faults depot.old) (D.faults depot.new) result }
    ensures failed { OnErr result (result ≡ Err DepotFault.Failed) }
{
    match depot.write_at(FileKind::Meta, place, bytes) {
        Ok(()) => Ok(()),
        Err(_) => Err(DepotFault::Failed),
    }
}

// Sizes an empty Meta, and writes the head behind zero bytes for the magic.
fn begin_meta<D: Depot>(depot: &mut D, info: GridInfo) -> Result<(), DepotFault>
    requires attached { IsSome (D.attached depot.old) }
    requires head { IsHead info }
    requires empty { IsMeta (D.holds depot.old FileKind.Meta) [] }
    ensures value { OnOk result (D.holds depot.new FileKind.Meta
        ≡ option_map (λ _. unfinished info [] (8 * (info.parts * info.parts))) (D.holds depot.old FileKind.Meta)) }
    ensures refused { OnErr result (Unmarked (D.holds depot.new FileKind.Meta)) }
    ensures memory { IsErrOf result DepotFault.NoMemory → D.holds depot.new FileKind.Meta ≡ D.holds depot.old FileKind.Meta }
    ensures unwritten { IsErrOf result DepotFault.NoMemory → D.stored depot.new FileKind.Meta ≡ D.stored depot.old FileKind.Meta }
    ensures writes { Stores D.holds D.taken D.stored D.faults D.attached FileKind.Meta depot.old depot.new }
    ensures cause { HasDepotCause (D.faults depot.old) (D.faults depot.new) result }
{
    let parts = info.parts as usize;
    depot.resize(FileKind::Meta, 32 + 8 * (parts * parts) as u64)?;
    write_behind(depot, 8, &head_bytes(info))
}

// Writes the counts column by column behind the head. The buffer has room for one column.
fn write_columns<D: Depot>(
    depot: &mut D,
    info: GridInfo,
    counts: &[u64],
    column: &mut [u8],
) -> Result<(), DepotFault>
    requires attached { IsSome (D.attached depot.old) }
    requires head { IsHead info }
    requires blocks { length counts.now ≡ info.parts * info.parts }
    requires whole { length column.old ≡ 8 * info.parts }
    requires begun { IsMeta (D.holds depot.old FileKind.Meta) (unfinished info [] (8 * (info.parts * info.parts))) }
    ensures value { OnOk result (D.holds depot.new FileKind.Meta ≡ option_map (λ _. unfinished info counts.now 0) (D.holds depot.old FileKind.Meta)) }
    ensures refused { OnErr result (Unmarked (D.holds depot.new FileKind.Meta)) }
    ensures writes { Stores D.holds D.taken D.stored D.faults D.attached FileKind.Meta depot.old depot.new }
    ensures cause { HasDepotCause (D.faults depot.old) (D.faults depot.new) result }
    ensures failed { OnErr result (result ≡ Err DepotFault.Failed) }
{
    let parts = info.parts as usize;
    for j in 0..parts {
        let first = j * parts;
        put_column(column, &counts[first..first + parts]);
        let Ok(()) = write_behind(depot, 32 + 8 * first as u64, column) else {
            return Err(DepotFault::Failed);
        };
    }
    Ok(())
}

// Writes the first eight bytes of a Meta that is whole but for them.
fn mark_meta<D: Depot>(depot: &mut D) -> Result<(), DepotFault>
    requires attached { IsSome (D.attached depot.old) }
    requires long { IfSome (D.holds depot.old FileKind.Meta) (λ meta. 8 ≤ length meta) }
    ensures value { OnOk result (D.holds depot.new FileKind.Meta ≡ option_map (overwritten 0 magic) (D.holds depot.old FileKind.Meta)) }
    ensures refused { OnErr result (MarkedWhole (D.holds depot.old FileKind.Meta) (D.holds depot.new FileKind.Meta)) }
    ensures writes { Stores D.holds D.taken D.stored D.faults D.attached FileKind.Meta depot.old depot.new }
    ensures cause { HasDepotCause (D.faults depot.old) (D.faults depot.new) result }
    ensures failed { OnErr result (result ≡ Err DepotFault.Failed) }
{
    match depot.write_at(FileKind::Meta, 0, &magic_bytes()) {
        Ok(()) => Ok(()),
        Err(_) => Err(DepotFault::Failed),
    }
}

/// Writes Meta: the head, and the numbers of edges of all blocks in column order, which add up to the edges. Meta has to
/// be empty where the depot tells it. The first eight bytes, by which files are known as a grid's, are written last.
///
/// `Failed` comes only where the depot's count of faults rose. Then Meta doesn't begin with those eight bytes, or it is
/// whole. `NoMemory` is want of memory, and comes before anything is stored: Meta stays empty. No other file changes. The
/// format is our own.
pub fn write_meta<D: Depot>(depot: &mut D, info: GridInfo, counts: &[u64]) -> Result<(), DepotFault>
    requires attached { IsSome (D.attached depot.old) }
    requires head { IsHead info }
    requires blocks { length counts.now ≡ info.parts * info.parts }
    requires whole { sum counts.now ≡ info.edges }
    requires empty { IsMeta (D.holds depot.old FileKind.Meta) [] }
    ensures value { OnOk result (D.holds depot.new FileKind.Meta ≡ option_map (λ _. meta_bytes info counts.now) (D.holds depot.old FileKind.Meta)) }
    ensures refused { OnErr result (IfSome (D.holds depot.new FileKind.Meta) (λ meta.
        (starts_with nat_eq meta magic ≡ false) ⊎ (meta ≡ meta_bytes info counts.now))) }
    ensures memory { IsErrOf result DepotFault.NoMemory → D.holds depot.new FileKind.Meta ≡ D.holds depot.old FileKind.Meta }
    ensures unwritten { IsErrOf result DepotFault.NoMemory → D.stored depot.new FileKind.Meta ≡ D.stored depot.old FileKind.Meta }
    ensures writes { Stores D.holds D.taken D.stored D.faults D.attached FileKind.Meta depot.old depot.new }
    ensures cause { HasDepotCause (D.faults depot.old) (D.faults depot.new) result }
{
    begin_meta(depot, info)?;
    let mut column = [0; 2048];
    let Ok(()) = write_columns(depot, info, counts, &mut column[..8 * info.parts as usize]) else {
        return Err(DepotFault::Failed);
    };
    match mark_meta(depot) {
        Ok(()) => Ok(()),
        Err(_) => Err(DepotFault::Failed),
    }
}
