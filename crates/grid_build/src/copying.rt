// The blocks on the diagonal and below it, copied from Primary into Secondary.
ghost use Rattle.std.specs.Prelude.{◌≡◌, ◌≤◌, ◌+◌, ◌*◌, length, sum, IfSome, IsSome, OnErr, OnOk};
ghost use Rattle.lumos_depot.specs.Causes.{Rose};
ghost use Rattle.lumos_depot.specs.Files.{HasCauseOutside, range_at};
ghost use Rattle.lumos_depot.specs.declared.depot.FileKind.{FileKind};
ghost use Rattle.grid_build.specs.Copied.{HasCopied, cut_table, low_ranges, low_total_of};
ghost use Rattle.lumos_depot.specs.Steps.{Moves, RoseBy};

use crate::columns::column_edges;
use lumos_depot::{Depot, DepotFault, Failed, FileKind};
use partition::Parts;

// Copies as many bytes as the buffer has room for.
fn copy_piece<D: Depot>(depot: &mut D, from: u64, into: u64, bytes: &mut [u8]) -> Result<(), Failed>
    requires attached { IsSome (D.attached depot.old) }
    requires inside { IfSome (D.holds depot.old FileKind.Primary) (λ file. from + length bytes.old ≤ length file) }
    requires room { IfSome (D.holds depot.old FileKind.Secondary) (λ file. into + length bytes.old ≤ length file) }
    ensures copied { OnOk result (HasCopied (range_at from (length bytes.old)) into (length bytes.old)
        (D.holds depot.old FileKind.Primary) (D.holds depot.old FileKind.Secondary) (D.holds depot.new FileKind.Secondary)) }
    ensures taken { OnOk result (RoseBy (D.taken depot.old FileKind.Primary) (D.taken depot.new FileKind.Primary) (length bytes.old)) }
    ensures stored { OnOk result (RoseBy (D.stored depot.old FileKind.Secondary) (D.stored depot.new FileKind.Secondary) (length bytes.old)) }
    ensures moves { Moves D.holds D.taken D.stored D.faults D.attached FileKind.Primary FileKind.Secondary depot.old depot.new }
    ensures cause { OnErr result (Rose (D.faults depot.old) (D.faults depot.new)) }
{
    let Ok(()) = depot.read_at(FileKind::Primary, from, bytes) else {
        return Err(Failed);
    };
    let Ok(()) = depot.write_at(FileKind::Secondary, into, bytes) else {
        return Err(Failed);
    };
    Ok(())
}

// Copies so many bytes, a fixed number of them at a time.
fn copy_range<D: Depot>(depot: &mut D, from: u64, into: u64, size: u64) -> Result<(), Failed>
    requires attached { IsSome (D.attached depot.old) }
    requires few { from + size ≤ 25769803776 }
    requires few_then { into + size ≤ 25769803776 }
    requires inside { IfSome (D.holds depot.old FileKind.Primary) (λ file. from + size ≤ length file) }
    requires room { IfSome (D.holds depot.old FileKind.Secondary) (λ file. into + size ≤ length file) }
    ensures copied { OnOk result (HasCopied (range_at from size) into size
        (D.holds depot.old FileKind.Primary) (D.holds depot.old FileKind.Secondary) (D.holds depot.new FileKind.Secondary)) }
    ensures taken { OnOk result (RoseBy (D.taken depot.old FileKind.Primary) (D.taken depot.new FileKind.Primary) size) }
    ensures stored { OnOk result (RoseBy (D.stored depot.old FileKind.Secondary) (D.stored depot.new FileKind.Secondary) size) }
    ensures moves { Moves D.holds D.taken D.stored D.faults D.attached FileKind.Primary FileKind.Secondary depot.old depot.new }
    ensures cause { OnErr result (Rose (D.faults depot.old) (D.faults depot.new)) }
{
    let mut bytes = [0; 4096];
    let mut done = 0;
    while done < size {
        let len = (size - done).min(4096) as usize;
        let Ok(()) = copy_piece(depot, from + done, into + done, &mut bytes[..len]) else {
            return Err(Failed);
        };
        done += len as u64;
    }
    Ok(())
}

// Copies the blocks on the diagonal and below it, which stand in Primary as one range for each column.
pub(crate) fn copy_low<D: Depot>(
    depot: &mut D,
    parts: Parts,
    counts: &[u64],
) -> Result<(), DepotFault>
    requires attached { IsSome (D.attached depot.old) }
    requires blocks { length counts.now ≡ parts.parts * parts.parts }
    requires few { sum counts.now ≤ 2147483648 }
    requires primary { IfSome (D.holds depot.old FileKind.Primary) (λ file. length file ≡ 12 * sum counts.now) }
    requires secondary { IfSome (D.holds depot.old FileKind.Secondary) (λ file. length file ≡ 12 * low_total_of parts counts.now) }
    ensures copied { OnOk result (HasCopied (low_ranges (cut_table parts counts.now) parts.parts) 0 (12 * low_total_of parts counts.now)
        (D.holds depot.old FileKind.Primary) (D.holds depot.old FileKind.Secondary) (D.holds depot.new FileKind.Secondary)) }
    ensures taken { OnOk result (RoseBy (D.taken depot.old FileKind.Primary) (D.taken depot.new FileKind.Primary) (12 * low_total_of parts counts.now)) }
    ensures stored { OnOk result (RoseBy (D.stored depot.old FileKind.Secondary) (D.stored depot.new FileKind.Secondary) (12 * low_total_of parts counts.now)) }
    ensures moves { Moves D.holds D.taken D.stored D.faults D.attached FileKind.Primary FileKind.Secondary depot.old depot.new }
    ensures cause { HasCauseOutside (D.faults depot.old) (D.faults depot.new) result }
{
    let mut first = 0;
    let mut into = 0;
    for j in 0..parts.parts() {
        let column = column_edges(parts, counts, j);
        let from = first + column.high;
        let Ok(()) = copy_range(depot, 12 * from, 12 * into, 12 * column.low) else {
            return Err(DepotFault::Failed);
        };
        first = from + column.low;
        into += column.low;
    }
    Ok(())
}
