// Values written into a file.
ghost use Rattle.std.specs.Prelude.{◌≡◌, ◌≤◌, ◌<◌, ◌+◌, ◌*◌, ◌^◌, ℕ, All, flat_map, length, IfSome, IsSome, OnErr, OnOk};
ghost use Rattle.std.specs.Option.{option_map};
ghost use Rattle.lumos_depot.specs.Causes.{Rose};
ghost use Rattle.lumos_depot.specs.Files.{SameOutsideTold, overwritten};
ghost use Rattle.lumos_depot.specs.Steps.{RoseBy, Stores};

use crate::records::{PIECE, put_records};
use lumos_base::Fixed;
use lumos_depot::{Depot, Failed, FileKind};

// Writes the records of values at a place of a file. The bytes are room for theirs.
fn write_piece<V: Fixed + Copy, D: Depot>(
    depot: &mut D,
    file: FileKind,
    place: u64,
    bytes: &mut [u8],
    items: &[V],
) -> Result<(), Failed>
    requires attached { IsSome (D.attached depot.old) }
    requires room { length bytes.old ≡ V.WIDTH * length items.now }
    requires inside { IfSome (D.holds depot.old file) (λ held. place + V.WIDTH * length items.now ≤ length held) }
    ensures written { OnOk result (D.holds depot.new file ≡ option_map (overwritten place (flat_map V.bytes_of items.now)) (D.holds depot.old file)) }
    ensures in_range { All V.is_in_range items.now }
    ensures outside { SameOutsideTold place (V.WIDTH * length items.now) (D.holds depot.old file) (D.holds depot.new file) }
    ensures stored { OnOk result (RoseBy (D.stored depot.old file) (D.stored depot.new file) (V.WIDTH * length items.now)) }
    ensures most { D.stored depot.new file ≤ D.stored depot.old file + V.WIDTH * length items.now }
    ensures stores { Stores D.holds D.taken D.stored D.faults D.attached file depot.old depot.new }
    ensures cause { OnErr result (Rose (D.faults depot.old) (D.faults depot.new)) }
{
    put_records(items, bytes);
    match depot.write_at(file, place, bytes) {
        Ok(()) => Ok(()),
        Err(_) => Err(Failed),
    }
}

// Writes values from a place of a file on, a piece at a time.
pub(crate) fn write_values<V: Fixed + Copy, D: Depot>(
    depot: &mut D,
    file: FileKind,
    place: u64,
    items: &[V],
) -> Result<(), Failed>
    requires attached { IsSome (D.attached depot.old) }
    requires few { length items.now < 2 ^ 32 }
    requires far { place < 2 ^ 48 }
    requires inside { IfSome (D.holds depot.old file) (λ held. place + V.WIDTH * length items.now ≤ length held) }
    ensures written { OnOk result (D.holds depot.new file ≡ option_map (overwritten place (flat_map V.bytes_of items.now)) (D.holds depot.old file)) }
    ensures in_range { OnOk result (All V.is_in_range items.now) }
    ensures outside { SameOutsideTold place (V.WIDTH * length items.now) (D.holds depot.old file) (D.holds depot.new file) }
    ensures stored { OnOk result (RoseBy (D.stored depot.old file) (D.stored depot.new file) (V.WIDTH * length items.now)) }
    ensures most { D.stored depot.new file ≤ D.stored depot.old file + V.WIDTH * length items.now }
    ensures stores { Stores D.holds D.taken D.stored D.faults D.attached file depot.old depot.new }
    ensures cause { OnErr result (Rose (D.faults depot.old) (D.faults depot.new)) }
{
    let mut bytes = [0; PIECE];
    let most = PIECE / V::WIDTH;
    let mut done = 0;
    while done < items.len() {
        let past = items.len().min(done + most);
        let from = place + (V::WIDTH * done) as u64;
        let room = &mut bytes[..V::WIDTH * (past - done)];
        match write_piece(depot, file, from, room, &items[done..past]) {
            Ok(()) => done = past,
            Err(fault) => return Err(fault),
        }
    }
    Ok(())
}
