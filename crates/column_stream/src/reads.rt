// Records read from a file.
ghost use Rattle.std.specs.Prelude.{◌≡◌, ◌≤◌, ◌<◌, ◌+◌, ◌*◌, ◌^◌, ℕ, All, Err, length, IfErr, IfSome, IsSome, OnOk};
ghost use Rattle.lumos_depot.specs.Causes.{Rose};
ghost use Rattle.lumos_depot.specs.Steps.{Reads, RoseBy};
ghost use Rattle.value_files.specs.Records.{FaultIs};
ghost use Rattle.column_stream.specs.Records.{Fits, IsDamage, edges_at, first_fault};

use crate::records::{Ends, get_records};
use lumos_base::Edge;
use lumos_depot::{Depot, FileKind};
use value_files::FileFault;

// How many records are read at a time.
pub(crate) const PIECE: usize = 256;

// Reads the records that stand at a place of a file. The bytes are room for theirs.
pub(crate) fn read_piece<D: Depot>(
    depot: &mut D,
    file: FileKind,
    ends: Ends,
    place: u64,
    bytes: &mut [u8],
    out: &mut [Edge],
) -> Result<(), FileFault>
    requires attached { IsSome (D.attached depot.old) }
    requires room { length bytes.old ≡ 12 * length out.old }
    requires far { place + 12 * length out.old < 2 ^ 64 }
    requires inside { IfSome (D.holds depot.old file) (λ held. place + 12 * length out.old ≤ length held) }
    ensures edges { OnOk result (IfSome (D.holds depot.old file) (λ held. out.new ≡ edges_at place (length out.old) held)) }
    ensures fault { IfSome (D.holds depot.old file) (λ held. FaultIs result (first_fault file ends place (edges_at place (length out.old) held))) }
    ensures fits { OnOk result (All (Fits ends) out.new) }
    ensures damaged { IfErr result (IsDamage file ends place (length out.old)) }
    ensures taken { OnOk result (RoseBy (D.taken depot.old file) (D.taken depot.new file) (12 * length out.old)) }
    ensures most { D.taken depot.new file ≤ D.taken depot.old file + 12 * length out.old }
    ensures reads { Reads D.holds D.taken D.stored D.faults D.attached file depot.old depot.new }
    ensures cause { result ≡ Err FileFault.Depot → Rose (D.faults depot.old) (D.faults depot.new) }
{
    match depot.read_at(file, place, bytes) {
        Ok(()) => match get_records(bytes, file, ends, place, out) {
            Some(fault) => Err(fault),
            None => Ok(()),
        },
        Err(fault) => Err(FileFault::from(fault)),
    }
}
