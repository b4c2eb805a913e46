// Calls of a depot that only read.
ghost use Rattle.std.specs.Prelude.{◌≡◌, ◌+◌, ◌≤◌, ℕ, List, Some, length, IfOk, IsSome, OnOk, OnErr};
ghost use Rattle.lumos_depot.specs.Causes.{Rose};
ghost use Rattle.lumos_depot.specs.Files.{range_at};
ghost use Rattle.lumos_depot.specs.declared.depot.FileKind.{FileKind};
ghost use Rattle.lumos_depot.specs.Steps.{Reads};

use lumos_depot::{Depot, Failed, FileKind};

// The length of a file.
pub(crate) fn length_of<D: Depot>(depot: &mut D, kind: FileKind) -> Result<u64, Failed>
    requires { IsSome (D.attached depot.old) }
    ensures value { IfOk result (λ n. (file : List ℕ) → D.holds depot.old kind ≡ Some file → length file ≡ n) }
    ensures reads { Reads D.holds D.taken D.stored D.faults D.attached FileKind.Meta depot.old depot.new }
    ensures cause { OnErr result (Rose (D.faults depot.old) (D.faults depot.new)) }
{
    let Ok(length) = depot.len(kind) else {
        return Err(Failed);
    };
    Ok(length)
}

// Fills the buffer from a place of Meta on.
pub(crate) fn fill<D: Depot>(depot: &mut D, place: u64, buf: &mut [u8]) -> Result<(), Failed>
    requires attached { IsSome (D.attached depot.old) }
    requires inside { (meta : List ℕ) → D.holds depot.old FileKind.Meta ≡ Some meta → place + length buf.old ≤ length meta }
    ensures value { OnOk result ((meta : List ℕ) → D.holds depot.old FileKind.Meta ≡ Some meta → buf.new ≡ range_at place (length buf.old) meta) }
    ensures reads { Reads D.holds D.taken D.stored D.faults D.attached FileKind.Meta depot.old depot.new }
    ensures cause { OnErr result (Rose (D.faults depot.old) (D.faults depot.new)) }
{
    let Ok(()) = depot.read_at(FileKind::Meta, place, buf) else {
        return Err(Failed);
    };
    Ok(())
}
