// A depot that tells nothing and damages what it reads.
ghost use Rattle.std.specs.Prelude.{◌≡◌, ◌≤◌, ◌<◌, ◌+◌, ◌^◌, None, length, true};
ghost use Rattle.lumos_depot.specs.Causes.{Rose};
ghost use Rattle.lumos_depot.specs.MemoryDepot.{file_of, stored_of, taken_of};

use lumos_depot::{Depot, DepotFault, FileKind, MemDepot};

/// A depot round one in memory, which keeps what every depot owes. In what it reads from one file it gives each byte 5 as
/// 7. A range that isn't inside the file is a fault.
#[derive(Drop)]
pub struct Damaging {
    inner: MemDepot,
    file: FileKind,
    faults: u64,
}

impl Damaging {
    /// Damages what it reads from this file of that depot.
    pub fn new(inner: MemDepot, file: FileKind) -> Damaging
        ensures { result ≡ record { inner = inner; file = file; faults = 0 } }
    {
        Damaging {
            inner,
            file,
            faults: 0,
        }
    }

    // Counts a fault.
    fn fail(&mut self) -> DepotFault
        ensures inner { self.new.inner ≡ self.old.inner }
        ensures cause { (self.old.faults ≤ self.new.faults) × Rose self.old.faults self.new.faults }
        ensures fault { result ≡ DepotFault.Failed }
    {
        self.faults = self.faults.saturating_add(1);
        DepotFault::Failed
    }

    // Whether a range lies inside a file, of which the counts fit their type.
    fn has(&self, kind: FileKind, place: u64, count: usize) -> bool
        ensures inside { result ≡ true → place + count ≤ length (file_of self.now.inner kind) }
        ensures taken { taken_of self.now.inner kind < 2 ^ 64 }
        ensures stored { stored_of self.now.inner kind < 2 ^ 64 }
    {
        let _counts = (self.inner.taken_of(kind), self.inner.stored_of(kind));
        let length = self.inner.file(kind).len() as u64;
        place <= length && count as u64 <= length - place
    }
}

impl Depot for Damaging {
    ghost holds = { λ _ _. None };

    ghost taken = { λ d kind. taken_of d.inner kind };

    ghost stored = { λ d kind. stored_of d.inner kind };

    ghost faults = { λ d. d.faults };

    ghost attached = { λ d. d.inner.path };

    ghost use Rattle.std.specs.Prelude.{refl};

    ghost tells_all = { λ d j k. refl };

    fn attach(&mut self, path: &str) -> Result<(), DepotFault> {
        match self.inner.attach(path) {
            Err(DepotFault::Failed) => Err(self.fail()),
            answer => answer,
        }
    }

    fn len(&mut self, kind: FileKind) -> Result<u64, DepotFault> {
        match self.inner.len(kind) {
            Ok(length) => Ok(length),
            Err(_) => Err(self.fail()),
        }
    }

    fn resize(&mut self, kind: FileKind, length: u64) -> Result<(), DepotFault> {
        match self.inner.resize(kind, length) {
            Err(DepotFault::Failed) => Err(self.fail()),
            answer => answer,
        }
    }

    fn read_at(&mut self, kind: FileKind, place: u64, buf: &mut [u8]) -> Result<(), DepotFault> {
        if !self.has(kind, place, buf.len()) {
            return Err(self.fail());
        }
        if self.inner.read_at(kind, place, buf).is_err() {
            return Err(self.fail());
        }
        if kind == self.file {
            for byte in buf.iter_mut() {
                if *byte == 5 {
                    *byte = 7;
                }
            }
        }
        Ok(())
    }

    fn write_at(&mut self, kind: FileKind, place: u64, bytes: &[u8]) -> Result<(), DepotFault> {
        if !self.has(kind, place, bytes.len()) {
            return Err(self.fail());
        }
        if self.inner.write_at(kind, place, bytes).is_err() {
            return Err(self.fail());
        }
        Ok(())
    }
}
