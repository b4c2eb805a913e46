// A depot in memory.
ghost use Rattle.std.specs.Prelude.{◌≡◌, ◌≤◌, ◌<◌, ◌⊎◌, ◌+◌, ◌↔◌, [], ℕ, length, IfOk, IsSome, IsTrue, OnOk, OnErr, IsErrOf, Option, None, Some, is_err, is_ok, replicate, if◌then◌else◌};
ghost use Rattle.std.specs.Option.{option_map};
ghost use Rattle.lumos_depot.specs.declared.depot.FileKind.{FileKind};
ghost use Rattle.lumos_depot.specs.Files.{HasCauseOutside, HasDepotCause, MixedTold, Raises, Same, SameBut, overwritten, range_at, resized};
ghost use Rattle.lumos_depot.specs.Memory.{call_fails, one_more};
ghost use Rattle.lumos_depot.specs.MemoryDepot.{DepotState, counted, file_number, file_of, next_fails, stored_of, taken_of, told_of, with_file, with_stored, with_taken};

use crate::{Depot, DepotFault, FileKind};
use lumos_base::NoMemory;
use std::alloc::{AllocError, Global};
use std::marker::Model;

/// Seven files in memory, which are told. It fails at the calls that it is told to.
///
/// The five calls of the trait share one numbering from 1. A call that is to fail answers `Failed` and changes
/// nothing but the counts of calls and of faults.
#[derive(Drop)]
pub struct MemDepot {
    alloc: Global,
    files: Vec<Vec<u8>>,
    taken: [u64; 7],
    stored: [u64; 7],
    fails: Vec<u64>,
    calls: u64,
    faults: u64,
    path: Option<String>,
}

impl Model for MemDepot {
    ghost use Rattle.std.specs.Prelude.{◌≡◌, length, map, vec_len};
    ghost use Rattle.std.specs.String.{string_bytes};
    ghost use Rattle.std.specs.Option.{option_map};
    ghost use Rattle.lumos_depot.specs.MemoryDepot.{DepotState};

    ghost Value = { DepotState };

    ghost view = { λ d. record { files = map (λ f. f.items) d.files.items; taken = d.taken; stored = d.stored; fails = d.fails.items; calls = d.calls; faults = d.faults; path = option_map string_bytes d.path } };

    ghost invariant = { λ d. vec_len d.files ≡ 7 };
}

// The place of a file, and of its counters.
fn index_of(kind: FileKind) -> usize
    ensures value { result ≡ file_number kind }
    ensures below { result < 7 }
{
    match kind {
        FileKind::Meta => 0,
        FileKind::Primary => 1,
        FileKind::Secondary => 2,
        FileKind::Info => 3,
        FileKind::Values => 4,
        FileKind::Sums => 5,
        FileKind::Spool => 6,
    }
}

// Counts a call, and a fault where the call is one that fails, which it answers.
fn begin_call(fails: &[u64], calls: &mut u64, faults: &mut u64) -> bool
    ensures fails { result ≡ call_fails fails.now calls.old }
    ensures calls { calls.new ≡ one_more calls.old }
    ensures faults { faults.new ≡ (if result then one_more faults.old else faults.old) }
{
    *calls = calls.saturating_add(1);
    if fails.contains(calls) {
        *faults = faults.saturating_add(1);
        return true;
    }
    false
}

// Writes bytes over those at a place.
fn overwrite(file: &mut Vec<u8>, place: usize, bytes: &[u8])
    requires { place + length bytes.now ≤ length file.old.items }
    ensures { file.new.items ≡ overwritten place bytes.now file.old.items }
{
    file[place..place + bytes.len()].copy_from_slice(bytes);
}

impl MemDepot {
    /// Seven empty files, no directory attached, and all counts at 0. The calls of the trait are numbered from 1, and
    /// those named in `fails` fail. `NoMemory` is want of memory.
    pub fn new(alloc: Global, fails: &[u64]) -> Result<MemDepot, NoMemory>
        ensures { IfOk result (λ d. d ≡ record {
          files = replicate 7 [];
          taken = replicate 7 0;
          stored = replicate 7 0;
          fails = fails.now;
          calls = 0;
          faults = 0;
          path = None;
        }) }
    {
        let mut files = Vec::with_capacity(alloc, 7).map_err(|_| NoMemory)?;
        for i in 0..7usize {
            files.push(Vec::new(alloc)).map_err(|_| NoMemory)?;
        }
        Ok(MemDepot {
            alloc,
            files,
            taken: [0; 7],
            stored: [0; 7],
            fails: fails.to_vec(alloc).map_err(|_| NoMemory)?,
            calls: 0,
            faults: 0,
            path: None,
        })
    }

    /// The bytes of the path that is attached, if one is.
    pub fn path(&self) -> Option<&[u8]>
        ensures { option_map (λ path. path.now) result ≡ self.now.path }
    {
        match &self.path {
            Some(path) => Some(path.as_bytes()),
            None => None,
        }
    }

    /// Attaches none from here on, so that a second command can run on the depot. It has no number, and changes
    /// nothing else.
    pub fn detach(&mut self)
        ensures { self.new ≡ record self.old { path = None } }
    {
        self.path = None;
    }

    /// Puts a copy of these bytes in a file's place. It has no number, and leaves all counts. `NoMemory` is want of
    /// memory, and leaves all as it was.
    pub fn put_file(&mut self, alloc: Global, kind: FileKind, bytes: &[u8]) -> Result<(), NoMemory>
        ensures ok { OnOk result (self.new ≡ with_file self.old kind bytes.now) }
        ensures err { OnErr result (self.new ≡ self.old) }
    {
        let Ok(file) = Vec::from_slice(alloc, bytes) else {
            return Err(NoMemory);
        };
        self.files[index_of(kind)] = file;
        Ok(())
    }

    /// The bytes of a file.
    pub fn file(&self, kind: FileKind) -> &[u8]
        ensures { result.now ≡ file_of self.now kind }
    {
        &self.files[index_of(kind)]
    }

    /// How many bytes were read from a file. The count stands still at 2^64 - 1.
    pub fn taken_of(&self, kind: FileKind) -> u64
        ensures { result ≡ taken_of self.now kind }
    {
        self.taken[index_of(kind)]
    }

    /// How many bytes were written into a file. The count stands still at 2^64 - 1.
    pub fn stored_of(&self, kind: FileKind) -> u64
        ensures { result ≡ stored_of self.now kind }
    {
        self.stored[index_of(kind)]
    }

    /// How many calls of the trait were made. The count stands still at 2^64 - 1.
    pub fn calls(&self) -> u64
        ensures { result ≡ self.now.calls }
    {
        self.calls
    }
}

impl Depot for MemDepot {
    ghost holds = { told_of };

    ghost taken = { taken_of };

    ghost stored = { stored_of };

    ghost faults = { λ d. d.faults };

    ghost attached = { λ d. d.path };

    ghost use Rattle.std.specs.Prelude.{refl};

    ghost tells_all = { λ d j k. refl };

    /// Keeps a copy of the path. `Failed` comes exactly where the call is one that is to fail, `NoMemory` is want of
    /// memory, and both change nothing but the counts.
    fn attach(&mut self, path: &str) -> Result<(), DepotFault>
        requires { self.old.path ≡ None }
        ensures attached { self.new.path ≡ (if is_ok result then Some path.now else None) }
        ensures contents { Same (told_of self.old) (told_of self.new) }
        ensures taken { Same (taken_of self.old) (taken_of self.new) }
        ensures stored { Same (stored_of self.old) (stored_of self.new) }
        ensures cause { HasDepotCause self.old.faults self.new.faults result }
        ensures no_fault { IsErrOf result DepotFault.NoMemory → self.new.faults ≡ self.old.faults }
        ensures fails { IsErrOf result DepotFault.Failed ↔ IsTrue (next_fails self.old) }
        ensures after { OnOk result (self.new ≡ record (counted self.old) { path = Some path.now }) }
        ensures unchanged { OnErr result (self.new ≡ counted self.old) }
    {
        if begin_call(&self.fails, &mut self.calls, &mut self.faults) {
            return Err(DepotFault::Failed);
        }
        let Ok(text) = String::from_str(self.alloc, path) else {
            return Err(DepotFault::NoMemory);
        };
        self.path = Some(text);
        Ok(())
    }

    /// The number of a file's bytes. `Failed` comes exactly where the call is one that is to fail. Nothing changes but
    /// the counts.
    fn len(&mut self, kind: FileKind) -> Result<u64, DepotFault>
        requires { IsSome self.old.path }
        ensures value { IfOk result (λ n. n ≡ length (file_of self.old kind)) }
        ensures attached { self.new.path ≡ self.old.path }
        ensures contents { Same (told_of self.old) (told_of self.new) }
        ensures taken { Same (taken_of self.old) (taken_of self.new) }
        ensures stored { Same (stored_of self.old) (stored_of self.new) }
        ensures cause { HasCauseOutside self.old.faults self.new.faults result }
        ensures fails { is_err result ≡ next_fails self.old }
        ensures after { self.new ≡ counted self.old }
    {
        if begin_call(&self.fails, &mut self.calls, &mut self.faults) {
            return Err(DepotFault::Failed);
        }
        Ok(self.files[index_of(kind)].len() as u64)
    }

    /// Cuts the file, or extends it with zero bytes. `Failed` comes exactly where the call is one that is to fail,
    /// `NoMemory` is want of memory, and both change nothing but the counts.
    fn resize(&mut self, kind: FileKind, length: u64) -> Result<(), DepotFault>
        requires { IsSome self.old.path }
        ensures value { OnOk result (told_of self.new kind ≡ Some (resized length (file_of self.old kind))) }
        ensures refused { OnErr result ((told_of self.new kind ≡ told_of self.old kind) ⊎
            (told_of self.new kind ≡ Some (resized length (file_of self.old kind)))) }
        ensures memory { IsErrOf result DepotFault.NoMemory → told_of self.new kind ≡ told_of self.old kind }
        ensures attached { self.new.path ≡ self.old.path }
        ensures contents { SameBut kind (told_of self.old) (told_of self.new) }
        ensures taken { Same (taken_of self.old) (taken_of self.new) }
        ensures stored { Same (stored_of self.old) (stored_of self.new) }
        ensures cause { HasDepotCause self.old.faults self.new.faults result }
        ensures no_fault { IsErrOf result DepotFault.NoMemory → self.new.faults ≡ self.old.faults }
        ensures fails { IsErrOf result DepotFault.Failed ↔ IsTrue (next_fails self.old) }
        ensures after { OnOk result (self.new ≡ with_file (counted self.old) kind (resized length (file_of self.old kind))) }
        ensures unchanged { OnErr result (self.new ≡ counted self.old) }
    {
        if begin_call(&self.fails, &mut self.calls, &mut self.faults) {
            return Err(DepotFault::Failed);
        }
        let file = &mut self.files[index_of(kind)];
        match file.resize(length as usize, 0) {
            Ok(()) => Ok(()),
            Err(_) => Err(DepotFault::NoMemory),
        }
    }

    /// Gives the bytes of a range. `Failed` comes exactly where the call is one that is to fail, and changes nothing
    /// but the counts of calls and of faults; the buffer is then as it was.
    fn read_at(&mut self, kind: FileKind, place: u64, buf: &mut [u8]) -> Result<(), DepotFault>
        requires attached { IsSome self.old.path }
        requires inside { place + length buf.old ≤ length (file_of self.old kind) }
        ensures value { OnOk result (buf.new ≡ range_at place (length buf.old) (file_of self.old kind)) }
        ensures buffer { OnErr result (buf.new ≡ buf.old) }
        ensures attached { self.new.path ≡ self.old.path }
        ensures contents { Same (told_of self.old) (told_of self.new) }
        ensures counted { Raises (taken_of self.old kind) (taken_of self.new kind) (length buf.old) result }
        ensures taken { SameBut kind (taken_of self.old) (taken_of self.new) }
        ensures stored { Same (stored_of self.old) (stored_of self.new) }
        ensures cause { HasCauseOutside self.old.faults self.new.faults result }
        ensures fails { is_err result ≡ next_fails self.old }
        ensures after { OnOk result (self.new ≡ with_taken (counted self.old) kind (length buf.old)) }
        ensures unchanged { OnErr result (self.new ≡ counted self.old) }
    {
        if begin_call(&self.fails, &mut self.calls, &mut self.faults) {
            return Err(DepotFault::Failed);
        }
        let index = index_of(kind);
        let place = place as usize;
        let bytes = &self.files[index][place..place + buf.len()];
        buf.copy_from_slice(bytes);
        self.taken[index] = self.taken[index].saturating_add(buf.len() as u64);
        Ok(())
    }

    /// Sets the bytes of a range. `Failed` comes exactly where the call is one that is to fail, and changes nothing
    /// but the counts of calls and of faults.
    fn write_at(&mut self, kind: FileKind, place: u64, bytes: &[u8]) -> Result<(), DepotFault>
        requires attached { IsSome self.old.path }
        requires inside { place + length bytes.now ≤ length (file_of self.old kind) }
        ensures value { OnOk result (told_of self.new kind ≡ Some (overwritten place bytes.now (file_of self.old kind))) }
        ensures refused { OnErr result (MixedTold place bytes.now (told_of self.old kind) (told_of self.new kind)) }
        ensures attached { self.new.path ≡ self.old.path }
        ensures contents { SameBut kind (told_of self.old) (told_of self.new) }
        ensures counted { Raises (stored_of self.old kind) (stored_of self.new kind) (length bytes.now) result }
        ensures taken { Same (taken_of self.old) (taken_of self.new) }
        ensures stored { SameBut kind (stored_of self.old) (stored_of self.new) }
        ensures cause { HasCauseOutside self.old.faults self.new.faults result }
        ensures fails { is_err result ≡ next_fails self.old }
        ensures after { OnOk result (self.new ≡
            with_stored (with_file (counted self.old) kind (overwritten place bytes.now (file_of self.old kind))) kind (length bytes.now)) }
        ensures unchanged { OnErr result (self.new ≡ counted self.old) }
    {
        if begin_call(&self.fails, &mut self.calls, &mut self.faults) {
            return Err(DepotFault::Failed);
        }
        let index = index_of(kind);
        overwrite(&mut self.files[index], place as usize, bytes);
        self.stored[index] = self.stored[index].saturating_add(bytes.len() as u64);
        Ok(())
    }
}
