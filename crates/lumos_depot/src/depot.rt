// The files of one directory.
ghost use Rattle.std.specs.Prelude.{◌≡◌, ◌≤◌, ◌⊎◌, ◌+◌, ℕ, List, length, IfOk, IfSome, IsSome, IsErrOf, OnOk, OnErr, Option, None, Some, is_ok, is_some, if◌then◌else◌};
ghost use Rattle.std.specs.Option.{option_map};
ghost use Rattle.lumos_depot.specs.declared.depot.FileKind.{FileKind};
ghost use Rattle.lumos_depot.specs.Files.{HasCauseOutside, HasDepotCause, MixedTold, Raises, Same, SameBut, overwritten, range_at, resized};

/// The seven files of a directory. Which files there are, and what is in them, is our own.
#[derive(Clone, Copy, Debug, PartialEq, Eq, Drop)]
pub enum FileKind {
    /// The head of a grid and the number of edges in each block.
    Meta,
    /// All blocks of the grid, in column order.
    Primary,
    /// The blocks on the diagonal and below it, in the same order.
    Secondary,
    /// What each vertex has going out: the number of its edges and the sum of their weights.
    Info,
    /// The values of the vertices that a run keeps between its iterations.
    Values,
    /// The sums that a run keeps for the iteration ahead.
    Sums,
    /// The edges in the order of the input, while a grid is being built.
    Spool,
}

/// Why a call of a depot was refused.
#[derive(Clone, Copy, Debug, PartialEq, Eq, Drop)]
pub enum DepotFault {
    /// The outside failed. The depot's count of faults, which rose, is the only trace of it.
    Failed,
    /// Want of memory; nothing changed. Only `attach` and `resize` answer it.
    NoMemory,
}

/// Seven files by their kinds, in one directory that is attached first.
///
/// A depot tells the contents of all its files or of none, and no call changes whether it tells. One that tells has
/// one directory, whichever path is attached. No call changes a file other than the one that it names, nor what is
/// counted for another.
pub trait Depot {
    /// The bytes of a file, where the depot tells them.
    ghost holds: { Self → FileKind → Option (List ℕ) };

    /// How many bytes were read from a file. The count stands still at 2^64 - 1.
    ghost taken: { Self → FileKind → ℕ };

    /// How many bytes were written into a file. The count stands still at 2^64 - 1.
    ghost stored: { Self → FileKind → ℕ };

    /// How often the depot has failed. The count never falls, and stands still at 2^64 - 1.
    ghost faults: { Self → ℕ };

    /// The bytes of the path that is attached, if one is.
    ghost attached: { Self → Option (List ℕ) };

    /// The contents of all files are told, or of none.
    ghost tells_all: { (depot : Self) (j k : FileKind) → is_some (holds depot j) ≡ is_some (holds depot k) };

    /// Attaches the directory at a path, where none is attached yet. It changes no contents.
    ///
    /// `Failed` comes only where the count of faults rose, `NoMemory` is want of memory. After both none is attached.
    fn attach(&mut self, path: &str) -> Result<(), DepotFault>
        requires { attached self.old ≡ None }
        ensures attached { attached self.new ≡ (if is_ok result then Some path.now else None) }
        ensures contents { Same (holds self.old) (holds self.new) }
        ensures taken { Same (taken self.old) (taken self.new) }
        ensures stored { Same (stored self.old) (stored self.new) }
        ensures cause { HasDepotCause (faults self.old) (faults self.new) result }
        ensures no_fault { IsErrOf result DepotFault.NoMemory → faults self.new ≡ faults self.old };

    /// The length of a file in bytes. It needs an attached directory.
    ///
    /// `Failed` comes only where the count of faults rose; `NoMemory` never comes.
    fn len(&mut self, kind: FileKind) -> Result<u64, DepotFault>
        requires { IsSome (attached self.old) }
        ensures value { IfOk result (λ n. IfSome (holds self.old kind) (λ file. n ≡ length file)) }
        ensures attached { attached self.new ≡ attached self.old }
        ensures contents { Same (holds self.old) (holds self.new) }
        ensures taken { Same (taken self.old) (taken self.new) }
        ensures stored { Same (stored self.old) (stored self.new) }
        ensures cause { HasCauseOutside (faults self.old) (faults self.new) result };

    /// Cuts a file to a length, or extends it to that length with zero bytes. It needs an attached directory.
    ///
    /// `Failed` comes only where the count of faults rose, and leaves the file as it was or as asked. `NoMemory` is
    /// want of memory, and leaves it as it was.
    fn resize(&mut self, kind: FileKind, length: u64) -> Result<(), DepotFault>
        requires { IsSome (attached self.old) }
        ensures value { OnOk result (holds self.new kind ≡ option_map (resized length) (holds self.old kind)) }
        ensures refused { OnErr result ((holds self.new kind ≡ holds self.old kind) ⊎
            (holds self.new kind ≡ option_map (resized length) (holds self.old kind))) }
        ensures memory { IsErrOf result DepotFault.NoMemory → holds self.new kind ≡ holds self.old kind }
        ensures attached { attached self.new ≡ attached self.old }
        ensures contents { SameBut kind (holds self.old) (holds self.new) }
        ensures taken { Same (taken self.old) (taken self.new) }
        ensures stored { Same (stored self.old) (stored self.new) }
        ensures cause { HasDepotCause (faults self.old) (faults self.new) result }
        ensures no_fault { IsErrOf result DepotFault.NoMemory → faults self.new ≡ faults self.old };

    /// Fills the buffer with the bytes of a file from `place` on. It needs an attached directory and, where the
    /// contents are told, a range inside the file. It changes no contents, and raises `taken` of the file by the
    /// buffer's length.
    ///
    /// `Failed` comes only where the count of faults rose, and raises `taken` by at most that; `NoMemory` never
    /// comes. What the buffer then holds is left open.
    fn read_at(&mut self, kind: FileKind, place: u64, buf: &mut [u8]) -> Result<(), DepotFault>
        requires attached { IsSome (attached self.old) }
        requires inside { IfSome (holds self.old kind) (λ file. place + length buf.old ≤ length file) }
        ensures value { OnOk result (IfSome (holds self.old kind) (λ file. buf.new ≡ range_at place (length buf.old) file)) }
        ensures attached { attached self.new ≡ attached self.old }
        ensures contents { Same (holds self.old) (holds self.new) }
        ensures counted { Raises (taken self.old kind) (taken self.new kind) (length buf.old) result }
        ensures taken { SameBut kind (taken self.old) (taken self.new) }
        ensures stored { Same (stored self.old) (stored self.new) }
        ensures cause { HasCauseOutside (faults self.old) (faults self.new) result };

    /// Writes bytes over those of a file from `place` on. It needs an attached directory and, where the contents
    /// are told, a range inside the file, whose length stays. It raises `stored` of the file by their number.
    ///
    /// `Failed` comes only where the count of faults rose; then each byte of the range is the old or the new one,
    /// the others are as before, and `stored` rose by at most that number. `NoMemory` never comes.
    fn write_at(&mut self, kind: FileKind, place: u64, bytes: &[u8]) -> Result<(), DepotFault>
        requires attached { IsSome (attached self.old) }
        requires inside { IfSome (holds self.old kind) (λ file. place + length bytes.now ≤ length file) }
        ensures value { OnOk result (holds self.new kind ≡ option_map (overwritten place bytes.now) (holds self.old kind)) }
        ensures refused { OnErr result (MixedTold place bytes.now (holds self.old kind) (holds self.new kind)) }
        ensures attached { attached self.new ≡ attached self.old }
        ensures contents { SameBut kind (holds self.old) (holds self.new) }
        ensures counted { Raises (stored self.old kind) (stored self.new kind) (length bytes.now) result }
        ensures taken { Same (taken self.old) (taken self.new) }
        ensures stored { SameBut kind (stored self.old) (stored self.new) }
        ensures cause { HasCauseOutside (faults self.old) (faults self.new) result };
}
