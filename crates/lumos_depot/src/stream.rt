// Where bytes come from and where they go.
ghost use Rattle.std.specs.Prelude.{◌≡◌, ◌≤◌, ◌<◌, ℕ, List, length, IfOk, Option};
ghost use Rattle.lumos_depot.specs.Causes.{HasCause};
ghost use Rattle.lumos_depot.specs.Streams.{ReadGives, Writes};

/// The outside failed. The object's count of faults, which rose, is the only trace of it.
#[derive(Clone, Copy, Debug, PartialEq, Eq, Drop)]
pub struct Failed;

/// Where bytes come from. No call changes whether the source tells what is left.
pub trait Source {
    /// The bytes that are left, where the source tells them.
    ghost left: { Self → Option (List ℕ) };

    /// How often the source has failed. The count never falls, and stands still at 2^64 - 1.
    ghost faults: { Self → ℕ };

    /// Reads into a buffer of at least one byte, and answers how many bytes it gave: the first ones of those that
    /// are left, which it takes away, and none exactly at their end.
    ///
    /// `Failed` comes only where the count of faults rose, and leaves the bytes as they were.
    fn read(&mut self, buf: &mut [u8]) -> Result<usize, Failed>
        requires { 0 < length buf.old }
        ensures bound { IfOk result (λ n. n ≤ length buf.old) }
        ensures bytes { ReadGives (left self.old) (left self.new) result buf.new }
        ensures cause { HasCause (faults self.old) (faults self.new) result };
}

/// Where bytes go. No call changes whether the sink tells what was written.
pub trait Sink {
    /// The bytes that were written, where the sink tells them.
    ghost written: { Self → Option (List ℕ) };

    /// How often the sink has failed. The count never falls, and stands still at 2^64 - 1.
    ghost faults: { Self → ℕ };

    /// Writes all the bytes behind those that were written.
    ///
    /// `Failed` comes only where the count of faults rose, and leaves a front of the bytes written.
    fn write_all(&mut self, bytes: &[u8]) -> Result<(), Failed>
        ensures bytes { Writes (written self.old) (written self.new) result bytes.now }
        ensures cause { HasCause (faults self.old) (faults self.new) result };
}
