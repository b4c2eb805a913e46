//! What an iteration counts, for its line of the report.
#![tactic(auto)]

ghost use Rattle.std.specs.Prelude.{◌≡◌, ◌+◌, ◌<◌, ◌^◌};

/// The counts of an iteration: its blocks, by what was done with them, and the vertices whose shown value moved.
///
/// What is counted is our own: a full iteration goes through all blocks, one that was fed early only through those from
/// a part into itself or into an earlier one.
#[derive(Clone, Copy, Debug, PartialEq, Eq, Drop)]
pub struct Counts {
    /// Blocks that were read from the primary layout.
    pub primary: u64,
    /// Blocks that were read from the secondary layout.
    pub secondary: u64,
    /// Blocks with edges that weren't read, since none of their sources contributes.
    pub skipped: u64,
    /// Blocks without edges.
    pub empty: u64,
    /// Vertices whose shown value is another than the one before.
    pub moved: u64,
}

impl Counts {
    /// No block and no vertex counted.
    pub fn zero() -> Counts
        ensures { result ≡ record { primary = 0; secondary = 0; skipped = 0; empty = 0; moved = 0 } }
    {
        Counts {
            primary: 0,
            secondary: 0,
            skipped: 0,
            empty: 0,
            moved: 0,
        }
    }

    /// Counts a block that was read from the primary layout. Their number has to be below 2^64 - 1.
    pub fn add_primary(&mut self)
        requires { self.old.primary + 1 < 2 ^ 64 }
        ensures { self.new ≡ record self.old { primary = self.old.primary + 1 } }
    {
        self.primary += 1;
    }

    /// Counts a block that was read from the secondary layout. Their number has to be below 2^64 - 1.
    pub fn add_secondary(&mut self)
        requires { self.old.secondary + 1 < 2 ^ 64 }
        ensures { self.new ≡ record self.old { secondary = self.old.secondary + 1 } }
    {
        self.secondary += 1;
    }

    /// Counts a block with edges that was skipped. Their number has to be below 2^64 - 1.
    pub fn add_skipped(&mut self)
        requires { self.old.skipped + 1 < 2 ^ 64 }
        ensures { self.new ≡ record self.old { skipped = self.old.skipped + 1 } }
    {
        self.skipped += 1;
    }

    /// Counts a block without edges. Their number has to be below 2^64 - 1.
    pub fn add_empty(&mut self)
        requires { self.old.empty + 1 < 2 ^ 64 }
        ensures { self.new ≡ record self.old { empty = self.old.empty + 1 } }
    {
        self.empty += 1;
    }

    /// Counts `n` more vertices that moved. Their number may reach 2^64 - 1.
    pub fn add_moved(&mut self, n: u64)
        requires { self.old.moved + n < 2 ^ 64 }
        ensures { self.new ≡ record self.old { moved = self.old.moved + n } }
    {
        self.moved += n;
    }
}

#[cfg(test)]
mod tests {
    use super::*;

    #[test]
    fn each_call_raises_its_own_count(rt: HostRuntime) {
        let mut counts = Counts::zero();
        counts.add_primary();
        counts.add_secondary();
        counts.add_secondary();
        counts.add_skipped();
        counts.add_skipped();
        counts.add_skipped();
        counts.add_empty();
        counts.add_moved(5);
        counts.add_moved(18446744073709551610);
        assert_eq!(rt;
            counts,
            Counts {
                primary: 1,
                secondary: 2,
                skipped: 3,
                empty: 1,
                moved: 18446744073709551615
            }
        );
    }
}
