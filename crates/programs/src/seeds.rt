// Vertices from which classes spread.
ghost use Rattle.std.specs.Prelude.{◌≡◌, ◌≤◌, ◌++◌, ◌∷◌, [], Some, None, length, MatchResult};
ghost use Rattle.programs.specs.Seeds.{class_of, seed_refusal};

use arrayvec::ArrayVec;
use std::marker::Model;

/// A vertex from which a class spreads. The classes are 0 to 3.
#[derive(Clone, Copy, Debug, Default, PartialEq, Eq)]
pub struct Seed {
    pub vertex: u32,
    pub class: u8,
}

/// Why a seed is not taken.
#[derive(Clone, Copy, Debug, PartialEq, Eq, Drop)]
pub enum SeedFault {
    /// Its class is above 3.
    BadClass,
    /// Its vertex is a seed already.
    Repeated,
    /// There are 64 seeds already.
    Full,
}

/// At most 64 seeds in the order in which they came, no two of them at one vertex. It takes no memory. Contracts see the
/// list of the seeds. The bound is our own.
#[derive(Drop)]
pub struct Seeds {
    seeds: ArrayVec<Seed, 64>,
}

impl Model for Seeds {
    ghost use Rattle.std.specs.Prelude.{List, ◌≤◌, length};
    ghost use Rattle.programs.specs.declared.seeds.Seed.{Seed};

    ghost Value = { List Seed };

    ghost view = { λ s. s.seeds.items };

    ghost invariant = { λ s. length s.seeds.items ≤ 64 };
}

impl Seeds {
    /// No seeds.
    pub fn new() -> Seeds
        ensures { result ≡ [] }
    {
        Seeds {
            seeds: ArrayVec::new(),
        }
    }

    /// Takes another seed behind the others. It is refused with `BadClass` where its class is above 3, else with `Repeated`
    /// where its vertex is a seed already, else with `Full` where there are 64 seeds. A refusal changes nothing.
    pub fn push(&mut self, seed: Seed) -> Result<(), SeedFault>
        ensures { MatchResult result
            (λ _. (seed_refusal self.old seed ≡ None) × (self.new ≡ self.old ++ seed ∷ []))
            (λ fault. (seed_refusal self.old seed ≡ Some fault) × (self.new ≡ self.old)) }
    {
        if seed.class > 3 {
            return Err(SeedFault::BadClass);
        }
        if class_in(&self.seeds, seed.vertex).is_some() {
            return Err(SeedFault::Repeated);
        }
        self.seeds.try_push(seed).map_err(|_| SeedFault::Full)
    }

    // The class of a vertex, where it is a seed.
    pub(crate) fn class_of(&self, vertex: u32) -> Option<u8>
        ensures { result ≡ class_of self.now vertex }
    {
        class_in(&self.seeds, vertex)
    }
}

// The class of a vertex in a list of seeds, where it is one.
fn class_in(seeds: &[Seed], vertex: u32) -> Option<u8>
    ensures { result ≡ class_of seeds.now vertex }
{
    for seed in seeds {
        if seed.vertex == vertex {
            return Some(seed.class);
        }
    }
    None
}

#[cfg(test)]
mod tests {
    use super::*;

    #[test]
    fn seeds_are_refused_in_this_order(rt: HostRuntime) {
        let mut seeds = Seeds::new();
        for vertex in 0..64u32 {
            assert_eq!(rt; seeds.push(Seed { vertex, class: 3 }), Ok(()));
        }
        for (vertex, class, fault) in [
            (5u32, 4u8, SeedFault::BadClass),
            (5, 0, SeedFault::Repeated),
            (64, 0, SeedFault::Full),
        ] {
            assert_eq!(rt; seeds.push(Seed { vertex, class }), Err(fault));
        }
        assert_eq!(rt; seeds.class_of(63), Some(3));
        assert_eq!(rt; seeds.class_of(64), None);
    }
}
