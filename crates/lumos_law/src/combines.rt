// The four combines. Each number is kept with its least byte first.
ghost use Rattle.std.specs.Prelude.{Some, refl, ◌≡◌, ◌≤◌};
ghost use Rattle.std.proofs.Common.{rules, ap};
ghost use Rattle.std.proofs.lemmas.Option.{same_Some};
ghost use Rattle.byteorder.specs.Endian.{little_bytes, little_number};
ghost use Rattle.lumos_base.specs.ByteLaws.{number_reads_back, number_in_range, number_bytes};
ghost use Rattle.lumos_law.specs.Combines.{least, IsLeast, least_of, total, IsTotal, total_of, total4, IsTotal4, total4_bytes, total4_from, total4_of, IsTriple, triple_bytes, triple_from, most_triple, triple_of};
ghost use Rattle.lumos_law.specs.CombineLaws.{least_laws, total_laws, total4_laws, total4_reads_back, total4_in_range, total4_are_bytes, triple_laws, triple_reads_back, triple_in_range, triple_are_bytes};

use crate::Combine;
use byteorder::{ByteOrder, LittleEndian};
use lumos_base::Fixed;

/// The least of numbers. The unit is the greatest number.
#[derive(Clone, Copy, Debug, PartialEq, Eq)]
pub struct Least(pub u64);

impl Fixed for Least {
    ghost WIDTH = { 8 };

    ghost is_in_range = { IsLeast };

    ghost bytes_of = { λ s. little_bytes 8 s.0 };

    ghost value_of = { λ bytes. Some (least (little_number 8 bytes)) };

    ghost width_low = { Prim.search rules };

    ghost width_high = { Prim.search rules };

    ghost length_bytes = { λ s. refl };

    ghost are_bytes = { λ s. number_bytes 8 s.0 };

    ghost reads_back = { λ s h. ap (λ n. Some (least n)) (number_reads_back 8 s.0 h) };

    ghost gives_in_range = { λ bytes s h len is. Prim.rw (← same_Some _ _ is) (number_in_range 8 bytes h) };

    const WIDTH: usize = 8;

    fn in_range(&self) {
        let _number = self.0;
    }

    fn put(&self, out: &mut [u8]) {
        LittleEndian::write_u64(out, self.0);
    }

    fn get(bytes: &[u8]) -> Option<Least> {
        Some(Least(LittleEndian::read_u64(bytes)))
    }
}

impl Combine for Least {
    ghost unit = { least 18446744073709551615 };

    ghost joined = { least_of };

    ghost join_laws = { least_laws };

    fn unit() -> Least {
        Least(u64::MAX)
    }

    fn join(self, other: Least) -> Least {
        Least(self.0.min(other.0))
    }
}

/// The sum of numbers, which stands at the greatest number where it would pass it. The unit is 0.
#[derive(Clone, Copy, Debug, PartialEq, Eq)]
pub struct Total(pub u64);

impl Fixed for Total {
    ghost WIDTH = { 8 };

    ghost is_in_range = { IsTotal };

    ghost bytes_of = { λ s. little_bytes 8 s.0 };

    ghost value_of = { λ bytes. Some (total (little_number 8 bytes)) };

    ghost width_low = { Prim.search rules };

    ghost width_high = { Prim.search rules };

    ghost length_bytes = { λ s. refl };

    ghost are_bytes = { λ s. number_bytes 8 s.0 };

    ghost reads_back = { λ s h. ap (λ n. Some (total n)) (number_reads_back 8 s.0 h) };

    ghost gives_in_range = { λ bytes s h len is. Prim.rw (← same_Some _ _ is) (number_in_range 8 bytes h) };

    const WIDTH: usize = 8;

    fn in_range(&self) {
        let _number = self.0;
    }

    fn put(&self, out: &mut [u8]) {
        LittleEndian::write_u64(out, self.0);
    }

    fn get(bytes: &[u8]) -> Option<Total> {
        Some(Total(LittleEndian::read_u64(bytes)))
    }
}

impl Combine for Total {
    ghost unit = { total 0 };

    ghost joined = { total_of };

    ghost join_laws = { total_laws };

    fn unit() -> Total {
        Total(0)
    }

    fn join(self, other: Total) -> Total {
        Total(self.0.saturating_add(other.0))
    }
}

/// Four sums side by side, each as `Total` has it.
#[derive(Clone, Copy, Debug, PartialEq, Eq)]
pub struct Total4 {
    pub a: u64,
    pub b: u64,
    pub c: u64,
    pub d: u64,
}

impl Fixed for Total4 {
    ghost WIDTH = { 32 };

    ghost is_in_range = { IsTotal4 };

    ghost bytes_of = { total4_bytes };

    ghost value_of = { λ bytes. Some (total4_from bytes) };

    ghost width_low = { Prim.search rules };

    ghost width_high = { Prim.search rules };

    ghost length_bytes = { λ s. refl };

    ghost are_bytes = { total4_are_bytes };

    ghost reads_back = { λ s h. ap Some (total4_reads_back s h) };

    ghost gives_in_range = { λ bytes s h len is. Prim.rw (← same_Some _ _ is) (total4_in_range bytes h) };

    const WIDTH: usize = 32;

    fn in_range(&self) {
        let _a = self.a;
        let _b = self.b;
        let _c = self.c;
        let _d = self.d;
    }

    fn put(&self, out: &mut [u8]) {
        LittleEndian::write_u64(out, self.a);
        LittleEndian::write_u64(&mut out[8..], self.b);
        LittleEndian::write_u64(&mut out[16..], self.c);
        LittleEndian::write_u64(&mut out[24..], self.d);
    }

    fn get(bytes: &[u8]) -> Option<Total4> {
        Some(Total4 {
            a: LittleEndian::read_u64(bytes),
            b: LittleEndian::read_u64(&bytes[8..]),
            c: LittleEndian::read_u64(&bytes[16..]),
            d: LittleEndian::read_u64(&bytes[24..]),
        })
    }
}

impl Combine for Total4 {
    ghost unit = { total4 0 0 0 0 };

    ghost joined = { total4_of };

    ghost join_laws = { total4_laws };

    fn unit() -> Total4 {
        Total4 {
            a: 0,
            b: 0,
            c: 0,
            d: 0,
        }
    }

    fn join(self, other: Total4) -> Total4 {
        Total4 {
            a: self.a.saturating_add(other.a),
            b: self.b.saturating_add(other.b),
            c: self.c.saturating_add(other.c),
            d: self.d.saturating_add(other.d),
        }
    }
}

/// The first of triples: the one of least cost, among these of least hops, and among these of the least last vertex. The
/// unit has the greatest number in each field.
#[derive(Clone, Copy, Debug, PartialEq, Eq)]
pub struct LeastTriple {
    pub cost: u64,
    pub hops: u32,
    pub last: u32,
}

impl Fixed for LeastTriple {
    ghost WIDTH = { 16 };

    ghost is_in_range = { IsTriple };

    ghost bytes_of = { triple_bytes };

    ghost value_of = { λ bytes. Some (triple_from bytes) };

    ghost width_low = { Prim.search rules };

    ghost width_high = { Prim.search rules };

    ghost length_bytes = { λ s. refl };

    ghost are_bytes = { triple_are_bytes };

    ghost reads_back = { λ s h. ap Some (triple_reads_back s h) };

    ghost gives_in_range = { λ bytes s h len is. Prim.rw (← same_Some _ _ is) (triple_in_range bytes h) };

    const WIDTH: usize = 16;

    fn in_range(&self) {
        let _cost = self.cost;
        let _hops = self.hops;
        let _last = self.last;
    }

    fn put(&self, out: &mut [u8]) {
        LittleEndian::write_u64(out, self.cost);
        LittleEndian::write_u32(&mut out[8..], self.hops);
        LittleEndian::write_u32(&mut out[12..], self.last);
    }

    fn get(bytes: &[u8]) -> Option<LeastTriple> {
        Some(LeastTriple {
            cost: LittleEndian::read_u64(bytes),
            hops: LittleEndian::read_u32(&bytes[8..]),
            last: LittleEndian::read_u32(&bytes[12..]),
        })
    }
}

impl Combine for LeastTriple {
    ghost unit = { most_triple };

    ghost joined = { triple_of };

    ghost join_laws = { triple_laws };

    fn unit() -> LeastTriple {
        LeastTriple {
            cost: u64::MAX,
            hops: u32::MAX,
            last: u32::MAX,
        }
    }

    fn join(self, other: LeastTriple) -> LeastTriple {
        if other.cost < self.cost
            || other.cost == self.cost
                && (other.hops < self.hops || other.hops == self.hops && other.last < self.last)
        {
            other
        } else {
            self
        }
    }
}
