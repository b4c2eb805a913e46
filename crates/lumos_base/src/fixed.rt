// Values that are kept in a fixed number of bytes.
ghost use Rattle.std.specs.Prelude.{◌≡◌, ℕ, ◌<◌, ◌≤◌, ◌^◌, List, Option, Some, length, refl, IfSome};
ghost use Rattle.byteorder.specs.Endian.{little_bytes, little_number};
ghost use Rattle.std.proofs.Common.{rules, ap};
ghost use Rattle.std.proofs.lemmas.Option.{same_Some};
ghost use Rattle.lumos_base.specs.Bytes.{IsBytes};
ghost use Rattle.lumos_base.specs.Records.{IsEdge, edge_bytes, edge_from, IsOutInfo, info_bytes, info_from};
ghost use Rattle.lumos_base.specs.ByteLaws.{number_reads_back, number_in_range, number_bytes};
ghost use Rattle.lumos_base.specs.RecordLaws.{edge_reads_back, edge_in_range, edge_are_bytes, info_reads_back, info_in_range, info_are_bytes};

use crate::{Edge, OutInfo, Vertex, Weight};
use byteorder::{ByteOrder, LittleEndian};

/// A value that files keep in a fixed number of bytes, each number with its least byte first. The layouts are our own.
///
/// What is written and read again is the same value: the law `reads_back`. What is read is in range: the law
/// `gives_in_range`.
pub trait Fixed: Sized {
    /// How many bytes a value takes.
    ghost WIDTH: { ℕ };

    /// Each number in the value lies within its Rust type.
    ghost is_in_range: { Self → Type 0 };

    /// The bytes of a value.
    ghost bytes_of: { Self → List ℕ };

    /// The value that the bytes stand for: none exactly where they are outside the type's form.
    ghost value_of: { List ℕ → Option Self };

    /// How many bytes a value takes: from 1 to 64.
    const WIDTH: usize;

    /// Does nothing, and tells that the value in hand is in range.
    fn in_range(&self)
        ensures { is_in_range self.now };

    /// Fills the slice, which has to have exactly `WIDTH` bytes, with the value's bytes.
    fn put(&self, out: &mut [u8])
        requires { length out.old ≡ WIDTH }
        ensures { out.new ≡ bytes_of self.now };

    /// The value of the bytes, of which there have to be exactly `WIDTH`. It is `None` exactly where they are outside
    /// the type's form.
    fn get(bytes: &[u8]) -> Option<Self>
        requires { length bytes.now ≡ WIDTH }
        ensures { result ≡ value_of bytes.now };

    ghost width_low: { 1 ≤ WIDTH };

    ghost width_high: { WIDTH ≤ 64 };

    ghost length_bytes: { (v : Self) → length (bytes_of v) ≡ WIDTH };

    ghost are_bytes: { (v : Self) → IsBytes (bytes_of v) };

    ghost reads_back: { (v : Self) → is_in_range v → value_of (bytes_of v) ≡ Some v };

    ghost gives_in_range: { (bytes : List ℕ) (v : Self) → IsBytes bytes → length bytes ≡ WIDTH → value_of bytes ≡ Some v → is_in_range v };
}

impl Fixed for u64 {
    ghost WIDTH = { 8 };

    ghost is_in_range = { λ n. n < 2 ^ 64 };

    ghost bytes_of = { λ n. little_bytes 8 n };

    ghost value_of = { λ bytes. Some (little_number 8 bytes) };

    ghost width_low = { Prim.search rules };

    ghost width_high = { Prim.search rules };

    ghost length_bytes = { λ n. refl };

    ghost are_bytes = { λ n. number_bytes 8 n };

    ghost reads_back = { λ n h. ap Some (number_reads_back 8 n h) };

    ghost gives_in_range = { λ bytes n h len is. Prim.rw (← same_Some _ _ is) (number_in_range 8 bytes h) };

    const WIDTH: usize = 8;

    fn in_range(&self) {
        let _value = *self;
    }

    fn put(&self, out: &mut [u8]) {
        LittleEndian::write_u64(out, *self);
    }

    /// The number of the bytes: never `None`, and a number that is written as these bytes.
    fn get(bytes: &[u8]) -> Option<u64>
        requires { length bytes.now ≡ 8 }
        ensures never_none { result ≡ Some (little_number 8 bytes.now) }
        ensures writes_back { IfSome result (λ n. little_bytes 8 n ≡ bytes.now) }
    {
        Some(LittleEndian::read_u64(bytes))
    }
}

impl Fixed for Edge {
    ghost WIDTH = { 12 };

    ghost is_in_range = { IsEdge };

    ghost bytes_of = { edge_bytes };

    ghost value_of = { λ bytes. Some (edge_from bytes) };

    ghost width_low = { Prim.search rules };

    ghost width_high = { Prim.search rules };

    ghost length_bytes = { λ e. refl };

    ghost are_bytes = { edge_are_bytes };

    ghost reads_back = { λ e h. ap Some (edge_reads_back e h) };

    ghost gives_in_range = { λ bytes n h len is. Prim.rw (← same_Some _ _ is) (edge_in_range bytes h) };

    const WIDTH: usize = 12;

    fn in_range(&self) {
        let _source = self.source.0;
        let _target = self.target.0;
        let _weight = self.weight.0;
    }

    fn put(&self, out: &mut [u8]) {
        LittleEndian::write_u32(out, self.source.0);
        LittleEndian::write_u32(&mut out[4..], self.target.0);
        LittleEndian::write_u32(&mut out[8..], self.weight.0);
    }

    /// The edge of the bytes: never `None`, and an edge that is written as these bytes.
    fn get(bytes: &[u8]) -> Option<Edge>
        requires { length bytes.now ≡ 12 }
        ensures never_none { result ≡ Some (edge_from bytes.now) }
        ensures writes_back { IfSome result (λ e. edge_bytes e ≡ bytes.now) }
    {
        Some(Edge {
            source: Vertex(LittleEndian::read_u32(bytes)),
            target: Vertex(LittleEndian::read_u32(&bytes[4..])),
            weight: Weight(LittleEndian::read_u32(&bytes[8..])),
        })
    }
}

impl Fixed for OutInfo {
    ghost WIDTH = { 12 };

    ghost is_in_range = { IsOutInfo };

    ghost bytes_of = { info_bytes };

    ghost value_of = { λ bytes. Some (info_from bytes) };

    ghost width_low = { Prim.search rules };

    ghost width_high = { Prim.search rules };

    ghost length_bytes = { λ e. refl };

    ghost are_bytes = { info_are_bytes };

    ghost reads_back = { λ e h. ap Some (info_reads_back e h) };

    ghost gives_in_range = { λ bytes n h len is. Prim.rw (← same_Some _ _ is) (info_in_range bytes h) };

    const WIDTH: usize = 12;

    fn in_range(&self) {
        let _degree = self.degree;
        let _weight = self.weight;
    }

    fn put(&self, out: &mut [u8]) {
        LittleEndian::write_u32(out, self.degree);
        LittleEndian::write_u64(&mut out[4..], self.weight);
    }

    /// The `OutInfo` of the bytes: never `None`, and one that is written as these bytes.
    fn get(bytes: &[u8]) -> Option<OutInfo>
        requires { length bytes.now ≡ 12 }
        ensures never_none { result ≡ Some (info_from bytes.now) }
        ensures writes_back { IfSome result (λ info. info_bytes info ≡ bytes.now) }
    {
        Some(OutInfo {
            degree: LittleEndian::read_u32(bytes),
            weight: LittleEndian::read_u64(&bytes[4..]),
        })
    }
}
