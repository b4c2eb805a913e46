// What a combine is, and joins of lists.
ghost use Rattle.std.specs.Prelude.{◌≡◌, List, ◌++◌, All, IsPermutation};
ghost use Rattle.lumos_law.specs.Joins.{JoinLaws, join_from};

use lumos_base::Fixed;

/// Sums that may be joined in any order: on sums in range `join` is commutative and associative, `unit` is its unit, and
/// both give sums in range. This is the textbook's commutative monoid, and each implementation proves it.
pub trait Combine: Fixed + Copy + Eq {
    /// The sum of nothing.
    ghost unit: { Self };

    /// Two sums as one.
    ghost joined: { Self → Self → Self };

    /// The sum of nothing.
    fn unit() -> Self
        ensures { result ≡ unit };

    /// Two sums as one.
    fn join(self, other: Self) -> Self
        ensures { result ≡ joined self other };

    ghost join_laws: { JoinLaws Self.is_in_range unit joined };
}

/// The join of all sums of the list, from the unit in list order.
pub fn join_all<C: Combine>(items: &[C]) -> C
    ensures { result ≡ join_from C.joined C.unit items.now }
{
    let mut all = C::unit();
    for item in items {
        all = all.join(*item);
    }
    all
}

/// The law of order independence, for sums in range: any reordering of a list has the same join, and the join of two
/// lists one after the other is the join of their joins. The call itself does nothing.
pub fn join_order<C: Combine>()
    ensures any_order { (xs ys : List C) → All C.is_in_range xs → IsPermutation xs ys
        → join_from C.joined C.unit xs ≡ join_from C.joined C.unit ys }
    ensures in_parts { (xs ys : List C) → All C.is_in_range xs → All C.is_in_range ys
        → join_from C.joined C.unit (xs ++ ys) ≡ C.joined (join_from C.joined C.unit xs) (join_from C.joined C.unit ys) }
{}

#[cfg(test)]
mod tests {
    use super::*;
    use crate::{Least, LeastTriple, Total, Total4};

    fn four(a: u64, b: u64, c: u64, d: u64) -> Total4 {
        Total4 { a, b, c, d }
    }

    fn triple(cost: u64, hops: u32, last: u32) -> LeastTriple {
        LeastTriple { cost, hops, last }
    }

    #[test]
    fn lists_join_by_each_combine(rt: HostRuntime) {
        let none: [Least; 0] = [];
        assert_eq!(rt; join_all(&none), Least(u64::MAX));
        assert_eq!(rt; join_all(&[Least(7), Least(3), Least(5)]), Least(3));
        assert_eq!(rt; join_all(&[Total(7), Total(3)]), Total(10));
        assert_eq!(rt; join_all(&[Total(u64::MAX), Total(3)]), Total(u64::MAX));
        let sums = join_all(&[four(1, 2, 3, 4), four(10, 20, u64::MAX, 40)]);
        assert_eq!(rt; sums, four(11, 22, u64::MAX, 44));
        let first = join_all(&[triple(2, 0, 0), triple(1, 5, 9), triple(1, 5, 8)]);
        assert_eq!(rt; first, triple(1, 5, 8));
        assert_eq!(rt;
            join_all(&[triple(1, 2, 0), triple(1, 1, 9)]),
            triple(1, 1, 9)
        );
        join_order::<LeastTriple>();
        let mut bytes = [0u8; 16];
        first.put(&mut bytes);
        assert_eq!(rt; bytes, [1, 0, 0, 0, 0, 0, 0, 0, 5, 0, 0, 0, 8, 0, 0, 0]);
        assert_eq!(rt; LeastTriple::get(&bytes), Some(first));
        assert_eq!(rt; Total::get(&bytes[8..]), Some(Total(0x0000000800000005)));
    }
}
