// The least number of parts that fits a budget.
ghost use Rattle.std.specs.Prelude.{◌≡◌, ◌<◌, ◌≤◌, MatchOption};
ghost use Rattle.partition.specs.Fitting.{IsLeast, NoneFits, least_parts};

/// The least number of parts, from `first` to 256, whose chunks need no more than a budget of bytes, where each vertex of
/// a chunk needs `per_vertex` bytes, at most 256; none exactly where no such number is enough. The rule is our own.
pub fn least_parts(vertices: u32, per_vertex: u64, budget: u64, first: u32) -> Option<u32>
    requires some { 0 < first }
    requires narrow { per_vertex ≤ 256 }
    ensures value { result ≡ least_parts vertices per_vertex budget first }
    ensures least { MatchOption result (NoneFits vertices per_vertex budget first) (IsLeast vertices per_vertex budget first) }
{
    for parts in first..257 {
        let chunk = vertices.div_ceil(parts).max(1);
        if u64::from(chunk) * per_vertex <= budget {
            return Some(parts);
        }
    }
    None
}

#[cfg(test)]
mod tests {
    use super::*;
    use std::test::Fail;

    // Vertices, the bytes for each, the budget, the first number, and the least that fits. Five vertices of 34 bytes need
    // 170, 102, 68, 68 and 34 bytes in one to five parts.
    const ROWS: [(u32, u64, u64, u32, Option<u32>); 12] = [
        (5, 34, 170, 1, Some(1)),
        (5, 34, 102, 1, Some(2)),
        (5, 34, 101, 1, Some(3)),
        (5, 34, 68, 4, Some(4)),
        (5, 34, 67, 1, Some(5)),
        (5, 34, 33, 1, None),
        (5, 34, 34, 16, Some(16)),
        (0, 34, 33, 16, None),
        (0, 34, 34, 16, Some(16)),
        (268435456, 34, 1073741824, 1, Some(9)),
        (268435456, 34, 35651584, 16, Some(256)),
        (268435456, 34, 35651583, 16, None),
    ];

    #[test]
    fn takes_the_least_number_that_fits(rt: HostRuntime) -> Result<(), Fail> {
        for (vertices, per_vertex, budget, first, least) in ROWS {
            assert!(rt; 0 < first && per_vertex <= 256);
            let parts = least_parts(vertices, per_vertex, budget, first);
            assert_eq!(rt; parts, least, "{vertices} vertices in {budget} bytes");
        }
        Ok(())
    }
}
