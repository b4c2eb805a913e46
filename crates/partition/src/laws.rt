// What holds of every cut, as functions that do nothing and promise the law.
ghost use Rattle.std.specs.Prelude.{ℕ, ◌<◌, List, All};
ghost use Rattle.lumos_base.specs.declared.records.Edge.{Edge};
ghost use Rattle.partition.specs.Parts.{chunk_size, CoverOnce};
ghost use Rattle.partition.specs.Blocks.{HoldOnce, IsBelow};

/// However many vertices are cut into however many parts, the ranges of the parts follow one another and cover the
/// vertices once, and smaller parts would not hold them all. The law is our own, of GridGraph's chunks.
pub fn ranges_cover_once()
    ensures { (n p : ℕ) → 0 < p → CoverOnce n (chunk_size n p) p }
{}

/// Whatever the edges between the vertices are, the blocks hold each of them once: those of a column hold the edges
/// into its part, and all of them the whole list. The ends of a block's edges lie in the ranges of its two parts. The
/// law is our own, of GridGraph's grid.
pub fn blocks_hold_each_edge_once()
    ensures { (edges : List Edge) (n p : ℕ) → 0 < p → All (IsBelow n) edges
        → HoldOnce edges n (chunk_size n p) p }
{}
