// What holds of every grid, as a function that does nothing and promises the law.
ghost use Rattle.std.specs.Prelude.{ℕ, List};
ghost use Rattle.lumos_base.specs.declared.records.Edge.{Edge};
ghost use Rattle.grid_format.specs.Grid.{HasGrid, IsRead};

/// Whatever the edges between the vertices are, within the limits of a grid, its files pass the checks of the head with
/// their numbers of vertices, parts and edges; the counts in Meta are those of the blocks; each block stands in Primary at
/// the place that the counts before it give; and each block on the diagonal or below it stands in Secondary at the place
/// that the counts of such blocks before it give. The law is our own, of GridGraph's grid.
pub fn grids_are_read()
    ensures { (edges : List Edge) (n p : ℕ) → HasGrid edges n p → IsRead edges n p }
{}
