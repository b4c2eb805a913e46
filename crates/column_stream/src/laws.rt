// What holds of every cursor and of every grid, as functions that do nothing and promise the law.
ghost use Rattle.std.specs.Prelude.{ℕ, ◌<◌, ◌≤◌, List, All};
ghost use Rattle.lumos_base.specs.Records.{IsEdge};
ghost use Rattle.lumos_base.specs.declared.records.Edge.{Edge};
ghost use Rattle.partition.specs.Blocks.{block};
ghost use Rattle.partition.specs.Parts.{chunk_size};
ghost use Rattle.grid_format.specs.Grid.{HasGrid, grid};
ghost use Rattle.column_stream.specs.Blocks.{IsStreamed, block_cursor, low_cursor};
ghost use Rattle.column_stream.specs.Cursors.{CursorState, GivesAll};

/// Whatever a cursor's file holds and however much room each call of `next` has, the pieces that it gives, one after the
/// other up to the answer 0, are the edges of the records that were left, in their order. The answer 0 comes after as many
/// calls as there were records, or before. The law is our own, of GridGraph's streaming of a block.
pub fn pieces_are_the_block()
    ensures { (cursor : CursorState) (bytes : List ℕ) → GivesAll cursor bytes }
{}

/// Whatever the edges between the vertices are, within the limits of a grid, a cursor at a block's place in Primary, with
/// the block's number of edges and the ranges of its two parts, gives exactly the block's edges in list order, and finds
/// no word outside its range. So does one at the place in Secondary of a block on the diagonal or below it. The law is our
/// own, of GridGraph's grid.
pub fn grid_blocks_are_streamed()
    ensures primary { (edges : List Edge) (n p i j : ℕ) → HasGrid edges n p → All IsEdge edges → i < p → j < p
        → IsStreamed (block_cursor edges n p i j) (grid edges n p).primary (block edges (chunk_size n p) i j) }
    ensures secondary { (edges : List Edge) (n p i j : ℕ) → HasGrid edges n p → All IsEdge edges → i < p → j ≤ i
        → IsStreamed (low_cursor edges n p i j) (grid edges n p).secondary (block edges (chunk_size n p) i j) }
{}
