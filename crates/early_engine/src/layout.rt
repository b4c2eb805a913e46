// How a grid lies in its files.

use grid_format::BlockTable;
use partition::Parts;

/// How the vertices of a grid are cut, and where its blocks stand.
#[derive(Drop)]
pub(crate) struct Layout {
    pub(crate) parts: Parts,
    pub(crate) table: BlockTable,
}
