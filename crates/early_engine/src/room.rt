// What an engine keeps in memory.

use active_sets::ActiveParts;
use lumos_law::VertexProgram;
use windows::Windows;

/// The windows over values and sums, and which parts are hot.
#[derive(Drop)]
pub(crate) struct Room<G: VertexProgram> {
    pub(crate) windows: Windows<G>,
    pub(crate) active: ActiveParts,
}
