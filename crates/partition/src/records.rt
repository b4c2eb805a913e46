// Faults and ranges.

use thiserror::Error;

/// Why so many vertices aren't cut into so many parts. The bounds are our own.
#[derive(Clone, Copy, Debug, PartialEq, Eq, Drop, Error)]
pub enum PartFault {
    /// No parts.
    #[error("no parts")]
    ZeroParts,
    /// More than 256 parts.
    #[error("parts {given} over 256")]
    TooManyParts { given: u32 },
    /// More than 268435456 vertices.
    #[error("vertices {given} over 268435456")]
    TooManyVertices { given: u32 },
}

/// The vertices from `first` on that stand before `past`: none where the two are equal.
#[derive(Clone, Copy, Debug, PartialEq, Eq, Drop)]
pub struct VertexRange {
    pub first: u32,
    pub past: u32,
}
