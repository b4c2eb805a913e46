// The records of a graph.

/// Want of memory: what was asked for was not done.
#[derive(Clone, Copy, Debug, PartialEq, Eq, Drop)]
pub struct NoMemory;

/// A vertex, by its number, as SNAP's edge lists number them from 0.
#[derive(Clone, Copy, Debug, PartialEq, Eq, Drop)]
pub struct Vertex(pub u32);

/// The weight of an edge: 1 where a list states none. Weights are our own: SNAP's lists have none.
#[derive(Clone, Copy, Debug, PartialEq, Eq, Drop)]
pub struct Weight(pub u32);

/// A directed edge. Repeated edges and self loops are edges of their own.
#[derive(Clone, Copy, Debug, PartialEq, Eq, Drop)]
pub struct Edge {
    pub source: Vertex,
    pub target: Vertex,
    pub weight: Weight,
}

/// What leads out of a vertex: the number of its edges, and the sum of their weights.
#[derive(Clone, Copy, Debug, PartialEq, Eq, Drop)]
pub struct OutInfo {
    pub degree: u32,
    pub weight: u64,
}
