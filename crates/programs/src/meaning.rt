// What the values of two programs mean: walks along the edges.
ghost use Rattle.std.specs.Prelude.{◌≡◌, ℕ, ◌≤◌, ◌<◌, ◌^◌, List, All, Option, Some, codes, decimal};
ghost use Rattle.lumos_base.specs.Records.{IsEdge};
ghost use Rattle.lumos_base.specs.declared.records.Edge.{Edge};
ghost use Rattle.lumos_law.specs.Sync.{ending, still_in, values};
ghost use Rattle.programs.specs.Components.{components_program};
ghost use Rattle.programs.specs.Paths.{cost_text, known, paths_program};
ghost use Rattle.programs.specs.Walks.{HasBothWays, IsBest, IsBestWithin, IsLeastJoined, IsLeastTo, IsLeastWithin};

/// The law that the labels of `Components` are least vertices: after t iterations the label of v is the least vertex from
/// which a walk of at most t edges leads to v, and that vertex is shown. The call itself does nothing.
pub fn components_are_least()
    ensures label { (edges : List Edge) → All IsEdge edges → (t v : ℕ) → v < 2 ^ 32
        → IsLeastWithin t edges v (values components_program edges t v).label }
    ensures shown { (edges : List Edge) → All IsEdge edges → (t v : ℕ) → v < 2 ^ 32 → (a : ℕ) → IsLeastWithin t edges v a
        → components_program.show (values components_program edges t v) ≡ decimal a }
{}

/// The law of a run of `Components` that ends still: then the label of v is the least vertex from which any walk leads to
/// v, and where the list has each edge in both directions, the least vertex of v's weak component. The call itself does
/// nothing.
pub fn still_components()
    ensures label { (edges : List Edge) → All IsEdge edges → (n : ℕ) → All (λ e. e.source.0 < n) edges
        → (limit t : ℕ) → ending components_program edges n limit ≡ still_in t
        → (v : ℕ) → v < 2 ^ 32 → IsLeastTo edges v (values components_program edges t v).label }
    ensures joined { (edges : List Edge) → All IsEdge edges → (n : ℕ) → All (λ e. e.source.0 < n) edges → HasBothWays edges
        → (limit t : ℕ) → ending components_program edges n limit ≡ still_in t
        → (v : ℕ) → v < 2 ^ 32 → IsLeastJoined edges v (values components_program edges t v).label }
{}

/// The law that the costs of `Paths` are least costs: after t iterations, up to a million, the cost of v is the least cost
/// over the walks of at most t edges from the start to v, and what is shown is that cost, or `-` where there is no such
/// walk. Where the start is no vertex of the graph, `-` is shown for every vertex. Such a cost is below 2^52, so no sum of
/// weights reaches the greatest number. The call itself does nothing.
pub fn paths_are_least()
    ensures cost { (start : ℕ) (edges : List Edge) → All IsEdge edges → (t v : ℕ) → t ≤ 1000000
        → IsBestWithin t edges start v (known (values (paths_program start) edges t v).cost) }
    ensures shown { (start : ℕ) (edges : List Edge) → All IsEdge edges → (t v : ℕ) → t ≤ 1000000
        → (best : Option ℕ) → IsBestWithin t edges start v best
        → (paths_program start).show (values (paths_program start) edges t v) ≡ cost_text best }
    ensures beyond { (start : ℕ) (edges : List Edge) → (n : ℕ) → All (λ e. e.source.0 < n) edges → n ≤ start
        → (t v : ℕ) → v < n → (paths_program start).show (values (paths_program start) edges t v) ≡ codes "-" }
    ensures cheap { (start : ℕ) (edges : List Edge) → All IsEdge edges → (t v : ℕ) → t ≤ 1000000
        → (cost : ℕ) → IsBestWithin t edges start v (Some cost) → cost < 2 ^ 52 }
{}

/// The law of a run of `Paths` of at most a million iterations that ends still: then the cost of v is the least cost over all
/// walks from the start to v, if there are any. The call itself does nothing.
pub fn still_paths()
    ensures cost { (start : ℕ) (edges : List Edge) → All IsEdge edges → (n : ℕ) → All (λ e. e.source.0 < n) edges
        → (limit t : ℕ) → limit ≤ 1000000 → ending (paths_program start) edges n limit ≡ still_in t
        → (v : ℕ) → IsBest edges start v (known (values (paths_program start) edges t v).cost) }
    ensures shown { (start : ℕ) (edges : List Edge) → All IsEdge edges → (n : ℕ) → All (λ e. e.source.0 < n) edges
        → (limit t : ℕ) → limit ≤ 1000000 → ending (paths_program start) edges n limit ≡ still_in t
        → (v : ℕ) (best : Option ℕ) → IsBest edges start v best
        → (paths_program start).show (values (paths_program start) edges t v) ≡ cost_text best }
{}
