// What holds of all windows, as a function that does nothing and promises the law.
ghost use Rattle.std.specs.Prelude.{◌≡◌, ◌<◌, ◌*◌, ℕ, sum_by};
ghost use Rattle.std.specs.List.{range_with_len};
ghost use Rattle.windows.specs.Kept.{held_out, load_bytes};
ghost use Rattle.windows.specs.Windows.{Coding, WindowState};

use lumos_law::VertexProgram;

/// The loads of all chunks, once each, take a value's width for each vertex of a chunk that isn't kept in memory. The law is
/// our own.
pub fn loads_add_up<G: VertexProgram>()
    ensures { (coding : Coding G.Value G.Sum) (w : WindowState G.Value G.Sum) → 0 < w.cut.parts → sum_by (load_bytes coding w) (range_with_len 0 w.cut.parts) ≡ held_out w * coding.value_width }
{}
