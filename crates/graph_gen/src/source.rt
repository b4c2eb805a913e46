// The text as a source.
ghost use Rattle.std.specs.Prelude.{◌≡◌, ◌≤◌, ◌<◌, ℕ, List, length, min, take, drop, IfOk, IsOk, Option, Some};
ghost use Rattle.graph_gen.specs.Generated.{generated};
ghost use Rattle.lumos_depot.specs.Causes.{HasCause};
ghost use Rattle.lumos_depot.specs.Streams.{ReadGives};

use crate::drawing::Drawing;
use lumos_depot::{Failed, Source};
use std::marker::Model;

/// A source of a made-up edge list, which never fails. Contracts see the bytes that are left of it.
#[derive(Drop)]
pub struct GenSource {
    drawing: Drawing,
}

impl Model for GenSource {
    ghost use Rattle.std.specs.Prelude.{List, ℕ};
    ghost use Rattle.graph_gen.specs.Drawings.{IsDrawing, left_of};

    ghost Value = { List ℕ };

    ghost view = { λ s. left_of s.drawing };

    ghost invariant = { λ s. IsDrawing s.drawing };
}

impl GenSource {
    /// The text with this seed: a line for each of so many edges between so many vertices, 1 to 2^28. There are at most
    /// 2^31 edges.
    pub fn new(seed: u64, vertices: u32, edges: u64) -> GenSource
        requires some_vertices { 1 ≤ vertices }
        requires most_vertices { vertices ≤ 268435456 }
        requires most_edges { edges ≤ 2147483648 }
        ensures { result ≡ generated seed vertices edges }
    {
        GenSource {
            drawing: Drawing::new(seed, vertices, edges),
        }
    }
}

impl Source for GenSource {
    ghost left = { λ s. Some s };

    ghost faults = { λ s. 0 };

    /// Fills the buffer, or gives what is left where that is less, and leaves what stands behind it in the buffer.
    fn read(&mut self, buf: &mut [u8]) -> Result<usize, Failed>
        requires { 0 < length buf.old }
        ensures bound { IfOk result (λ n. n ≤ length buf.old) }
        ensures bytes { ReadGives (Some self.old) (Some self.new) result buf.new }
        ensures cause { HasCause 0 0 result }
        ensures never_fails { IsOk result }
        ensures count { IfOk result (λ n. n ≡ min (length buf.old) (length self.old)) }
        ensures behind { IfOk result (λ n. drop n buf.new ≡ drop n buf.old) }
    {
        Ok(self.drawing.fill(buf))
    }
}
