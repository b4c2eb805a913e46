// Which chunks are hot.
ghost use Rattle.std.specs.Prelude.{◌≡◌, ◌≤◌, ◌<◌, ◌&&◌, ◌||◌, length, nat_lt, slice_set};
ghost use Rattle.active_sets.specs.Active.{hot_at, none_hot};

use std::marker::Model;

/// One truth value for each chunk, of the iteration before and of the current one: whether the chunk is hot, that is,
/// whether some vertex of it contributes. From GridGraph, which skips the blocks whose source chunk has no active vertex.
/// Contracts see the number of parts and the two lists of values, which have a place for each of 256 parts.
#[derive(Drop)]
pub struct ActiveParts {
    parts: u32,
    was_hot: [bool; 256],
    is_hot: [bool; 256],
}

impl Model for ActiveParts {
    ghost use Rattle.std.specs.Prelude.{◌≤◌};
    ghost use Rattle.active_sets.specs.Active.{ActiveState};

    ghost Value = { ActiveState };

    ghost view = { λ a. record { parts = a.parts; was_hot = a.was_hot; is_hot = a.is_hot } };

    ghost invariant = { λ a. a.parts ≤ 256 };
}

impl ActiveParts {
    /// So many parts, from 1 to 256, of which none is hot in either iteration.
    pub fn new(parts: u32) -> ActiveParts
        requires some { 0 < parts }
        requires few { parts ≤ 256 }
        ensures { result ≡ record { parts = parts; was_hot = none_hot; is_hot = none_hot } }
    {
        ActiveParts {
            parts,
            was_hot: [false; 256],
            is_hot: [false; 256],
        }
    }

    /// Sets whether a chunk is hot in the current iteration. It has to be one of the parts.
    pub fn mark(&mut self, part: u32, hot: bool)
        requires { part < self.old.parts }
        ensures set { self.new ≡ record self.old { is_hot = slice_set self.old.is_hot part hot } }
        ensures room { length self.old.is_hot ≡ 256 }
    {
        self.is_hot[part as usize] = hot;
    }

    /// Ends the iteration: what is hot in it was hot before the next one, in which nothing is hot yet.
    pub fn turn(&mut self)
        ensures { self.new ≡ record self.old { was_hot = self.old.is_hot; is_hot = none_hot } }
    {
        self.was_hot = self.is_hot;
        self.is_hot = [false; 256];
    }

    /// Whether a chunk was hot in the iteration before. It has to be one of the parts.
    pub fn hot_before(&self, part: u32) -> bool
        requires { part < self.now.parts }
        ensures { result ≡ hot_at self.now.was_hot part }
    {
        self.was_hot[part as usize]
    }

    /// Whether a chunk is hot in the current iteration. It has to be one of the parts.
    pub fn hot_now(&self, part: u32) -> bool
        requires { part < self.now.parts }
        ensures { result ≡ hot_at self.now.is_hot part }
    {
        self.is_hot[part as usize]
    }

    /// Whether a full iteration needs the block from chunk i into chunk j: the source chunk was hot before, or the
    /// iteration feeds ahead, the block lies above the diagonal, and its source chunk is hot now. Both chunks have to be
    /// among the parts. That a block is needed for the iteration ahead too is our own rule.
    pub fn needed_full(&self, i: u32, j: u32, ahead: bool) -> bool
        requires row { i < self.now.parts }
        requires column { j < self.now.parts }
        ensures { result ≡ (hot_at self.now.was_hot i || (ahead && nat_lt i j && hot_at self.now.is_hot i)) }
    {
        self.hot_before(i) || (ahead && i < j && self.hot_now(i))
    }

    /// Whether a fed iteration needs the blocks from chunk i: the chunk was hot before. It has to be one of the parts.
    pub fn needed_fed(&self, i: u32) -> bool
        requires { i < self.now.parts }
        ensures { result ≡ hot_at self.now.was_hot i }
    {
        self.hot_before(i)
    }
}
