// A text in a fixed place, with room for every line of a report.
ghost use Rattle.std.specs.Prelude.{◌≡◌, ◌≤◌, ◌+◌, ◌++◌, [], length, take};
ghost use Rattle.std.specs.Fmt.{decimal};

use std::marker::Model;

/// A text of at most 256 bytes, built piece by piece, which takes no memory. Contracts see the list of its bytes.
///
/// A line with five counts doesn't fit into the 128 bytes of a `Line`, and the lines of vertices are many: each is made
/// in one of these and handed on by a single write.
#[derive(Drop)]
pub(crate) struct Text {
    held: [u8; 256],
    end: usize,
}

impl Model for Text {
    ghost use Rattle.std.specs.Prelude.{List, ℕ, ◌≤◌, take};

    ghost Value = { List ℕ };

    ghost view = { λ t. take t.end t.held };

    ghost invariant = { λ t. t.end ≤ 256 };
}

impl Text {
    /// An empty text.
    pub(crate) fn new() -> Text
        ensures { result ≡ [] }
    {
        Text {
            held: [0; 256],
            end: 0,
        }
    }

    /// Appends bytes, for which there has to be room within the 256.
    pub(crate) fn push_bytes(&mut self, bytes: &[u8])
        requires { length self.old + length bytes.now ≤ 256 }
        ensures text { self.new ≡ self.old ++ bytes.now }
        ensures len { length self.new ≡ length self.old + length bytes.now }
    {
        let end = self.end + bytes.len();
        place(&mut self.held, self.end, bytes);
        self.end = end;
    }

    /// Appends a text, for which there has to be room.
    pub(crate) fn push_text(&mut self, text: &str)
        requires { length self.old + length text.now ≤ 256 }
        ensures text { self.new ≡ self.old ++ text.now }
        ensures len { length self.new ≡ length self.old + length text.now }
    {
        self.push_bytes(text.as_bytes());
    }

    /// Appends a number in decimal digits, without leading zeros. There has to be room for 20 bytes, which the greatest
    /// number takes.
    pub(crate) fn push_number(&mut self, n: u64)
        requires { length self.old + 20 ≤ 256 }
        ensures text { self.new ≡ self.old ++ decimal n }
        ensures short { length self.new ≤ length self.old + 20 }
    {
        let mut buffer = itoa::Buffer::new();
        self.push_text(buffer.format(n));
    }

    /// The bytes of the text.
    pub(crate) fn bytes(&self) -> &[u8]
        ensures { result.now ≡ self.now }
    {
        &self.held[..self.end]
    }
}

// Puts bytes behind the first `end`.
fn place(held: &mut [u8], end: usize, bytes: &[u8])
    requires { end + length bytes.now ≤ length held.old }
    ensures { take (end + length bytes.now) held.new ≡ take end held.old ++ bytes.now }
{
    held[end..end + bytes.len()].copy_from_slice(bytes);
}
