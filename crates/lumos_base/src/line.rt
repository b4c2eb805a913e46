// A line of text in a fixed place.
ghost use Rattle.std.specs.Prelude.{◌≡◌, ◌≤◌, ◌+◌, ◌++◌, [], ℕ, List, length};
ghost use Rattle.std.specs.Fmt.{decimal};

use arrayvec::ArrayVec;
use std::marker::Model;

/// A text of at most 128 bytes, built piece by piece, which takes no memory. Contracts see the list of its bytes.
///
/// Report and fault lines are made in one, so that each is handed on by a single write.
#[derive(Drop)]
pub struct Line {
    text: ArrayVec<u8, 128>,
}

impl Model for Line {
    ghost use Rattle.std.specs.Prelude.{List, ℕ, ◌≤◌, length};

    ghost Value = { List ℕ };

    ghost view = { λ l. l.text.items };

    ghost invariant = { λ l. length l.text.items ≤ 128 };
}

impl Line {
    /// An empty line.
    pub fn new() -> Line
        ensures { result ≡ [] }
    {
        Line {
            text: ArrayVec::new(),
        }
    }

    /// Appends a text, for which there has to be room within the 128 bytes.
    pub fn push_text(&mut self, text: &str)
        requires { length self.old + length text.now ≤ 128 }
        ensures text { self.new ≡ self.old ++ text.now }
        ensures len { length self.new ≡ length self.old + length text.now }
    {
        if self.text.try_extend_from_slice(text.as_bytes()).is_err() {
            unreachable!()
        }
    }

    /// Appends a number in decimal digits, without leading zeros. There has to be room for 20 bytes, which the
    /// greatest number takes.
    pub fn push_number(&mut self, n: u64)
        requires { length self.old + 20 ≤ 128 }
        ensures text { self.new ≡ self.old ++ decimal n }
        ensures short { length self.new ≤ length self.old + 20 }
    {
        let mut buffer = itoa::Buffer::new();
        self.push_text(buffer.format(n));
    }

    /// The bytes of the line.
    pub fn bytes(&self) -> &[u8]
        ensures text { result.now ≡ self.now }
        ensures short { length self.now ≤ 128 }
    {
        &self.text
    }
}

#[cfg(test)]
mod tests {
    use super::*;

    #[test]
    fn text_and_numbers_follow_one_another(rt: HostRuntime) {
        let mut line = Line::new();
        line.push_text("edges ");
        line.push_number(18446744073709551615);
        line.push_text(", ");
        line.push_number(0);
        assert_eq!(rt; line.bytes(), b"edges 18446744073709551615, 0".as_slice());
    }
}
