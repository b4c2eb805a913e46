// What a line of a schedule says.
ghost use Rattle.std.specs.Prelude.{◌≡◌, ◌≤◌, ◌<◌, ◌⊎◌, ℕ, List, [], ◌∷◌, length, take, drop, true, false, Some};
ghost use Rattle.edge_text.specs.Fields.{begins_blank, fields_of, is_blank, is_comment};
ghost use Rattle.edge_text.specs.Lines.{without_return};
ghost use Rattle.flight_core.specs.ScheduleLine.{number_before, number_of, numbers_of, said_behind, said_by};
ghost use Rattle.flight_core.specs.ScheduleParts.{IsNext};

use crate::event::Event;

/// What a line says: nothing, as blank lines and comments do, an event, that the edges follow, or what no line may say.
#[derive(Clone, Copy, Debug, PartialEq, Eq, Drop)]
pub enum Said {
    Nothing,
    Does(Event),
    Edges,
    Unclear,
}

/// The next field of a line: there is none, it is no number, or it is this number, and ends before this place.
#[derive(Clone, Copy, Drop)]
pub enum Next {
    End,
    Other,
    Number(u32, usize),
}

// Whether a byte is a space or a tab.
fn is_space(byte: u8) -> bool
    ensures { result ≡ is_blank byte }
{
    byte == b' ' || byte == b'\t'
}

// Whether a line is a comment whose first field begins with this byte.
fn begins_comment(byte: u8) -> bool
    ensures { (bytes : List ℕ) → result ≡ is_comment (byte ∷ bytes) }
{
    byte == b'#' || byte == b'%'
}

// The length of a line without the carriage return at its end.
fn without_end(line: &[u8]) -> usize
    ensures within { result ≤ length line.now }
    ensures line { take result line.now ≡ without_return line.now }
{
    if line.len() == 0 {
        return 0;
    }
    let last = line.len() - 1;
    if line[last] == b'\r' {
        return last;
    }
    line.len()
}

// How many blanks stand at the front of a text.
fn blanks_at(text: &[u8]) -> usize
    ensures within { result ≤ length text.now }
    ensures fields { fields_of (drop result text.now) ≡ fields_of text.now }
    ensures stops { (result ≡ length text.now) ⊎ (begins_blank (drop result text.now) ≡ false) }
{
    let mut len = 0;
    while len < text.len() && is_space(text[len]) {
        len += 1;
    }
    len
}

// How many bytes the field has that a text begins with.
fn field_at(text: &[u8]) -> usize
    requires { begins_blank text.now ≡ false }
    ensures some { 0 < result }
    ensures within { result ≤ length text.now }
    ensures fields { fields_of text.now ≡ take result text.now ∷ fields_of (drop result text.now) }
{
    let mut len = 0;
    while len < text.len() && !is_space(text[len]) {
        len += 1;
    }
    len
}

// The number of a field, if it is one.
fn number_in(field: &[u8]) -> Option<u32>
    ensures { result ≡ number_of field.now }
{
    let mut value: u64 = 0;
    for at in 0..field.len() {
        if !field[at].is_ascii_digit() {
            return None;
        }
        value = (10 * value + u64::from(field[at] - b'0')).min(4294967296);
    }
    if value > 4294967295 {
        None
    } else {
        Some(value as u32)
    }
}

// The first field of a text.
fn next_in(text: &[u8]) -> Next
    ensures { IsNext text.now result }
{
    let blanks = blanks_at(text);
    if blanks == text.len() {
        return Next::End;
    }
    let rest = &text[blanks..];
    let len = field_at(rest);
    match number_in(&rest[..len]) {
        Some(n) => Next::Number(n, blanks + len),
        None => Next::Other,
    }
}

// What a word says with three numbers and what stands behind them.
fn said_by_three(word: &[u8], t: u32, i: u32, j: u32, text: &[u8]) -> Said
    ensures { result ≡ said_behind word.now (number_before (Some t) (number_before (Some i) (number_before (Some j) (numbers_of (fields_of text.now))))) }
{
    match next_in(text) {
        Next::End => {
            if word == b"feed".as_slice() {
                Said::Does(Event::Feed { t, i, j })
            } else if word == b"skip".as_slice() {
                Said::Does(Event::Skip { t, i, j })
            } else {
                Said::Unclear
            }
        }
        Next::Other => Said::Unclear,
        Next::Number(_, _) => Said::Unclear,
    }
}

// What a word says with two numbers and what stands behind them.
fn said_by_two(word: &[u8], t: u32, i: u32, text: &[u8]) -> Said
    ensures { result ≡ said_behind word.now (number_before (Some t) (number_before (Some i) (numbers_of (fields_of text.now)))) }
{
    match next_in(text) {
        Next::End => {
            if word == b"final".as_slice() {
                Said::Does(Event::Finalise { t, j: i })
            } else {
                Said::Unclear
            }
        }
        Next::Other => Said::Unclear,
        Next::Number(j, used) => said_by_three(word, t, i, j, &text[used..]),
    }
}

// What a word says with one number and what stands behind it.
fn said_by_one(word: &[u8], t: u32, text: &[u8]) -> Said
    ensures { result ≡ said_behind word.now (number_before (Some t) (numbers_of (fields_of text.now))) }
{
    match next_in(text) {
        Next::End => Said::Unclear,
        Next::Other => Said::Unclear,
        Next::Number(i, used) => said_by_two(word, t, i, &text[used..]),
    }
}

// What a word says with what stands behind it.
fn said_by_word(word: &[u8], text: &[u8]) -> Said
    ensures { result ≡ said_behind word.now (numbers_of (fields_of text.now)) }
{
    match next_in(text) {
        Next::End => {
            if word == b"edges".as_slice() {
                Said::Edges
            } else {
                Said::Unclear
            }
        }
        Next::Other => Said::Unclear,
        Next::Number(t, used) => said_by_one(word, t, &text[used..]),
    }
}

/// What a line says that isn't too long.
pub fn said_in_line(line: &[u8]) -> Said
    requires { length line.now ≤ 128 }
    ensures { result ≡ said_by line.now }
{
    let whole = &line[..without_end(line)];
    let blanks = blanks_at(whole);
    if blanks == whole.len() {
        return Said::Nothing;
    }
    let text = &whole[blanks..];
    let len = field_at(text);
    if begins_comment(text[0]) {
        return Said::Nothing;
    }
    said_by_word(&text[..len], &text[len..])
}
