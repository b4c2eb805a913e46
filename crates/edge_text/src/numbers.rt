// The numbers in fields.
ghost use Rattle.std.specs.Prelude.{◌≡◌, ◌≤◌, ℕ, List, [], ◌∷◌, ◌++◌, IfOk, true};
ghost use Rattle.edge_text.specs.Fields.{is_blank, is_comment, is_digit, value_of};
ghost use Rattle.edge_text.specs.Parts.{IsNumber, IsValue};
ghost use Rattle.edge_text.specs.Reading.{vertex_at, weight_at};

use crate::{InputWhat, TextLimits};

/// Whether a byte is a space or a tab.
pub fn is_space(byte: u8) -> bool
    ensures { result ≡ is_blank byte }
{
    byte == b' ' || byte == b'\t'
}

/// Whether a line is a comment whose first field begins with this byte.
pub fn begins_comment(byte: u8) -> bool
    ensures { result ≡ is_comment (byte ∷ []) }
{
    byte == b'#' || byte == b'%'
}

/// The number of digits with one more, or none where it is above 2^64 - 1.
pub fn value_with(value: Option<u64>, digit: u8) -> Option<u64>
    requires { is_digit digit ≡ true }
    ensures { (digits : List ℕ) → IsNumber value digits → IsNumber result (digits ++ digit ∷ []) }
{
    let Some(before) = value else {
        return None;
    };
    let more = u64::from(digit - b'0');
    if before > (u64::MAX - more) / 10 {
        None
    } else {
        Some(10 * before + more)
    }
}

/// The vertex of a number, or what is wrong with it.
pub fn vertex_of(limits: &TextLimits, value: Option<u64>) -> Result<u32, InputWhat>
    ensures reads { (digits : List ℕ) → IsValue value digits → result ≡ vertex_at limits.now (value_of digits) }
    ensures fits { IfOk result (λ n. n ≤ limits.now.max_vertex) }
{
    let Some(n) = value else {
        return Err(InputWhat::NumberTooLarge);
    };
    if n > u64::from(limits.max_vertex) {
        return Err(InputWhat::VertexTooLarge);
    }
    match limits.vertices {
        None => Ok(n as u32),
        Some(vertices) => {
            if n >= u64::from(vertices) {
                Err(InputWhat::VertexBeyond)
            } else {
                Ok(n as u32)
            }
        }
    }
}

/// The weight of a number, or what is wrong with it.
pub fn weight_of(value: Option<u64>) -> Result<u32, InputWhat>
    ensures { (digits : List ℕ) → IsValue value digits → result ≡ weight_at (value_of digits) }
{
    let Some(n) = value else {
        return Err(InputWhat::NumberTooLarge);
    };
    if n > u64::from(u32::MAX) {
        return Err(InputWhat::WeightTooLarge);
    }
    Ok(n as u32)
}
