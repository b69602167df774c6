//! Conditions: what `.if` and `.ie` ask.

ghost use Rattle.std.specs.Prelude.{◌≡◌, ℕ, Option};
ghost use Rattle.input_escapes.specs.Conditions.{begins_expression, ends_at_backslash};
ghost use Rattle.input_escapes.specs.Conditions.{ends_condition, is_read_in_arguments, so_unless};
ghost use Rattle.input_escapes.specs.Conditions.{text_is_same};

use crate::open_escape::ConditionPart;

/// Whether a byte begins an expression.
pub(crate) fn begins_expression(byte: u8) -> bool
    ensures { result ≡ begins_expression byte }
{
    matches!(byte, b'0'..=b'9' | b'(' | b'+' | b'-' | b'.' | b'|')
}

/// Whether the byte behind a backslash is read there in arguments: the escape isn't kept.
pub(crate) fn is_read_in_arguments(byte: u8) -> bool
    ensures { result ≡ is_read_in_arguments byte }
{
    matches!(
        byte,
        b'\n' | b'n' | b'*' | b'$' | b'\\' | b'.' | b't' | b'"' | b'w'
    )
}

/// Whether a backslash in a condition is taken alone where its escape would be kept.
pub(crate) fn ends_at_backslash(part: ConditionPart) -> bool
    ensures { result ≡ ends_at_backslash part }
{
    match part {
        ConditionPart::Choice { .. } | ConditionPart::Expression { .. } => true,
        ConditionPart::Compared { .. } | ConditionPart::Decided { .. } => false,
    }
}

/// Whether what is seen in front stays, and ends a condition: a byte, or nothing that can be read.
pub(crate) fn ends_condition(part: ConditionPart, seen: Option<u8>) -> bool
    ensures { result ≡ ends_condition part seen }
{
    match part {
        ConditionPart::Expression { .. } => matches!(seen, Some(b' ' | b'\t' | b'\n')),
        ConditionPart::Decided { .. } => true,
        ConditionPart::Choice { .. } | ConditionPart::Compared { .. } => seen == Some(b'\n'),
    }
}

/// What is so, or behind a `!` what isn't.
pub(crate) fn so_unless(negated: bool, so: bool) -> bool
    ensures { result ≡ so_unless negated so }
{
    so != negated
}

/// Whether two texts are the same that stand behind each other: the first has so many bytes, or all
/// of them.
pub(crate) fn is_text_same(text: &[u8], first: Option<usize>) -> bool
    ensures { result ≡ text_is_same first text.now }
{
    match first {
        None => text.is_empty(),
        Some(first) => {
            let first = first.min(text.len());
            text[..first] == text[first..]
        }
    }
}
