//! Where the sheet of an input ends, and where a line ends.
ghost use Rattle.std.specs.Prelude.{◌≡◌, [], ◌∷◌, IfNone, IfSome};
ghost use Rattle.sheet.specs.Texts.{lines};
ghost use Rattle.listing.specs.Inputs.{sheet_part, ticks_part};

/// What stands before the first empty line, the sheet, and what stands behind it, the tick lines.
pub(crate) fn split_input(input: &[u8]) -> (&[u8], &[u8])
    ensures sheet { result.0.now ≡ sheet_part input.now }
    ensures ticks { result.1.now ≡ ticks_part input.now }
{
    if let [b'\n', rest @ ..] = input {
        return (&[], rest);
    }
    match input
        .windows(2)
        .position(|pair| matches!(pair, [b'\n', b'\n']))
    {
        Some(at) => (&input[..=at], &input[at + 2..]),
        None => (input, &[]),
    }
}

/// The first line and what stands behind it; an empty text has none.
pub(crate) fn split_line(text: &[u8]) -> Option<(&[u8], &[u8])>
    ensures none { IfNone result (text.now ≡ []) }
    ensures some { IfSome result (λ p. lines text.now ≡ p.0.now ∷ lines p.1.now) }
{
    if text.is_empty() {
        return None;
    }
    match text.iter().position(|b| *b == b'\n') {
        Some(end) => Some((&text[..end], &text[end + 1..])),
        None => Some((text, &[])),
    }
}
