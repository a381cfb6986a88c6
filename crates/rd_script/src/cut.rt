ghost use Rattle.std.specs.Prelude.{◌≡◌, ◌≤◌, ◌<◌, ◌==◌, [], ◌∷◌, length, position, MatchOption, IfSome};
ghost use Rattle.std.specs.List.{slice_split};
ghost use Rattle.rd_script.specs.Script.{words_of};

/// What stands before the first of these bytes, and what stands behind it. None where there is no such byte.
pub fn cut_at_byte(text: &[u8], byte: u8) -> Option<(&[u8], &[u8])>
    ensures cut { MatchOption result (slice_split (λ b. b == byte) text.now ≡ text.now ∷ [])
        (λ parts. slice_split (λ b. b == byte) text.now
        ≡ parts.0.now ∷ slice_split (λ b. b == byte) parts.1.now) }
    ensures shorter { IfSome result (λ parts. length parts.1.now < length text.now) }
{
    let at = place_of(text, byte)?;
    Some((&text[..at], &text[at + 1..]))
}

/// Where the first of these bytes stands.
fn place_of(text: &[u8], byte: u8) -> Option<usize>
    ensures { result ≡ position (λ b. b == byte) text.now }
{
    text.iter().position(|other| *other == byte)
}

/// The only word of a text. None where it has more.
pub fn only_word(text: &[u8]) -> Option<&[u8]>
    ensures { MatchOption result (2 ≤ length (words_of text.now))
        (λ word. words_of text.now ≡ word.now ∷ []) }
{
    match cut_at_byte(text, b' ') {
        None => Some(text),
        Some(_) => None,
    }
}
