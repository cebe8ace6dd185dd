ghost use Rattle.std.specs.Prelude.{◌≡◌, ◌==◌, ◌∷◌, ◌++◌, [], position, MatchOption};
ghost use Rattle.std.specs.List.{slice_split};
ghost use Rattle.std.specs.Option.{option_map_or};

/// Cuts a text at the first separator: the bytes before it, and those after it, if it has one. Cut
/// again and again, the text gives its parts between separators.
pub fn cut_at(text: &[u8], separator: u8) -> (&[u8], Option<&[u8]>)
    ensures parts { slice_split (λ byte. byte == separator) text.now ≡ result.0.now ∷ option_map_or (λ rest. slice_split (λ byte. byte == separator) rest.now) result.1 [] }
    ensures whole { MatchOption result.1 (text.now ≡ result.0.now) (λ rest. text.now ≡ result.0.now ++ separator ∷ rest.now) }
{
    match find(text, separator) {
        Some(at) => (&text[..at], Some(&text[at + 1..])),
        None => (text, None),
    }
}

/// The place of the first such byte.
fn find(text: &[u8], byte: u8) -> Option<usize>
    ensures { result ≡ position (λ other. other == byte) text.now }
{
    text.iter().position(|other| *other == byte)
}
