//! The lines of a text.

ghost use Rattle.std.specs.Prelude.{◌≡◌, ◌≢◌, ◌<◌, ◌==◌, ◌∷◌, [], length};
ghost use Rattle.std.specs.List.{position};
ghost use Rattle.text_forms.specs.Spelling.{lines_of};

/// The first line of a text that isn't empty, without the newline that ends it, and what is after it.
pub fn first_line(text: &[u8]) -> (&[u8], &[u8])
    ensures parts { text.now ≢ [] → lines_of text.now ≡ result.0.now ∷ lines_of result.1.now }
    ensures less { text.now ≢ [] → length result.1.now < length text.now }
{
    match newline(text) {
        None => (text, &text[text.len()..]),
        Some(at) => (&text[..at], &text[at + 1..]),
    }
}

fn newline(text: &[u8]) -> Option<usize>
    ensures { result ≡ position (λ byte. byte == 10) text.now }
{
    text.iter().position(|byte| *byte == b'\n')
}
