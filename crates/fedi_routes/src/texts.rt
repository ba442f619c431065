//! Pieces of texts.

ghost use Rattle.std.specs.Prelude.{◌≡◌, ◌==◌, position};
ghost use Rattle.std.specs.List.{before_first, after_first};

/// The bytes before the first of these bytes, or all of them.
pub(crate) fn before(text: &[u8], mark: u8) -> &[u8]
    ensures { result.now ≡ before_first (λ b. b == mark) text.now }
{
    match first(text, mark) {
        Some(end) => &text[..end],
        None => text,
    }
}

/// The bytes after the first of these bytes, or nothing.
pub(crate) fn after(text: &[u8], mark: u8) -> &[u8]
    ensures { result.now ≡ after_first (λ b. b == mark) text.now }
{
    match first(text, mark) {
        Some(end) => &text[end + 1..],
        None => &[],
    }
}

/// The index at which this byte first occurs.
fn first(text: &[u8], wanted: u8) -> Option<usize>
    ensures { result ≡ position (λ b. b == wanted) text.now }
{
    text.iter().position(|byte| *byte == wanted)
}
