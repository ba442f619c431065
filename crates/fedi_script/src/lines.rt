//! The lines of a script.

ghost use Rattle.std.specs.Prelude.{◌≡◌, ◌≢◌, ◌==◌, ◌<◌, ◌∷◌, [], length, position};
ghost use Rattle.fedi_script.specs.Lines.{lines_of};

/// The longest script, in bytes.
pub const LONGEST: usize = 1_048_576;

/// The index of the first line feed.
fn feed_in(script: &[u8]) -> Option<usize>
    ensures { result ≡ position (λ byte. byte == 10) script.now }
{
    script.iter().position(|byte| *byte == b'\n')
}

/// The first line of what is left of a script, without its line feed, and what is left after it.
pub fn next_line(script: &[u8]) -> (&[u8], &[u8])
    requires { script.now ≢ [] }
    ensures line { lines_of script.now ≡ result.0.now ∷ lines_of result.1.now }
    ensures less { length result.1.now < length script.now }
{
    match feed_in(script) {
        Some(end) => (&script[..end], &script[end + 1..]),
        None => (script, &[]),
    }
}
