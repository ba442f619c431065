//! Pieces of a text, cut at bytes of ASCII.

ghost use Rattle.std.specs.Prelude.{◌≡◌, ◌<◌, ◌==◌};
ghost use Rattle.std.specs.List.{before_first, after_first};
ghost use Rattle.fedi_address.specs.Pieces.{from_first, after_any};

/// The text before the first mark, or all of it if there is none.
pub fn before(text: &str, mark: char) -> &str
    requires { mark < 128 }
    ensures { result.now ≡ before_first (λ b. b == mark) text.now }
{
    match text.split_once(mark) {
        Some((front, _)) => front,
        None => text,
    }
}

/// The text after the first mark, or nothing if there is none.
pub fn after(text: &str, mark: char) -> &str
    requires { mark < 128 }
    ensures { result.now ≡ after_first (λ b. b == mark) text.now }
{
    match text.split_once(mark) {
        Some((_, back)) => back,
        None => "",
    }
}

/// The text after the first mark, or all of it if there is none.
#[tactic(auto, unfolding(crate::specs::Pieces::after_any))]
pub fn after_any(text: &str, mark: char) -> &str
    requires { mark < 128 }
    ensures { result.now ≡ after_any (λ b. b == mark) text.now }
{
    match text.split_once(mark) {
        Some((_, back)) => back,
        None => text,
    }
}

/// The text from the first mark on, or nothing if there is none.
pub fn from(text: &str, mark: char) -> &str
    requires { mark < 128 }
    ensures { result.now ≡ from_first (λ b. b == mark) text.now }
{
    match text.split_once(mark) {
        Some((front, _)) => &text[front.len()..],
        None => "",
    }
}
