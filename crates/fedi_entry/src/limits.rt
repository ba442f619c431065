//! The limits of texts.

ghost use Rattle.std.specs.Prelude.{◌≡◌};
ghost use Rattle.fedi_entry.specs.Fields.{test_of};

use fedi_objects::{is_address, is_content, is_date, is_type};

/// The kind of a text, which determines its limits.
#[derive(Clone, Copy)]
pub enum Limit {
    /// A content, a summary or a name.
    Content,
    /// A type.
    Kind,
    /// A date.
    Date,
    /// The address where a peer is reached.
    Address,
}

impl Limit {
    /// Whether the text keeps these limits.
    pub fn passes(self, text: &str) -> bool
        ensures { result ≡ test_of self text.now }
    {
        match self {
            Limit::Content => is_content(text),
            Limit::Kind => is_type(text),
            Limit::Date => is_date(text),
            Limit::Address => is_address(text),
        }
    }
}
