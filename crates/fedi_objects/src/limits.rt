//! The limits on the contents of an entry, each on one text by itself.

ghost use Rattle.std.specs.Prelude.{◌≡◌};
ghost use Rattle.std.specs.List.{list_all};
ghost use Rattle.fedi_objects.specs.Keys.{is_visible};
ghost use Rattle.fedi_objects.specs.Limits as limits;

/// The longest content, summary or name, in bytes.
const LONGEST_TEXT: usize = 65_536;

/// The longest type or date, in bytes.
const LONGEST_WORD: usize = 64;

/// The longest address of a peer, in bytes.
const LONGEST_ADDRESS: usize = 255;

/// Whether the text may be a content, a summary or a name: at most 65,536 bytes.
#[tactic(auto, unfolding(crate::specs::Limits::is_text))]
pub fn is_content(text: &str) -> bool
    ensures { result ≡ limits.is_text text.now }
{
    text.len() <= LONGEST_TEXT
}

/// Whether the text may be a type: 1 to 64 bytes.
#[tactic(auto, unfolding(crate::specs::Limits::is_type))]
pub fn is_type(text: &str) -> bool
    ensures { result ≡ limits.is_type text.now }
{
    1 <= text.len() && text.len() <= LONGEST_WORD
}

fn is_date_byte(byte: u8) -> bool
    ensures { result ≡ limits.is_date_byte byte }
{
    32 <= byte && byte <= 126
}

fn has_date_bytes(text: &[u8]) -> bool
    ensures { result ≡ list_all limits.is_date_byte text.now }
{
    text.iter().all(|byte| is_date_byte(*byte))
}

/// Whether the text may be a date as it was given: at most 64 bytes, each a printing ASCII
/// character or a space (32 to 126).
#[tactic(auto, unfolding(crate::specs::Limits::is_date))]
pub fn is_date(text: &str) -> bool
    ensures { result ≡ limits.is_date text.now }
{
    text.len() <= LONGEST_WORD && has_date_bytes(text.as_bytes())
}

fn is_visible(byte: u8) -> bool
    ensures { result ≡ is_visible byte }
{
    33 <= byte && byte <= 126
}

// Whether each byte is a printing ASCII character other than a space.
pub(crate) fn has_visible_bytes(text: &[u8]) -> bool
    ensures { result ≡ list_all is_visible text.now }
{
    text.iter().all(|byte| is_visible(*byte))
}

/// Whether the text may be the address of a peer: 1 to 255 bytes, each a printing ASCII character
/// other than a space (33 to 126).
pub fn is_address(text: &str) -> bool
    ensures { result ≡ limits.is_address text.now }
{
    1 <= text.len() && text.len() <= LONGEST_ADDRESS && has_visible_bytes(text.as_bytes())
}
