//! JSON documents and their members, written directly (RFC 8259).

ghost use Rattle.std.specs.Prelude.{◌≡◌, ◌+◌, ◌≤◌, ◌++◌, length, [], map, IfOk, OnOk, Some};
ghost use Rattle.std.specs.Prelude.{option_map};
ghost use Rattle.std.specs.Option.{option_copied};
ghost use Rattle.serde_json.specs.Data.{Data, string};
ghost use Rattle.serde_json.specs.Written.{compact_text};
ghost use Rattle.fedi_objects.specs.Writing.{Adds, IsDocument, listed, member_tokens};

use arrayvec::ArrayString;
use fedi_address::Iri;
use fedi_text::Text;
use json::Writer;
use std::alloc::{AllocError, Global};

/// The initial capacity of a document, in bytes.
const ROOM: usize = 512;

/// The longest text joined from two parts: an address and a path after it.
const LONGEST: usize = 2_304;

/// Most such texts are at most this long.
const SHORT: usize = 160;

/// An empty document. The error is out of memory.
pub fn new_document(alloc: Global) -> Result<Writer, AllocError>
    ensures before { IfOk result (λ out. out.before ≡ []) }
    ensures tokens { IfOk result (λ out. out.tokens ≡ []) }
{
    let bytes = Vec::with_capacity(alloc, ROOM)?;
    Ok(Writer::new(bytes))
}

/// The bytes of a document, with no space between the tokens. It takes no memory.
pub fn text_of(out: Writer) -> Vec<u8>
    ensures { (d : Data) → IsDocument d out → result.items ≡ compact_text d }
{
    out.into_inner()
}

/// Writes a member with a text. The error is out of memory.
pub fn write_str(out: &mut Writer, key: &str, text: &str) -> Result<(), AllocError>
    ensures { OnOk result
        (Adds (member_tokens key.now (Some (string text.now))) out.old out.new) }
{
    out.key(key)?;
    out.string(text)
}

/// Writes a member whose text is the two texts joined, of at most 2,304 bytes in total. The error
/// is out of memory.
pub fn write_joined(out: &mut Writer, key: &str, front: &str, back: &str) -> Result<(), AllocError>
    requires { length front.now + length back.now ≤ 2304 }
    ensures { OnOk result
        (Adds (member_tokens key.now (Some (string (front.now ++ back.now)))) out.old out.new) }
{
    // The buffer is cleared first, so most texts are joined in a smaller one.
    if front.len() + back.len() <= SHORT {
        let mut text = ArrayString::<SHORT>::new();
        text.push_str(front);
        text.push_str(back);
        return write_str(out, key, text.as_str());
    }
    let mut text = ArrayString::<LONGEST>::new();
    text.push_str(front);
    text.push_str(back);
    write_str(out, key, text.as_str())
}

/// Writes a member with a text, if there is one. The error is out of memory.
pub fn write_text(out: &mut Writer, key: &str, text: Option<&Text>) -> Result<(), AllocError>
    ensures { OnOk result
        (Adds (member_tokens key.now (option_map string (option_copied text.entry)))
        out.old out.new) }
{
    match text {
        None => Ok(()),
        Some(text) => write_str(out, key, text.text()),
    }
}

/// Writes a member with an address, if there is one. The error is out of memory.
pub fn write_iri(out: &mut Writer, key: &str, iri: Option<&Iri>) -> Result<(), AllocError>
    ensures { OnOk result
        (Adds (member_tokens key.now (option_map string (option_copied iri.entry)))
        out.old out.new) }
{
    match iri {
        None => Ok(()),
        Some(iri) => write_str(out, key, iri.text()),
    }
}

/// Writes a member with these addresses, if there are any. The error is out of memory.
pub fn write_iris(out: &mut Writer, key: &str, iris: &[Iri]) -> Result<(), AllocError>
    ensures { OnOk result
        (Adds (member_tokens key.now (listed (map string iris.now))) out.old out.new) }
{
    if iris.is_empty() {
        return Ok(());
    }
    out.key(key)?;
    out.begin_array()?;
    for iri in iris {
        out.string(iri.text())?;
    }
    out.end_array()
}
