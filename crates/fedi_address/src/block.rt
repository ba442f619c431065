//! Texts that have several owners.

ghost use Rattle.std.specs.Prelude.{◌≡◌, IfOk, string_bytes};
ghost use Rattle.fedi_address.specs.Blocks.{text_in};

use arrayvec::ArrayString;
use std::alloc::{AllocError, Global};
use std::sync::Arc;

// A text, stored once for all its owners. Most texts have at most 48 bytes, and these are stored in
// the block itself.
#[derive(Drop)]
pub(crate) enum Block {
    Short(ArrayString<48>),
    Long(String),
}

/// A block with this text and one owner. The error is out of memory.
pub(crate) fn new_block(alloc: Global, text: &str) -> Result<Arc<Block>, AllocError>
    ensures { IfOk result (λ block. text_in block.value ≡ text.now) }
{
    let block = match ArrayString::from(text) {
        Ok(short) => Block::Short(short),
        Err(_) => Block::Long(String::from_str(alloc, text)?),
    };
    Ok(Arc::new(alloc, block)?)
}

/// A block that takes over this text, with one owner. The error is out of memory.
pub(crate) fn block_of(alloc: Global, text: String) -> Result<Arc<Block>, AllocError>
    ensures { IfOk result (λ block. text_in block.value ≡ string_bytes text) }
{
    let block = match ArrayString::from(text.as_str()) {
        Ok(short) => Block::Short(short),
        Err(_) => Block::Long(text),
    };
    Ok(Arc::new(alloc, block)?)
}

/// The text in a block.
pub(crate) fn text_of(block: &Block) -> &str
    ensures { result.now ≡ text_in block.now }
{
    match block {
        Block::Short(text) => text.as_str(),
        Block::Long(text) => text.as_str(),
    }
}
