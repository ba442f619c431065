//! What is written after a gate.
ghost use Rattle.std.specs.Prelude.{◌≡◌, ◌+◌, ◌≤◌, length, vec_capacity};
ghost use Rattle.fedi_outside.specs.Images.{size_code};
ghost use Rattle.fedi_journal.specs.Blocks.{block_of};

/// The number that these eight bytes encode, the most significant first.
pub fn number_of(bytes: &[u8; 8]) -> u64
    ensures { bytes.now ≡ size_code result }
{
    u64::from_be_bytes(*bytes)
}

/// Replaces the contents of the block by the length of a record, the record, its seal and a closed
/// gate. There is room.
pub fn write_block(block: &mut Vec<u8>, payload: &[u8], seal: &[u8])
    requires room { 9 + length payload.now + length seal.now ≤ vec_capacity block.old }
    ensures bytes { block.new.items ≡ block_of payload.now seal.now }
    ensures capacity { vec_capacity block.old ≤ vec_capacity block.new }
{
    block.clear();
    // These do not fail if there is room.
    let _ = block.extend_from_slice(&(payload.len() as u64).to_be_bytes());
    let _ = block.extend_from_slice(payload);
    let _ = block.extend_from_slice(seal);
    let _ = block.push(0);
}
