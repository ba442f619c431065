//! The code by which a sender shows that it has a key: HMAC with SHA-256 (RFC 2104).

ghost use Rattle.std.specs.Prelude.{◌≡◌, ◌≤◌, ◌++◌, [], List, ℕ, length, map, replicate};
ghost use Rattle.fedi_mac.specs.Hmac.{block_key, filled, hmac, inner_block, outer_block, padded};
ghost use Rattle.fedi_mac.specs.Macs.{IsFed};

use sha2::{Digest, Sha256};

/// How many bytes a block of SHA-256 has (FIPS 180-4, section 1).
const BLOCK_SIZE: usize = 64;

/// The bytes that the inner and the outer pad repeat (RFC 2104, section 2).
const INNER_PAD: u8 = 0x36;

const OUTER_PAD: u8 = 0x5c;

/// The HMAC-SHA-256 under way of a text that comes in pieces, under one key (RFC 2104, section 2).
/// The key itself is not kept.
#[derive(Drop)]
pub struct Mac {
    inner: Sha256,
    outer: Sha256,
}

// Copies the key to the start of a block of zeros.
fn fill(block: &mut [u8; BLOCK_SIZE], key: &[u8])
    requires zeros { block.old ≡ replicate 64 0 }
    requires short { length key.now ≤ 64 }
    ensures { block.new ≡ filled key.now }
{
    block[..key.len()].copy_from_slice(key);
}

// The key as a block.
#[tactic(auto, unfolding(crate::specs::Hmac::block_key))]
fn block_key(key: &[u8]) -> [u8; BLOCK_SIZE]
    ensures { result ≡ block_key key.now }
{
    let mut block = [0; BLOCK_SIZE];
    if key.len() > BLOCK_SIZE {
        let digest: [u8; 32] = Sha256::digest(key);
        fill(&mut block, digest.as_slice());
    } else {
        fill(&mut block, key);
    }
    block
}

#[tactic(auto, unfolding(crate::specs::Hmac::padded))]
fn pad_byte(byte: &mut u8, pad: u8)
    ensures { byte.new ≡ padded pad byte.old }
{
    *byte ^= pad;
}

#[tactic(auto, using(crate::proofs::Pads::padded_more))]
fn pad_bytes(bytes: &mut [u8], pad: u8)
    ensures { bytes.new ≡ map (padded pad) bytes.old }
{
    for byte in bytes.iter_mut() {
        pad_byte(byte, pad);
    }
}

// The block that is put before the text.
#[tactic(auto, unfolding(crate::specs::Hmac::inner_block))]
fn inner_block(key: &[u8]) -> [u8; BLOCK_SIZE]
    ensures { result ≡ inner_block key.now }
{
    let mut block = block_key(key);
    pad_bytes(block.as_mut_slice(), INNER_PAD);
    block
}

// The block that is put before the inner digest.
#[tactic(auto, unfolding(crate::specs::Hmac::outer_block))]
fn outer_block(key: &[u8]) -> [u8; BLOCK_SIZE]
    ensures { result ≡ outer_block key.now }
{
    let mut block = block_key(key);
    pad_bytes(block.as_mut_slice(), OUTER_PAD);
    block
}

impl Mac {
    /// The code under this key, of any length, of no text yet.
    pub fn new(key: &[u8]) -> Mac
        ensures { IsFed result key.now [] }
    {
        let mut inner = Sha256::new();
        inner.update(inner_block(key));
        let mut outer = Sha256::new();
        outer.update(outer_block(key));
        Mac { inner, outer }
    }

    /// Adds a piece to the text, at its end.
    pub fn push(&mut self, piece: &[u8])
        ensures { (key text : List ℕ) → IsFed self.old key text
            → IsFed self.new key (text ++ piece.now) }
    {
        self.inner.update(piece);
    }

    /// The code of all pieces joined. Compare it with one that is shown by `matches`.
    #[tactic(auto, unfolding(crate::specs::Hmac::hmac))]
    pub fn finish(self) -> [u8; 32]
        ensures { (key text : List ℕ) → IsFed self key text → result ≡ hmac key text }
    {
        let inner_digest = self.inner.finalize();
        let mut outer = self.outer;
        outer.update(inner_digest);
        outer.finalize()
    }
}
