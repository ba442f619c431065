//! Marks for strings.

ghost use Rattle.std.specs.Prelude.{◌≡◌};
ghost use Rattle.fedi_register.specs.Seeds.{mark_in, mark_of, mark_of_pair, seed_of};

use fedi_address::Iri;
use std::hash::{DefaultHasher, Hasher};

// A byte that occurs in no text, used to separate two of them.
const SEPARATOR: u8 = 0xff;

/// A secret with which SipHash computes a mark for a string. Somebody who does not know it cannot
/// choose many strings with the same mark, which would make look-ups slow.
#[derive(Clone, Copy)]
pub struct Seed {
    // The hasher after writing the secret bytes.
    state: DefaultHasher,
}

#[tactic(auto, unfolding(crate::specs::Seeds::mark_in))]
fn mark_in(hasher: DefaultHasher) -> u32
    ensures { result ≡ mark_in hasher }
{
    (hasher.finish() % (1 << 32)) as u32
}

impl Seed {
    /// The seed of these bytes. There should be at least 16, random and kept secret.
    #[tactic(auto, unfolding(crate::specs::Seeds::seed_of))]
    pub fn new(bytes: &[u8]) -> Seed
        ensures { result ≡ seed_of bytes.now }
    {
        let mut state = DefaultHasher::new();
        state.write(bytes);
        Seed { state }
    }

    /// A number for a string that distinguishes it from most other strings.
    #[tactic(auto, unfolding(crate::specs::Seeds::mark_of))]
    pub fn mark_of(&self, text: &[u8]) -> u32
        ensures { result ≡ mark_of self.now text.now }
    {
        let mut hasher = self.state;
        hasher.write(text);
        mark_in(hasher)
    }

    /// The number for the text of an IRI.
    pub fn mark_of_iri(&self, iri: &Iri) -> u32
        ensures { result ≡ mark_of self.now iri.now }
    {
        self.mark_of(iri.text().as_bytes())
    }

    /// A number for an IRI and a string that distinguishes the pair from most other pairs.
    #[tactic(auto, unfolding(crate::specs::Seeds::mark_of_pair))]
    pub fn mark_of_pair(&self, iri: &Iri, text: &str) -> u32
        ensures { result ≡ mark_of_pair self.now iri.now text.now }
    {
        let mut hasher = self.state;
        hasher.write(iri.text().as_bytes());
        hasher.write(&[SEPARATOR]);
        hasher.write(text.as_bytes());
        mark_in(hasher)
    }
}
