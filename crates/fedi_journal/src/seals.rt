//! How the records of a file are sealed.
ghost use Rattle.std.specs.Prelude.{◌≡◌, ◌↔◌, ◌<◌, ◌≤◌, ℕ, ◌+◌, ◌^◌, List, [], ◌∷◌, ◌++◌, length};
ghost use Rattle.std.specs.Prelude.{take, drop, Some, IfOk, IsTrue};
ghost use Rattle.fedi_outside.specs.Disks.{Elapses, after_reading};
ghost use Rattle.fedi_outside.specs.Images.{Format, IsFormat, plain};
ghost use Rattle.fedi_outside.proofs.ImageLemmas.{plain_ok};
ghost use Rattle.fedi_journal.specs.Seals.{IsFollowed};

use fedi_outside::{Disk, Failed};

/// How a file seals its records. A value is what is remembered of the records so far, to seal the
/// next one.
pub trait Seal: Drop {
    /// How a file encodes records.
    ghost format: { Format };

    /// What is remembered after these records.
    ghost after: { List (List ℕ) → Self };

    /// The bytes that a file begins with.
    fn magic() -> [u8; 8]
        ensures { result ≡ format.magic };

    /// Whether these are the bytes that a file of the format before this one begins with.
    fn is_older(first: &[u8; 8]) -> bool
        ensures { IsTrue result ↔ (format.older ≡ Some first.now) };

    /// How many bytes seal a record.
    fn width() -> u64
        ensures width { result ≡ format.width }
        ensures narrow { result ≤ 32 };

    /// What is remembered of no records.
    fn start() -> Self
        ensures { result ≡ after [] };

    /// What is remembered after one more record.
    fn next(&self, payload: &[u8]) -> Self
        ensures { (rs : List (List ℕ)) → self.now ≡ after rs
            → result ≡ after (rs ++ payload.now ∷ []) };

    /// The seal of the last record.
    fn bytes(&self) -> &[u8]
        ensures count { length result.now ≡ format.width }
        ensures seal { (rs : List (List ℕ)) (r : List ℕ) → self.now ≡ after (rs ++ r ∷ [])
            → result.now ≡ format.seal rs r };

    /// What is remembered after the record of this length at this offset, or none if it is not
    /// followed by its seal.
    fn follow<D: Disk>(&self, disk: &mut D, at: u64, length: u64) -> Result<Option<Self>, Failed>
        requires inside { at + length + format.width ≤ (D.shown disk.old).size }
        requires fits { at + length < 2 ^ 64 }
        ensures found { IfOk result (λ found. (rs : List (List ℕ)) (bytes : List ℕ)
            → self.now ≡ after rs → (D.shown disk.old).reads ≡ Some bytes
            → IsFollowed format after rs (take length (drop at bytes)) (drop (at + length) bytes)
            found) }
        ensures shown { D.shown disk.new ≡ after_reading result (D.shown disk.old) }
        ensures time { Elapses (D.crashes disk.old) (D.crashes disk.new)
            (D.crashes disk.old).may_leave };

    /// It is a format.
    ghost is_format: { IsFormat format };
}

/// Records that are not sealed.
#[derive(Drop)]
pub struct Unsealed;

impl Seal for Unsealed {
    ghost format = { plain };

    ghost after = { λ _. record {} };

    ghost is_format = { plain_ok };

    fn magic() -> [u8; 8] {
        *b"FEDIJRN1"
    }

    fn is_older(_first: &[u8; 8]) -> bool {
        false
    }

    fn width() -> u64 {
        0
    }

    fn start() -> Self {
        Unsealed
    }

    fn next(&self, _payload: &[u8]) -> Self {
        Unsealed
    }

    fn bytes(&self) -> &[u8] {
        &[]
    }

    fn follow<D: Disk>(
        &self,
        _disk: &mut D,
        _at: u64,
        _length: u64,
    ) -> Result<Option<Self>, Failed> {
        Ok(Some(Unsealed))
    }
}
