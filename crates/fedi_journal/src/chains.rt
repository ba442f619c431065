//! Records that are sealed by a chain of digests.
ghost use Rattle.std.specs.Prelude.{◌≡◌, ◌<◌, ◌≤◌, ℕ, ◌+◌, ◌^◌, List, ◌∷◌, ◌++◌, length, take};
ghost use Rattle.std.specs.Prelude.{drop, true, Some, IfOk, OnOk};
ghost use Rattle.fedi_outside.specs.Disks.{Elapses, after_reading};
ghost use Rattle.fedi_outside.specs.Images.{IsFormat};
ghost use Rattle.fedi_journal.specs.ChainRows.{FirstFile};
ghost use Rattle.fedi_journal.specs.ChainLaws.{chained_ok, hidden_ok};
ghost use Rattle.fedi_journal.specs.Chains.{ChainsDetermine, IsLinked, PrefixesDetermine, chain};
ghost use Rattle.fedi_journal.specs.Chains.{chained, hidden, link};
ghost use Rattle.sha2.specs.Hashers.{Holds256};

use crate::seals::Seal;
use fedi_outside::{Disk, Failed};
use sha2::{Digest, Sha256};

/// How many bytes of a record are hashed at a time, so that a record of any length takes no memory.
const PIECE: usize = 1024;

// Feeds the hasher the bytes at this offset, at most as many as a piece.
fn hash_piece<D: Disk>(
    disk: &mut D,
    at: u64,
    count: usize,
    hasher: &mut Sha256,
) -> Result<(), Failed>
    requires inside { at + count ≤ (D.shown disk.old).size }
    requires small { count ≤ 1024 }
    ensures held { OnOk result ((bytes message : List ℕ) → (D.shown disk.old).reads ≡ Some bytes
        → Holds256 hasher.old message
        → Holds256 hasher.new (message ++ take count (drop at bytes))) }
    ensures shown { D.shown disk.new ≡ after_reading result (D.shown disk.old) }
    ensures time { Elapses (D.crashes disk.old) (D.crashes disk.new)
        (D.crashes disk.old).may_leave }
{
    let mut piece = [0; PIECE];
    disk.read_at(at, &mut piece[..count])?;
    hasher.update(&piece[..count]);
    Ok(())
}

// Feeds the hasher this many bytes at this offset.
fn hash_all<D: Disk>(disk: &mut D, at: u64, length: u64, hasher: &mut Sha256) -> Result<(), Failed>
    requires inside { at + length ≤ (D.shown disk.old).size }
    requires fits { at + length < 2 ^ 64 }
    ensures held { OnOk result ((bytes message : List ℕ) → (D.shown disk.old).reads ≡ Some bytes
        → Holds256 hasher.old message
        → Holds256 hasher.new (message ++ take length (drop at bytes))) }
    ensures shown { D.shown disk.new ≡ after_reading result (D.shown disk.old) }
    ensures time { Elapses (D.crashes disk.old) (D.crashes disk.new)
        (D.crashes disk.old).may_leave }
{
    let mut done = 0;
    'pieces: while done < length {
        let count = (length - done).min(PIECE as u64);
        hash_piece(disk, at + done, count as usize, hasher)?;
        done += count;
    }
    Ok(())
}

// The chain after one more record, from the chain before it.
fn link(tip: &[u8; 32], payload: &[u8]) -> [u8; 32]
    ensures { result ≡ link tip.now payload.now }
{
    let mut hasher = Sha256::new();
    hasher.update(tip.as_slice());
    hasher.update((payload.len() as u64).to_be_bytes().as_slice());
    hasher.update(payload);
    hasher.finalize()
}

// The chain after the record of this length at this offset, from the chain before it.
fn hash_record<D: Disk>(
    tip: &[u8; 32],
    disk: &mut D,
    at: u64,
    length: u64,
) -> Result<[u8; 32], Failed>
    requires inside { at + length ≤ (D.shown disk.old).size }
    requires fits { at + length < 2 ^ 64 }
    ensures next { IfOk result (λ next. (bytes : List ℕ) → (D.shown disk.old).reads ≡ Some bytes
        → next ≡ link tip.now (take length (drop at bytes))) }
    ensures shown { D.shown disk.new ≡ after_reading result (D.shown disk.old) }
    ensures time { Elapses (D.crashes disk.old) (D.crashes disk.new)
        (D.crashes disk.old).may_leave }
{
    let mut hasher = Sha256::new();
    hasher.update(tip.as_slice());
    hasher.update(length.to_be_bytes().as_slice());
    hash_all(disk, at, length, &mut hasher)?;
    Ok(hasher.finalize())
}

// Whether these bytes are at this offset.
fn is_there<D: Disk>(disk: &mut D, at: u64, seal: &[u8; 32]) -> Result<bool, Failed>
    requires inside { at + 32 ≤ (D.shown disk.old).size }
    ensures yes { IfOk result (λ yes. (bytes : List ℕ) → (D.shown disk.old).reads ≡ Some bytes
        → yes ≡ true → take 32 (drop at bytes) ≡ seal.now) }
    ensures no { IfOk result (λ yes. (bytes : List ℕ) → (D.shown disk.old).reads ≡ Some bytes
        → take 32 (drop at bytes) ≡ seal.now → yes ≡ true) }
    ensures shown { D.shown disk.new ≡ after_reading result (D.shown disk.old) }
    ensures time { Elapses (D.crashes disk.old) (D.crashes disk.new)
        (D.crashes disk.old).may_leave }
{
    let mut found = [0; 32];
    disk.read_at(at, &mut found)?;
    Ok(found == *seal)
}

// The chain after the record of this length at this offset, from the chain before it; or none if
// other bytes follow the record.
fn follow_link<D: Disk>(
    tip: &[u8; 32],
    disk: &mut D,
    at: u64,
    length: u64,
) -> Result<Option<[u8; 32]>, Failed>
    requires inside { at + length + 32 ≤ (D.shown disk.old).size }
    requires fits { at + length < 2 ^ 64 }
    ensures found { IfOk result (λ found. (bytes : List ℕ) → (D.shown disk.old).reads ≡ Some bytes
        → IsLinked tip.now (take length (drop at bytes)) (drop (at + length) bytes) found) }
    ensures shown { D.shown disk.new ≡ after_reading result (D.shown disk.old) }
    ensures time { Elapses (D.crashes disk.old) (D.crashes disk.new)
        (D.crashes disk.old).may_leave }
{
    let next = hash_record(tip, disk, at, length)?;
    let there = is_there(disk, at + length, &next)?;
    Ok(if there { Some(next) } else { None })
}

/// The chain of the records of a journal.
#[derive(Drop)]
pub struct Chain {
    tip: [u8; 32],
}

impl Chain {
    /// The chain, in 32 bytes.
    pub fn tip(&self) -> [u8; 32]
        ensures { result ≡ self.now.tip }
    {
        self.tip
    }
}

impl Seal for Chain {
    ghost format = { chained };

    ghost after = { λ rs. record { tip = chain rs } };

    ghost is_format = { chained_ok };

    fn magic() -> [u8; 8] {
        *b"FEDIJRN2"
    }

    fn is_older(first: &[u8; 8]) -> bool {
        *first == *b"FEDIJRN1"
    }

    fn width() -> u64 {
        32
    }

    #[tactic(auto, unfolding(crate::specs::Chains::chain))]
    fn start() -> Self {
        Chain { tip: [0; 32] }
    }

    fn next(&self, payload: &[u8]) -> Self {
        Chain {
            tip: link(&self.tip, payload),
        }
    }

    fn bytes(&self) -> &[u8] {
        self.tip.as_slice()
    }

    fn follow<D: Disk>(&self, disk: &mut D, at: u64, length: u64) -> Result<Option<Self>, Failed> {
        match follow_link(&self.tip, disk, at, length)? {
            Some(tip) => Ok(Some(Chain { tip })),
            None => Ok(None),
        }
    }
}

/// The chain of the records of a hidden file.
#[derive(Drop)]
pub struct HiddenChain {
    tip: [u8; 32],
}

impl HiddenChain {
    /// The same chain, of a journal.
    pub fn reveal(&self) -> Chain
        ensures { result.tip ≡ self.now.tip }
    {
        let tip = self.tip;
        Chain { tip }
    }
}

impl Seal for HiddenChain {
    ghost format = { hidden };

    ghost after = { λ rs. record { tip = chain rs } };

    ghost is_format = { hidden_ok };

    fn magic() -> [u8; 8] {
        *b"FEDIJRN0"
    }

    fn is_older(_first: &[u8; 8]) -> bool {
        false
    }

    fn width() -> u64 {
        32
    }

    #[tactic(auto, unfolding(crate::specs::Chains::chain))]
    fn start() -> Self {
        HiddenChain { tip: [0; 32] }
    }

    fn next(&self, payload: &[u8]) -> Self {
        HiddenChain {
            tip: link(&self.tip, payload),
        }
    }

    fn bytes(&self) -> &[u8] {
        self.tip.as_slice()
    }

    fn follow<D: Disk>(&self, disk: &mut D, at: u64, length: u64) -> Result<Option<Self>, Failed> {
        match follow_link(&self.tip, disk, at, length)? {
            Some(tip) => Ok(Some(HiddenChain { tip })),
            None => Ok(None),
        }
    }
}

/// The two formats whose records are sealed by a chain are formats: their magic has 8 bytes, and
/// each seal has 32.
pub fn chained_are_formats()
    ensures chained { IsFormat chained }
    ensures hidden { IsFormat hidden }
{}

/// Who has the chain of a number of records has these records: others with the same chain collide
/// under SHA-256. So a tip shows that a file was cut or exchanged, and that one file is the first
/// part of another.
pub fn chains_determine_records()
    ensures whole { ChainsDetermine }
    ensures part { PrefixesDetermine }
{}

/// The file of one record is the one that FORMAT shows, byte for byte; with another byte in its
/// record it is damaged at its gate.
#[tactic(auto, using(crate::proofs::ChainRows::first_rows))]
pub fn first_files_are_as_computed()
    ensures { FirstFile }
{}
