//! A keeper of records on a disk.
ghost use Rattle.std.specs.Prelude.{ℕ, ◌≡◌, ◌<◌, ◌≤◌, ◌+◌, ◌-◌, ◌^◌, true, nat_lt, List, length};
ghost use Rattle.std.specs.Prelude.{get_or, is_some, Some, IfSome, vec_len, vec_capacity};
ghost use Rattle.fedi_outside.specs.Known.{IsKnown, are_apart, record_crashes, records_told};
ghost use Rattle.fedi_outside.proofs.ImageSteps.{leaves_records, told_count};
ghost use Rattle.fedi_journal.specs.Blocks.{doubt_in};
ghost use Rattle.fedi_journal.specs.Finding.{IsSealed};
ghost use Rattle.fedi_outside.proofs.Untouched.{untouched_now, untouched_then};
ghost use Rattle.fedi_outside.specs.Disks.{IsUntouched};

use crate::ahead::ReadAhead;
use crate::blocks::write_block;
use crate::chains::Chain;
use crate::faults::{InitFault, JournalFault};
use crate::finding::{find, find_gates};
use crate::making::make;
use crate::seals::{Seal, Unsealed};
use fedi_outside::{Disk, Failed, Keeper, LoadFault, ReserveFault, write_synced};
use std::alloc::Global;

/// The greatest end of a keeper.
const LIMIT: u64 = 1 << 62;

/// How much further than its length and its seal a record moves the end: its gate, and its length
/// in eight bytes.
const GROWTH: u64 = 9;

/// How much room beyond its length and its seal a record needs below the limit: the next gate too.
const ROOM: u64 = 10;

/// A keeper of records on a disk. It reports its records, and what a crash may leave of them, if
/// the disk reports its bytes.
///
/// After the magic there is a gate for each record: a byte 1, the length of the record in eight
/// bytes, the most significant first, the record and its seal. After the last one there is a closed
/// gate, a byte 0, and then anything. So what is written after the closed gate has no effect until
/// the gate is opened by a write of one byte, which no crash can tear.
#[derive(Drop)]
pub struct SealedJournal<D: Disk, S: Seal> {
    pub(crate) disk: D,
    // The offsets of the gates of the records.
    pub(crate) gates: Vec<u64>,
    // The offset of the closed gate.
    pub(crate) end: u64,
    // What was last written after the closed gate: the length of a record, the record, its seal,
    // and a closed gate.
    pub(crate) block: Vec<u8>,
    // Whether the gate before it may have been opened.
    pub(crate) in_doubt: bool,
    // Any record shorter than this has room.
    pub(crate) spare: usize,
    // What is remembered of the records, to seal the next one.
    pub(crate) seal: S,
    ghost room: { 0 < spare → (spare + 8 + S.format.width ≤ vec_capacity block)
        × (vec_len gates < vec_capacity gates) },
    ghost known: { IsKnown S.format (D.shown disk) (D.crashes disk) end gates.items
        (doubt_in S.format.width in_doubt block.items) },
    ghost sealed: { (bytes : List ℕ) → (D.shown disk).reads ≡ Some bytes
        → IsSealed S.format S.after (length gates.items) seal bytes },
}

/// A journal whose records are sealed by a chain of digests.
pub type Journal<D> = SealedJournal<D, Chain>;

/// A journal of the first format, whose records are not sealed.
pub type FirstJournal<D> = SealedJournal<D, Unsealed>;

impl<D: Disk, S: Seal> SealedJournal<D, S> {
    ghost use Rattle.std.specs.Prelude.{None, option_map, take, IfOk, IfErr};
    ghost use Rattle.fedi_outside.specs.Disks.{Elapses, LeavesOnly, MayTear, spliced};
    ghost use Rattle.fedi_outside.specs.Keepers.{MayLeave};
    ghost use Rattle.fedi_outside.specs.Images.{IsImage, front};
    ghost use Rattle.fedi_outside.specs.Opening.{IsDamagedAt, IsNoStore, IsOlder};
    ghost use Rattle.fedi_journal.specs.Finding.{faults_after};
    ghost use Rattle.fedi_journal.specs.Making.{IsOther, IsUnmade, KeepsOther, blank, blank_shown};
    ghost use Rattle.fedi_journal.specs.Opening.{disk_after, disk_of};

    /// Opens the records of a disk. It syncs before it reads, so that a crash leaves what it finds.
    /// Then it writes the last open gate and the closed gate again, which an earlier process may
    /// have failed to sync, and syncs once more. Whatever the result, reads give the same bytes,
    /// and a crash leaves nothing new.
    ///
    /// Each error hands the disk back: `NotAStore` if it has fewer than 9 bytes or does not begin
    /// with a magic, `OldFormat` if it begins with that of the format before this one, `Damaged`
    /// with the offset of the first gate that is malformed or whose record is not followed by its
    /// seal, `Failed` if the disk failed, and `Memory` if memory runs out, which can only happen if
    /// the disk begins with the magic.
    pub fn open(alloc: Global, disk: D) -> Result<SealedJournal<D, S>, (JournalFault, D)>
        ensures found { IfOk result (λ journal. (bytes : List ℕ) → (D.shown disk).reads ≡ Some bytes
            → (rs : List (List ℕ)) × IsImage S.format rs bytes
            × ((⟦<SealedJournal<D, S> as Keeper>⟧.shown journal).records ≡ Some rs)
            × ((⟦<SealedJournal<D, S> as Keeper>⟧.shown journal).end
            ≡ length (front S.format rs))) }
        ensures settled { IfOk result (λ journal.
            (⟦<SealedJournal<D, S> as Keeper>⟧.shown journal).doubt ≡ None) }
        ensures only { IfOk result (λ journal. (bytes : List ℕ) → (D.shown disk).reads ≡ Some bytes
            → LeavesOnly (D.crashes (disk_of journal)) bytes) }
        ensures damaged { (place : ℕ) → IfErr result (λ back. back.0 ≡ JournalFault.Damaged place
            → (bytes : List ℕ) → (D.shown disk).reads ≡ Some bytes
            → IsDamagedAt S.format place bytes) }
        ensures store { IfErr result (λ back. back.0 ≡ JournalFault.NotAStore
            → (bytes : List ℕ) → (D.shown disk).reads ≡ Some bytes → IsNoStore S.format bytes) }
        ensures older { IfErr result (λ back. back.0 ≡ JournalFault.OldFormat
            → (bytes : List ℕ) → (D.shown disk).reads ≡ Some bytes → IsOlder S.format bytes) }
        ensures memory { IfErr result (λ back. back.0 ≡ JournalFault.Memory
            → (bytes : List ℕ) → (D.shown disk).reads ≡ Some bytes
            → take 8 bytes ≡ S.format.magic) }
        ensures faults { (D.shown (disk_after result)).faults
            ≡ faults_after result (D.shown disk).faults }
        ensures same { IsUntouched (D.shown disk) (D.shown (disk_after result))
            (D.crashes disk) (D.crashes (disk_after result)) }
    {
        let mut ahead = ReadAhead::over(alloc, disk);
        match find(alloc, &mut ahead) {
            Ok((gates, end, seal)) => Ok(SealedJournal {
                disk: ahead.disk,
                gates,
                end,
                block: Vec::new(alloc),
                in_doubt: false,
                spare: 0,
                seal,
            }),
            Err(fault) => Err((fault, ahead.disk)),
        }
    }

    /// Opens the records of a disk that is only to be read, with the errors of `open`. It syncs,
    /// but it writes nothing: the gates are not written again, so a crash may still lose what an
    /// earlier process failed to sync.
    pub fn read(alloc: Global, disk: D) -> Result<SealedJournal<D, S>, (JournalFault, D)>
        ensures found { IfOk result (λ journal. (bytes : List ℕ) → (D.shown disk).reads ≡ Some bytes
            → (rs : List (List ℕ)) × IsImage S.format rs bytes
            × ((⟦<SealedJournal<D, S> as Keeper>⟧.shown journal).records ≡ Some rs)
            × ((⟦<SealedJournal<D, S> as Keeper>⟧.shown journal).end
            ≡ length (front S.format rs))) }
        ensures settled { IfOk result (λ journal.
            (⟦<SealedJournal<D, S> as Keeper>⟧.shown journal).doubt ≡ None) }
        ensures only { IfOk result (λ journal. (bytes : List ℕ) → (D.shown disk).reads ≡ Some bytes
            → LeavesOnly (D.crashes (disk_of journal)) bytes) }
        ensures damaged { (place : ℕ) → IfErr result (λ back. back.0 ≡ JournalFault.Damaged place
            → (bytes : List ℕ) → (D.shown disk).reads ≡ Some bytes
            → IsDamagedAt S.format place bytes) }
        ensures store { IfErr result (λ back. back.0 ≡ JournalFault.NotAStore
            → (bytes : List ℕ) → (D.shown disk).reads ≡ Some bytes → IsNoStore S.format bytes) }
        ensures older { IfErr result (λ back. back.0 ≡ JournalFault.OldFormat
            → (bytes : List ℕ) → (D.shown disk).reads ≡ Some bytes → IsOlder S.format bytes) }
        ensures memory { IfErr result (λ back. back.0 ≡ JournalFault.Memory
            → (bytes : List ℕ) → (D.shown disk).reads ≡ Some bytes
            → take 8 bytes ≡ S.format.magic) }
        ensures faults { (D.shown (disk_after result)).faults
            ≡ faults_after result (D.shown disk).faults }
        ensures same { IsUntouched (D.shown disk) (D.shown (disk_after result))
            (D.crashes disk) (D.crashes (disk_after result)) }
    {
        let mut ahead = ReadAhead::over(alloc, disk);
        match find_gates(alloc, &mut ahead) {
            Ok((gates, end, seal)) => Ok(SealedJournal {
                disk: ahead.disk,
                gates,
                end,
                block: Vec::new(alloc),
                in_doubt: false,
                spare: 0,
                seal,
            }),
            Err(fault) => Err((fault, ahead.disk)),
        }
    }

    /// Makes a disk a journal without records, and syncs it. Each error hands the disk back.
    /// `Exists` if it has more than 9 bytes and does not begin with the magic and a closed gate;
    /// its bytes are as before. `Failed` if the disk failed; its first nine bytes may then be torn,
    /// so that it can be made a journal again. But other bytes stay, whatever the result: reads
    /// give the same, and a crash leaves nothing new. It allocates no memory.
    pub fn init(alloc: Global, disk: D) -> Result<SealedJournal<D, S>, (InitFault, D)>
        ensures shown { IfOk result (λ journal. ⟦<SealedJournal<D, S> as Keeper>⟧.shown journal
            ≡ blank_shown (D.shown disk)) }
        ensures written { IfOk result (λ journal. (D.shown (disk_of journal)).reads
            ≡ option_map (spliced 0 (blank S.format)) (D.shown disk).reads) }
        ensures fresh { IfOk result (λ _. (bytes : List ℕ) → (D.shown disk).reads ≡ Some bytes
            → IsOther S.format bytes → ⊥) }
        ensures durable { IfOk result (λ journal. IfSome (D.shown (disk_of journal)).reads
            (LeavesOnly (D.crashes (disk_of journal)))) }
        ensures unmade { IfErr result
            (λ back. IsUnmade S.format back.0 (D.shown disk) (D.shown back.1)) }
        ensures stays { KeepsOther S.format (D.shown disk) (D.shown (disk_after result))
            (D.crashes disk) (D.crashes (disk_after result)) }
        ensures time { Elapses (D.crashes disk) (D.crashes (disk_after result))
            (MayTear 0 (blank S.format) (D.crashes disk)) }
    {
        let mut disk = disk;
        match make::<D, S>(&mut disk) {
            Ok(()) => Ok(SealedJournal {
                disk,
                gates: Vec::new(alloc),
                end: 8,
                block: Vec::new(alloc),
                in_doubt: false,
                spare: 0,
                seal: S::start(),
            }),
            Err(fault) => Err((fault, disk)),
        }
    }

    /// Its disk. Each image that a crash may leave of it is a file of the records, or of these and
    /// the one in doubt.
    pub fn into_disk(self) -> D
        ensures disk { result ≡ disk_of self }
        ensures images { (kept : List (List ℕ))
            → (⟦<SealedJournal<D, S> as Keeper>⟧.shown self).records ≡ Some kept
            → (image : List ℕ) → (D.crashes result).may_leave image
            → (rs : List (List ℕ)) × IsImage S.format rs image
            × MayLeave kept (⟦<SealedJournal<D, S> as Keeper>⟧.shown self).doubt rs }
    {
        self.disk
    }
}

impl<D: Disk> SealedJournal<D, Chain> {
    ghost use Rattle.fedi_journal.specs.Chains.{chain};

    /// The chain of all records: the SHA-256 digest that seals the last one, or 32 zeros if there
    /// is none.
    pub fn tip(&self) -> [u8; 32]
        ensures { (kept : List (List ℕ))
            → (⟦<SealedJournal<D, Chain> as Keeper>⟧.shown self.now).records ≡ Some kept
            → result ≡ chain kept }
    {
        self.seal.tip()
    }
}

// The offset and the length of the record at this index, by the gates of all records, the closed
// gate after them and the width of seals.
fn span_of(gates: &[u64], end: u64, width: u64, place: u64) -> Option<(u64, u64)>
    requires apart { are_apart (9 + width) gates.now end ≡ true }
    requires fits { end < 2 ^ 64 }
    requires narrow { width ≤ 32 }
    ensures some { is_some result ≡ nat_lt place (length gates.now) }
    ensures start { IfSome result (λ span. span.0 ≡ get_or gates.now place end + 9) }
    ensures count { IfSome result (λ span.
        span.1 ≡ get_or gates.now (place + 1) end - get_or gates.now place end - (9 + width)) }
    ensures inside { IfSome result (λ span. span.0 + span.1 ≤ end) }
{
    let gate = *gates.get(place as usize)?;
    let next = gates.get(place as usize + 1).copied().unwrap_or(end);
    Some((gate + GROWTH, next - gate - (GROWTH + width)))
}

impl<D: Disk, S: Seal> Keeper for SealedJournal<D, S> {
    ghost use Rattle.std.specs.Prelude.{OnErr, OnOk, None};
    ghost use Rattle.fedi_journal.specs.Files.{HasRecords};
    ghost use Rattle.fedi_journal.specs.Opening.{disk_of};
    ghost use Rattle.fedi_outside.specs.Disks.{Elapses};
    ghost use Rattle.fedi_outside.specs.Keepers.{HasAdded, HasFailed, PassesTime};

    ghost shown = { λ k. record {
      records = records_told S.format (length k.gates.items) (D.shown k.disk);
      held = length k.gates.items;
      doubt = doubt_in S.format.width k.in_doubt k.block.items;
      spare = k.spare;
      end = k.end;
      faults = (D.shown k.disk).faults;
    } };

    ghost crashes = { λ k. record_crashes S.format (D.shown k.disk) (D.crashes k.disk) };

    ghost growth = { λ length. 9 + S.format.width + length };

    ghost room = { λ length. 10 + S.format.width + length };

    ghost only_read = { λ a b. IsUntouched (D.shown a.disk) (D.shown b.disk)
        (D.crashes a.disk) (D.crashes b.disk) };

    ghost crash_now = { λ k. leaves_records S.format S.is_format (D.shown k.disk) (D.crashes k.disk)
        k.end k.gates.items (doubt_in S.format.width k.in_doubt k.block.items) (D.only_now k.disk)
        k.known };

    ghost read_none = { λ k. untouched_now (D.shown k.disk) (D.crashes k.disk) };

    ghost read_both = { λ a b c. untouched_then (D.shown a.disk) (D.shown b.disk) (D.shown c.disk)
        (D.crashes a.disk) (D.crashes b.disk) (D.crashes c.disk) };

    ghost told_held = { λ k.
        told_count S.format S.is_format (length k.gates.items) (D.shown k.disk) };

    fn count(&self) -> u64 {
        self.gates.len() as u64
    }

    fn load(&mut self, alloc: Global, place: u64) -> Result<Option<Vec<u8>>, LoadFault> {
        let Some((start, count)) = span_of(&self.gates, self.end, S::width(), place) else {
            return Ok(None);
        };
        let mut bytes = vec![in alloc; 0; count as usize]?;
        match self.disk.read_at(start, &mut bytes) {
            Ok(()) => Ok(Some(bytes)),
            Err(Failed) => Err(LoadFault::Failed),
        }
    }

    fn reserve(&mut self, length: usize) -> Result<(), ReserveFault> {
        let needed = (length as u64).saturating_add(ROOM + S::width());
        if self.end.saturating_add(needed) > LIMIT {
            return Err(ReserveFault::Full);
        }
        if length < self.spare {
            return Ok(());
        }
        self.block.reserve(length + 9 + S::width() as usize)?;
        self.gates.reserve(1)?;
        self.spare = self.spare.max(length + 1);
        Ok(())
    }

    fn settle(&mut self) -> Result<(), Failed> {
        if self.in_doubt {
            write_synced(&mut self.disk, self.end, &[0])?;
            self.in_doubt = false;
        }
        Ok(())
    }

    fn append(&mut self, payload: &[u8]) -> Result<(), Failed>
        requires settled { (⟦<SealedJournal<D, S> as Keeper>⟧.shown self.old).doubt ≡ None }
        requires spare { length payload.now < self.old.spare }
        requires room { self.old.end + (10 + S.format.width + length payload.now) ≤ 2 ^ 62 }
        ensures added { OnOk result (HasAdded ⟦<SealedJournal<D, S> as Keeper>⟧.growth payload.now
            (⟦<SealedJournal<D, S> as Keeper>⟧.shown self.old)
            (⟦<SealedJournal<D, S> as Keeper>⟧.shown self.new)) }
        ensures refused { OnErr result (HasFailed payload.now
            (⟦<SealedJournal<D, S> as Keeper>⟧.shown self.old)
            (⟦<SealedJournal<D, S> as Keeper>⟧.shown self.new)) }
        ensures time { PassesTime (⟦<SealedJournal<D, S> as Keeper>⟧.shown self.old).records
            (Some payload.now)
            (⟦<SealedJournal<D, S> as Keeper>⟧.crashes self.old)
            (⟦<SealedJournal<D, S> as Keeper>⟧.crashes self.new) }
        // A crash during the call leaves an image from before, or a file of the records, or of
        // these and the payload.
        ensures images { (kept : List (List ℕ))
            → (⟦<SealedJournal<D, S> as Keeper>⟧.shown self.old).records ≡ Some kept
            → Elapses (D.crashes (disk_of self.old)) (D.crashes (disk_of self.new))
            (HasRecords S.format kept (Some payload.now)) }
    {
        let gate = self.end;
        let seal = self.seal.next(payload);
        write_block(&mut self.block, payload, seal.bytes());
        write_synced(&mut self.disk, gate + 1, &self.block)?;
        match write_synced(&mut self.disk, gate, &[1]) {
            Ok(()) => {
                self.gates.push_reserved(gate);
                self.end = gate + GROWTH + S::width() + payload.len() as u64;
                self.spare = 0;
                self.seal = seal;
                Ok(())
            }
            Err(Failed) => {
                self.in_doubt = true;
                Err(Failed)
            }
        }
    }
}
