//! Where bytes are kept that are to outlive the program.
ghost use Rattle.std.specs.Prelude.{ℕ, ◌≡◌, ◌+◌, ◌≤◌, List, length, take, drop, IfSome, OnOk};
ghost use Rattle.std.specs.Prelude.{OnErr};
ghost use Rattle.fedi_outside.specs.Disks.{DiskCrashes, DiskState, Elapses, HasTorn, LeavesOnly};
ghost use Rattle.fedi_outside.specs.Disks.{MayTear, after_len, after_reading, after_write};

use crate::Failed;

/// Bytes that outlive the program once they are synced.
///
/// Between two syncs that succeed, a crash may leave any bytes in the range of each write, and past
/// the old end; other bytes stay. A single byte that is written inside the disk is the exception: a
/// crash or a failed write leaves the old byte or the new one. After a sync that succeeds, a crash
/// leaves what reads give.
pub trait Disk {
    /// The disk, as its callers see it.
    ghost shown: { Self → DiskState };

    /// What a crash may leave of its bytes.
    ghost crashes: { Self → DiskCrashes };

    /// How many bytes it has. After an error everything is as before, and the fault is counted.
    fn len(&mut self) -> Result<u64, Failed>
        ensures shown { shown self.new ≡ after_len result (shown self.old) }
        ensures time { Elapses (crashes self.old) (crashes self.new) (crashes self.old).may_leave };

    /// Reads the bytes at this offset, as many as there is room for. After an error `into` may hold
    /// any bytes.
    fn read_at(&mut self, at: u64, into: &mut [u8]) -> Result<(), Failed>
        requires inside { at + length into.old ≤ (shown self.old).size }
        ensures bytes { OnOk result (IfSome (shown self.old).reads
            (λ all. into.new ≡ take (length into.old) (drop at all))) }
        ensures shown { shown self.new ≡ after_reading result (shown self.old) }
        ensures time { Elapses (crashes self.old) (crashes self.new) (crashes self.old).may_leave };

    /// Writes these bytes at this offset, over those that are there and past the end. After an
    /// error the range may hold any bytes, or if it is a single byte, the old one or the new one.
    fn write_at(&mut self, at: u64, from: &[u8]) -> Result<(), Failed>
        requires inside { at ≤ (shown self.old).size }
        ensures written { OnOk result (shown self.new ≡ after_write at from.now (shown self.old)) }
        ensures refused { OnErr result (HasTorn at from.now (shown self.old) (shown self.new)) }
        ensures time { Elapses (crashes self.old) (crashes self.new)
            (MayTear at from.now (crashes self.old)) };

    /// Makes everything that was written durable: a crash then leaves what reads give. After an
    /// error a crash leaves what it might have left before.
    fn sync(&mut self) -> Result<(), Failed>
        ensures durable { OnOk result
            (IfSome (shown self.old).reads (LeavesOnly (crashes self.new))) }
        ensures shown { shown self.new ≡ after_reading result (shown self.old) }
        ensures time { Elapses (crashes self.old) (crashes self.new) (crashes self.old).may_leave };

    /// The size is the number of bytes.
    ghost told_size: { (disk : Self) → IfSome (shown disk).reads
        (λ all. (shown disk).size ≡ length all) };

    /// What reads give is an image that a crash may leave.
    ghost reads_stay: { (disk : Self) → IfSome (shown disk).reads (crashes disk).may_leave };

    /// A crash now is a crash at some moment since each earlier one.
    ghost counts_now: { (disk : Self) (moment : ℕ) (image : List ℕ) → moment ≤ (crashes disk).clock
        → (crashes disk).may_leave image → (crashes disk).left_since moment image };

    /// The only moment since now is now.
    ghost only_now: { (disk : Self) (image : List ℕ)
        → (crashes disk).left_since (crashes disk).clock image → (crashes disk).may_leave image };
}

/// Writes these bytes at this offset, and syncs: a crash then leaves what reads give. After an
/// error the range may hold any bytes, as after a failed write, even if only the sync failed.
#[tactic(auto, using(crate::proofs::DiskSteps::torn_unsynced))]
pub fn write_synced<D: Disk>(disk: &mut D, at: u64, from: &[u8]) -> Result<(), Failed>
    requires inside { at ≤ (D.shown disk.old).size }
    ensures written { OnOk result (D.shown disk.new ≡ after_write at from.now (D.shown disk.old)) }
    ensures durable { OnOk result
        (IfSome (D.shown disk.new).reads (LeavesOnly (D.crashes disk.new))) }
    ensures refused { OnErr result (HasTorn at from.now (D.shown disk.old) (D.shown disk.new)) }
    ensures time { Elapses (D.crashes disk.old) (D.crashes disk.new)
        (MayTear at from.now (D.crashes disk.old)) }
{
    disk.write_at(at, from)?;
    disk.sync()
}
