//! Making a disk a journal.
ghost use Rattle.std.specs.Prelude.{ℕ, ◌≡◌, ◌<◌, true, List, take, Some, option_map, IfSome, IfOk};
ghost use Rattle.std.specs.Prelude.{IfErr, OnOk};
ghost use Rattle.fedi_outside.specs.Disks.{Elapses, LeavesOnly, MayTear, after_reading, spliced};
ghost use Rattle.fedi_journal.specs.Making.{IsOther, IsUnmade, KeepsOther, blank};

use crate::faults::InitFault;
use crate::seals::Seal;
use fedi_outside::{Disk, Failed, write_synced};

// The bytes of a journal without records: the magic and a closed gate.
fn blank_bytes<S: Seal>() -> [u8; 9]
    ensures { result ≡ blank S.format }
{
    let mut start = [0; 9];
    start[..8].copy_from_slice(&S::magic());
    start
}

// Whether a disk of this size begins with these bytes.
fn begins_with<D: Disk>(disk: &mut D, size: u64, start: &[u8; 9]) -> Result<bool, Failed>
    requires size { size ≡ (D.shown disk.old).size }
    ensures yes { IfOk result (λ yes. (bytes : List ℕ) → (D.shown disk.old).reads ≡ Some bytes
        → yes ≡ true → take 9 bytes ≡ start.now) }
    ensures no { IfOk result (λ yes. (bytes : List ℕ) → (D.shown disk.old).reads ≡ Some bytes
        → take 9 bytes ≡ start.now → yes ≡ true) }
    ensures long { IfOk result (λ yes. yes ≡ true → 8 < size) }
    ensures shown { D.shown disk.new ≡ after_reading result (D.shown disk.old) }
    ensures time { Elapses (D.crashes disk.old) (D.crashes disk.new)
        (D.crashes disk.old).may_leave }
{
    if size < 9 {
        return Ok(false);
    }
    let mut first = [0; 9];
    disk.read_at(0, &mut first)?;
    Ok(first == *start)
}

/// Makes a disk a journal without records: writes the magic and a closed gate and syncs, or only
/// syncs if they are there already. `Exists` if the disk has more than 9 bytes and begins with
/// others; `Failed` if the disk failed, and then its first nine bytes may be torn. But other bytes
/// stay, whatever the result: reads give the same, and a crash leaves nothing new.
pub fn make<D: Disk, S: Seal>(disk: &mut D) -> Result<(), InitFault>
    ensures written { OnOk result
        ((D.shown disk.new).reads
        ≡ option_map (spliced 0 (blank S.format)) (D.shown disk.old).reads) }
    ensures fresh { OnOk result ((bytes : List ℕ) → (D.shown disk.old).reads ≡ Some bytes
        → IsOther S.format bytes → ⊥) }
    ensures faults { OnOk result ((D.shown disk.new).faults ≡ (D.shown disk.old).faults) }
    ensures long { OnOk result (8 < (D.shown disk.new).size) }
    ensures durable { OnOk result
        (IfSome (D.shown disk.new).reads (LeavesOnly (D.crashes disk.new))) }
    ensures unmade { IfErr result
        (λ fault. IsUnmade S.format fault (D.shown disk.old) (D.shown disk.new)) }
    ensures stays { KeepsOther S.format (D.shown disk.old) (D.shown disk.new)
        (D.crashes disk.old) (D.crashes disk.new) }
    ensures time { Elapses (D.crashes disk.old) (D.crashes disk.new)
        (MayTear 0 (blank S.format) (D.crashes disk.old)) }
{
    let start = blank_bytes::<S>();
    let size = disk.len()?;
    if begins_with(disk, size, &start)? {
        disk.sync()?;
        return Ok(());
    }
    if size > 9 {
        return Err(InitFault::Exists);
    }
    write_synced(disk, 0, &start)?;
    Ok(())
}
