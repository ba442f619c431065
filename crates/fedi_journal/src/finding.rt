//! Finding the records of a disk.
ghost use Rattle.std.specs.Prelude.{ℕ, ◌≡◌, ◌<◌, ◌≤◌, ◌+◌, ◌^◌, true, false, List, length, take};
ghost use Rattle.std.specs.Prelude.{drop, get_or, Some, IfOk, IfSome, OnOk, OnErr, IsErrOf};
ghost use Rattle.fedi_outside.specs.Causes.{HasCause};
ghost use Rattle.fedi_outside.specs.Disks.{Elapses, IsUntouched, LeavesOnly, after_reading};
ghost use Rattle.fedi_outside.specs.Images.{size_code};
ghost use Rattle.fedi_outside.specs.Known.{are_apart};
ghost use Rattle.fedi_outside.specs.Opening.{IsDamagedAt, IsFound, IsNoStore, IsOlder};
ghost use Rattle.fedi_journal.specs.Finding.{IsGate, IsInside, IsSealed, IsStart, faults_found};

use crate::blocks::number_of;
use crate::faults::JournalFault;
use crate::seals::Seal;
use fedi_outside::{Disk, Failed};
use std::alloc::Global;

/// How a file begins.
#[derive(Clone, Copy)]
pub enum Start {
    /// With the magic.
    Ours,
    /// With the magic of the format before this one.
    Older,
    /// With other bytes, or it is too short for a magic and a gate.
    Other,
}

/// What is found at a gate.
#[derive(Clone, Copy)]
pub enum Gate {
    /// It is closed: there are no more records.
    Closed,
    /// It is open, and a record of this length follows it.
    Open(u64),
    /// It is not a valid gate, or what follows it extends past the end.
    Bad,
}

// Whether the byte at this offset is a closed gate.
fn is_closed<D: Disk>(disk: &mut D, gate: u64) -> Result<bool, Failed>
    requires inside { gate < (D.shown disk.old).size }
    ensures byte { IfOk result (λ yes. (bytes : List ℕ) → (D.shown disk.old).reads ≡ Some bytes
        → (yes ≡ true → get_or (drop gate bytes) 0 0 ≡ 0)
        × (get_or (drop gate bytes) 0 0 ≡ 0 → yes ≡ true)) }
    ensures shown { D.shown disk.new ≡ after_reading result (D.shown disk.old) }
    ensures time { Elapses (D.crashes disk.old) (D.crashes disk.new)
        (D.crashes disk.old).may_leave }
{
    let mut byte = [0];
    disk.read_at(gate, &mut byte)?;
    Ok(byte[0] == 0)
}

// The gate at this offset, with the length of the record after it if it is open.
fn read_head<D: Disk>(disk: &mut D, gate: u64) -> Result<(u8, u64), Failed>
    requires inside { gate + 9 ≤ (D.shown disk.old).size }
    ensures byte { IfOk result (λ head. (bytes : List ℕ) → (D.shown disk.old).reads ≡ Some bytes
        → get_or (drop gate bytes) 0 0 ≡ head.0) }
    ensures number { IfOk result (λ head. (bytes : List ℕ) → (D.shown disk.old).reads ≡ Some bytes
        → take 8 (drop 1 (drop gate bytes)) ≡ size_code head.1) }
    ensures shown { D.shown disk.new ≡ after_reading result (D.shown disk.old) }
    ensures time { Elapses (D.crashes disk.old) (D.crashes disk.new)
        (D.crashes disk.old).may_leave }
{
    let mut head = [0; 9];
    disk.read_at(gate, &mut head)?;
    let mut number = [0; 8];
    number.copy_from_slice(&head[1..]);
    Ok((head[0], number_of(&number)))
}

// What is found at this gate of a disk of this size, if seals have this width.
fn look<D: Disk>(disk: &mut D, gate: u64, size: u64, width: u64) -> Result<Gate, Failed>
    requires size { size ≡ (D.shown disk.old).size }
    requires inside { gate < size }
    requires narrow { width ≤ 32 }
    ensures found { IfOk result (λ found. (bytes : List ℕ) → (D.shown disk.old).reads ≡ Some bytes
        → IsGate width (drop gate bytes) found) }
    ensures inside { IfOk result (IsInside width gate size) }
    ensures shown { D.shown disk.new ≡ after_reading result (D.shown disk.old) }
    ensures time { Elapses (D.crashes disk.old) (D.crashes disk.new)
        (D.crashes disk.old).may_leave }
{
    let behind = size - gate;
    if behind < 10 + width {
        let closed = is_closed(disk, gate)?;
        return Ok(if closed { Gate::Closed } else { Gate::Bad });
    }
    let (byte, length) = read_head(disk, gate)?;
    if byte == 0 {
        return Ok(Gate::Closed);
    }
    if byte != 1 || length > behind - 10 - width {
        return Ok(Gate::Bad);
    }
    Ok(Gate::Open(length))
}

// The gates of the records of a disk of this size that begins with the magic, the offset of the
// closed gate, and what is remembered of the records.
fn scan<D: Disk, S: Seal>(
    alloc: Global,
    disk: &mut D,
    size: u64,
) -> Result<(Vec<u64>, u64, S), JournalFault>
    requires size { size ≡ (D.shown disk.old).size }
    requires long { 8 < size }
    requires magic { (bytes : List ℕ) → (D.shown disk.old).reads ≡ Some bytes
        → take 8 bytes ≡ S.format.magic }
    ensures found { IfOk result (λ found. (bytes : List ℕ) → (D.shown disk.old).reads ≡ Some bytes
        → IsFound S.format found.0.items found.1 bytes) }
    ensures sealed { IfOk result (λ found. (bytes : List ℕ) → (D.shown disk.old).reads ≡ Some bytes
        → IsSealed S.format S.after (length found.0.items) found.2 bytes) }
    ensures apart { IfOk result
        (λ found. are_apart (9 + S.format.width) found.0.items found.1 ≡ true) }
    ensures inside { IfOk result (λ found. found.1 < size) }
    ensures damaged { (place : ℕ) → IsErrOf result (JournalFault.Damaged place)
        → (bytes : List ℕ) → (D.shown disk.old).reads ≡ Some bytes
        → IsDamagedAt S.format place bytes }
    ensures store { IsErrOf result JournalFault.NotAStore → ⊥ }
    ensures older { IsErrOf result JournalFault.OldFormat → ⊥ }
    ensures size { (D.shown disk.new).size ≡ (D.shown disk.old).size }
    ensures reads { (D.shown disk.new).reads ≡ (D.shown disk.old).reads }
    ensures faults { (D.shown disk.new).faults ≡ faults_found result (D.shown disk.old).faults }
    ensures time { Elapses (D.crashes disk.old) (D.crashes disk.new)
        (D.crashes disk.old).may_leave }
{
    let width = S::width();
    let mut gates = Vec::new(alloc);
    let mut gate = 8;
    let mut seal = S::start();
    'records: loop {
        match look(disk, gate, size, width)? {
            Gate::Closed => return Ok((gates, gate, seal)),
            Gate::Bad => return Err(JournalFault::Damaged { place: gate }),
            Gate::Open(length) => {
                match seal.follow(disk, gate + 9, length)? {
                    Some(next) => {
                        gates.push(gate)?;
                        gate += 9 + width + length;
                        seal = next;
                    }
                    None => return Err(JournalFault::Damaged { place: gate }),
                }
            }
        }
    }
}

// How a disk of this size begins.
fn read_start<D: Disk, S: Seal>(disk: &mut D, size: u64) -> Result<Start, Failed>
    requires size { size ≡ (D.shown disk.old).size }
    ensures found { IfOk result (λ start. (bytes : List ℕ) → (D.shown disk.old).reads ≡ Some bytes
        → IsStart S.format bytes start) }
    ensures long { IfOk result (λ start. start ≡ Start.Ours → 8 < size) }
    ensures shown { D.shown disk.new ≡ after_reading result (D.shown disk.old) }
    ensures time { Elapses (D.crashes disk.old) (D.crashes disk.new)
        (D.crashes disk.old).may_leave }
{
    if size < 9 {
        return Ok(Start::Other);
    }
    let mut first = [0; 8];
    disk.read_at(0, &mut first)?;
    if first == S::magic() {
        return Ok(Start::Ours);
    }
    Ok(if S::is_older(&first) {
        Start::Older
    } else {
        Start::Other
    })
}

// Syncs the disk, and asks for its size.
fn synced_size<D: Disk>(disk: &mut D) -> Result<u64, Failed>
    ensures size { IfOk result (λ size. size ≡ (D.shown disk.new).size) }
    ensures only { OnOk result ((bytes : List ℕ) → (D.shown disk.old).reads ≡ Some bytes
        → LeavesOnly (D.crashes disk.new) bytes) }
    ensures reads { (D.shown disk.new).reads ≡ (D.shown disk.old).reads }
    ensures cause { HasCause (D.shown disk.old).faults (D.shown disk.new).faults result }
    ensures time { Elapses (D.crashes disk.old) (D.crashes disk.new)
        (D.crashes disk.old).may_leave }
{
    disk.sync()?;
    disk.len()
}

/// The gates of the records of a disk, the offset of the closed gate, and what is remembered of the
/// records. It syncs before it reads, so that a crash leaves what it finds, and writes nothing.
pub fn find_gates<D: Disk, S: Seal>(
    alloc: Global,
    disk: &mut D,
) -> Result<(Vec<u64>, u64, S), JournalFault>
    ensures found { IfOk result (λ found. (bytes : List ℕ) → (D.shown disk.old).reads ≡ Some bytes
        → IsFound S.format found.0.items found.1 bytes) }
    ensures sealed { IfOk result (λ found. (bytes : List ℕ) → (D.shown disk.old).reads ≡ Some bytes
        → IsSealed S.format S.after (length found.0.items) found.2 bytes) }
    ensures apart { IfOk result
        (λ found. are_apart (9 + S.format.width) found.0.items found.1 ≡ true) }
    ensures inside { IfOk result (λ found. found.1 < (D.shown disk.new).size) }
    ensures fits { IfOk result (λ found. found.1 < 2 ^ 64) }
    ensures only { OnOk result (IfSome (D.shown disk.new).reads (LeavesOnly (D.crashes disk.new))) }
    ensures damaged { (place : ℕ) → IsErrOf result (JournalFault.Damaged place)
        → (bytes : List ℕ) → (D.shown disk.old).reads ≡ Some bytes
        → IsDamagedAt S.format place bytes }
    ensures store { IsErrOf result JournalFault.NotAStore
        → (bytes : List ℕ) → (D.shown disk.old).reads ≡ Some bytes → IsNoStore S.format bytes }
    ensures older { IsErrOf result JournalFault.OldFormat
        → (bytes : List ℕ) → (D.shown disk.old).reads ≡ Some bytes → IsOlder S.format bytes }
    ensures memory { IsErrOf result JournalFault.Memory
        → (bytes : List ℕ) → (D.shown disk.old).reads ≡ Some bytes
        → take 8 bytes ≡ S.format.magic }
    ensures faults { (D.shown disk.new).faults ≡ faults_found result (D.shown disk.old).faults }
    ensures same { IsUntouched (D.shown disk.old) (D.shown disk.new)
        (D.crashes disk.old) (D.crashes disk.new) }
{
    let size = synced_size(disk)?;
    match read_start::<D, S>(disk, size)? {
        Start::Ours => scan(alloc, disk, size),
        Start::Older => Err(JournalFault::OldFormat),
        Start::Other => Err(JournalFault::NotAStore),
    }
}

// Reads the byte at this offset and writes it again. Since the disk is synced, a crash leaves it as
// it was.
fn rewrite<D: Disk>(disk: &mut D, at: u64) -> Result<(), Failed>
    requires inside { at < (D.shown disk.old).size }
    requires synced { IfSome (D.shown disk.old).reads (LeavesOnly (D.crashes disk.old)) }
    ensures synced { IfSome (D.shown disk.new).reads (LeavesOnly (D.crashes disk.new)) }
    ensures size { OnOk result ((D.shown disk.new).size ≡ (D.shown disk.old).size) }
    ensures cause { HasCause (D.shown disk.old).faults (D.shown disk.new).faults result }
    ensures same { IsUntouched (D.shown disk.old) (D.shown disk.new)
        (D.crashes disk.old) (D.crashes disk.new) }
{
    let mut byte = [0];
    disk.read_at(at, &mut byte)?;
    disk.write_at(at, &byte)
}

// Writes the last open gate and the closed one again, and syncs. An earlier process may have failed
// to sync one of them. Reads then give it, but the disk may not have it, even though the next sync
// succeeds.
fn rewrite_gates<D: Disk>(disk: &mut D, gates: &[u64], end: u64) -> Result<(), Failed>
    requires apart { (width : ℕ) × (are_apart (9 + width) gates.now end ≡ true) }
    requires inside { end < (D.shown disk.old).size }
    requires synced { IfSome (D.shown disk.old).reads (LeavesOnly (D.crashes disk.old)) }
    ensures synced { IfSome (D.shown disk.new).reads (LeavesOnly (D.crashes disk.new)) }
    ensures size { OnOk result ((D.shown disk.new).size ≡ (D.shown disk.old).size) }
    ensures cause { HasCause (D.shown disk.old).faults (D.shown disk.new).faults result }
    ensures same { IsUntouched (D.shown disk.old) (D.shown disk.new)
        (D.crashes disk.old) (D.crashes disk.new) }
{
    if let Some(&gate) = gates.last() {
        rewrite(disk, gate)?;
    }
    rewrite(disk, end)?;
    disk.sync()
}

/// The gates of the records of a disk, the offset of the closed gate, and what is remembered of the
/// records. It syncs before it reads, and syncs again what it found, so that a crash leaves that.
/// Whatever the result, reads give the same bytes, and a crash leaves nothing new.
pub fn find<D: Disk, S: Seal>(
    alloc: Global,
    disk: &mut D,
) -> Result<(Vec<u64>, u64, S), JournalFault>
    ensures found { IfOk result (λ found. (bytes : List ℕ) → (D.shown disk.old).reads ≡ Some bytes
        → IsFound S.format found.0.items found.1 bytes) }
    ensures sealed { IfOk result (λ found. (bytes : List ℕ) → (D.shown disk.old).reads ≡ Some bytes
        → IsSealed S.format S.after (length found.0.items) found.2 bytes) }
    ensures apart { IfOk result
        (λ found. are_apart (9 + S.format.width) found.0.items found.1 ≡ true) }
    ensures inside { IfOk result (λ found. found.1 < (D.shown disk.new).size) }
    ensures fits { IfOk result (λ found. found.1 < 2 ^ 64) }
    ensures only { OnOk result (IfSome (D.shown disk.new).reads (LeavesOnly (D.crashes disk.new))) }
    ensures damaged { (place : ℕ) → IsErrOf result (JournalFault.Damaged place)
        → (bytes : List ℕ) → (D.shown disk.old).reads ≡ Some bytes
        → IsDamagedAt S.format place bytes }
    ensures store { IsErrOf result JournalFault.NotAStore
        → (bytes : List ℕ) → (D.shown disk.old).reads ≡ Some bytes → IsNoStore S.format bytes }
    ensures older { IsErrOf result JournalFault.OldFormat
        → (bytes : List ℕ) → (D.shown disk.old).reads ≡ Some bytes → IsOlder S.format bytes }
    ensures memory { IsErrOf result JournalFault.Memory
        → (bytes : List ℕ) → (D.shown disk.old).reads ≡ Some bytes
        → take 8 bytes ≡ S.format.magic }
    ensures faults { (D.shown disk.new).faults ≡ faults_found result (D.shown disk.old).faults }
    ensures same { IsUntouched (D.shown disk.old) (D.shown disk.new)
        (D.crashes disk.old) (D.crashes disk.new) }
{
    let (gates, end, seal) = find_gates(alloc, disk)?;
    rewrite_gates(disk, &gates, end)?;
    Ok((gates, end, seal))
}
