//! The file of a journal, by its records.

use fedi_journal::Journal;
use fedi_outside::{Keeper, MemoryDisk};
use sha2::{Digest, Sha256};
use std::alloc::{AllocError, Global};

/// The bytes of a store of these records: the magic, each record after an open gate and its length
/// in eight bytes and before its chain, and a closed gate. The error is out of memory.
pub fn store_of(alloc: Global, records: &[&[u8]]) -> Result<Vec<u8>, AllocError> {
    let mut bytes = Vec::from_slice(alloc, b"FEDIJRN2")?;
    let mut chain = [0; 32];
    for record in records {
        chain = next_chain(&chain, record);
        push_record(&mut bytes, record)?;
        bytes.extend_from_slice(&chain)?;
    }
    bytes.push(0)?;
    Ok(bytes)
}

/// The bytes of a store of these records in the first format, which has no chains. The error is out
/// of memory.
pub fn first_store_of(alloc: Global, records: &[&[u8]]) -> Result<Vec<u8>, AllocError> {
    let mut bytes = Vec::from_slice(alloc, b"FEDIJRN1")?;
    for record in records {
        push_record(&mut bytes, record)?;
    }
    bytes.push(0)?;
    Ok(bytes)
}

// The chain after this record: the digest of the chain before it, its length and the record.
fn next_chain(chain: &[u8; 32], record: &[u8]) -> [u8; 32] {
    let mut hasher = Sha256::new();
    hasher.update(chain.as_slice());
    hasher.update((record.len() as u64).to_be_bytes().as_slice());
    hasher.update(record);
    hasher.finalize()
}

fn push_record(bytes: &mut Vec<u8>, record: &[u8]) -> Result<(), AllocError> {
    bytes.push(1)?;
    bytes.extend_from_slice(&(record.len() as u64).to_be_bytes())?;
    bytes.extend_from_slice(record)
}

/// A disk with these bytes, on which nothing fails. The error is out of memory.
pub fn disk_of(alloc: Global, bytes: &[u8]) -> Result<MemoryDisk, AllocError> {
    MemoryDisk::new(alloc, bytes.to_vec(alloc)?)
}

fn load_all<K: Keeper>(alloc: Global, keeper: &mut K) -> Result<Option<Vec<Vec<u8>>>, AllocError> {
    let mut records = Vec::new(alloc);
    for place in 0..keeper.count() {
        let Ok(Some(record)) = keeper.load(alloc, place) else {
            return Ok(None);
        };
        records.push(record)?;
    }
    Ok(Some(records))
}

/// The records of the journal with these bytes, or `None` if they are not a journal. The error is
/// out of memory.
pub fn records_of(alloc: Global, bytes: &[u8]) -> Result<Option<Vec<Vec<u8>>>, AllocError> {
    match Journal::open(alloc, disk_of(alloc, bytes)?) {
        Ok(mut journal) => load_all(alloc, &mut journal),
        Err(_) => Ok(None),
    }
}

/// Whether the journal with these bytes has these records and this many more after them. The error
/// is out of memory.
pub fn has_records(
    alloc: Global,
    bytes: &[u8],
    records: &[&[u8]],
    more: usize,
) -> Result<bool, AllocError> {
    let Some(found) = records_of(alloc, bytes)? else {
        return Ok(false);
    };
    let mut pairs = found.iter().zip(records.iter());
    Ok(
        found.len().checked_sub(more) == Some(records.len())
            && pairs.all(|(one, other)| one.as_slice() == *other),
    )
}
