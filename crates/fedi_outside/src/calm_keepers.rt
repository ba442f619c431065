//! A keeper in memory that never fails.
ghost use Rattle.std.specs.Prelude.{ℕ, ◌≡◌, ◌↔◌, ◌+◌, ◌^◌, ◌<◌, ◌≤◌, max, List, [], ◌∷◌, ◌++◌};
ghost use Rattle.std.specs.Prelude.{length, Some, None, IsOk, IfOk, IfErr, OnOk, OnErr, IsErr};
ghost use Rattle.std.specs.Prelude.{IfSome, IsErrOf, vec_capacity};
ghost use Rattle.fedi_outside.specs.Keepers.{Finds, after_load};
ghost use Rattle.fedi_outside.specs.MemoryKeepers.{no_crashes, no_records, shown_with};
ghost use Rattle.std.proofs.Common.{refl, ◌∙◌};

use crate::Failed;
use crate::keepers::{Keeper, LoadFault, ReserveFault};
use std::alloc::Global;
use std::marker::Model;
use std::mem;

/// The greatest end of a keeper.
const LIMIT: u64 = 1 << 62;

/// How much further than its length a record moves the end.
const GROWTH: u64 = 9;

/// How much room beyond its length a record needs below the limit.
const ROOM: u64 = 10;

/// A record that is kept in memory.
#[derive(Drop)]
pub struct Record {
    bytes: Vec<u8>,
}

impl Model for Record {
    ghost Value = { List ℕ };

    ghost view = { λ r. r.bytes.items };
}

impl Record {
    /// Its bytes.
    pub fn bytes(&self) -> &[u8]
        ensures { result.now ≡ self.now }
    {
        &self.bytes
    }
}

/// A keeper in memory that never fails. It reports its records, and its count of faults is 0. Only
/// `reserve` and `load` allocate memory.
#[derive(Drop)]
pub struct CalmKeeper {
    alloc: Global,
    records: Vec<Record>,
    // Room for the bytes of the next record.
    blank: Vec<u8>,
    // Whether the blank holds a record whose append has failed.
    in_doubt: bool,
    // A record that is shorter than this has room.
    spare: usize,
    end: u64,
}

impl Model for CalmKeeper {
    ghost use Rattle.std.specs.Prelude.{◌+◌, ◌<◌, ◌≤◌, vec_len, vec_capacity};
    ghost use Rattle.fedi_outside.specs.MemoryKeepers.{CalmKeeperState, doubt_of};

    ghost Value = { CalmKeeperState };

    ghost view = { λ k. record {
      records = k.records.items;
      doubt = doubt_of k.in_doubt k.blank.items;
      spare = k.spare;
      end = k.end;
    } };

    ghost invariant = { λ k. (k.spare ≤ vec_capacity k.blank + 1)
        × (0 < k.spare → vec_len k.records < vec_capacity k.records) };
}

impl CalmKeeper {
    /// A keeper with no records, whose end is 0.
    pub fn new(alloc: Global) -> Self
        ensures { result ≡ no_records 0 }
    {
        CalmKeeper::at(alloc, 0)
    }

    /// A keeper with no records and this end.
    pub(crate) fn at(alloc: Global, end: u64) -> Self
        ensures { result ≡ no_records end }
    {
        CalmKeeper {
            alloc,
            records: Vec::new(alloc),
            blank: Vec::new(alloc),
            in_doubt: false,
            spare: 0,
            end,
        }
    }

    /// A keeper with a copy of each record of another. Its end is where these records end, or
    /// 2^64 - 1 if that is less. `Failed` if the other failed, and `Memory`. The other is only
    /// read.
    pub(crate) fn copy_of<P: Keeper>(alloc: Global, from: &mut P) -> Result<Self, LoadFault>
        ensures records { IfOk result (λ copy. IfSome (P.shown from.old).records
            (λ records. copy.records ≡ records)) }
        ensures settled { IfOk result (λ copy. copy.doubt ≡ None) }
        ensures source { P.shown from.new ≡ after_load result (P.shown from.old) }
        ensures outside { P.only_read from.old from.new }
    {
        let count = from.count();
        let mut records = Vec::new(alloc);
        let mut end = 0_u64;
        let mut place = 0;
        'records: while place < count {
            let Some(bytes) = from.load(alloc, place)? else {
                unreachable!();
            };
            end = end
                .saturating_add(GROWTH)
                .saturating_add(bytes.len() as u64);
            records.reserve(1)?;
            records.push_reserved(Record { bytes });
            place += 1;
        }
        Ok(CalmKeeper {
            alloc,
            records,
            blank: Vec::new(alloc),
            in_doubt: false,
            spare: 0,
            end,
        })
    }

    /// The records.
    pub fn records(&self) -> &[Record]
        ensures { result.now ≡ self.now.records }
    {
        &self.records
    }

    /// Leaves these bytes in doubt, as a failed append of them does. There is room for them, and it
    /// is kept.
    pub(crate) fn leave_in_doubt(&mut self, payload: &[u8])
        requires { length payload.now < self.old.spare }
        ensures { self.new ≡ record self.old { doubt = Some payload.now } }
    {
        write(&mut self.blank, payload);
        self.in_doubt = true;
    }
}

impl Keeper for CalmKeeper {
    ghost shown = { shown_with 0 };

    ghost crashes = { λ _. no_crashes };

    ghost growth = { λ length. 9 + length };

    ghost room = { λ length. 10 + length };

    ghost only_read = { λ before after. after.records ≡ before.records };

    ghost crash_now = { λ _. tt };

    ghost read_none = { λ _. refl };

    ghost read_both = { λ _ _ _ one two. two ∙ one };

    ghost told_held = { λ _. refl };

    fn count(&self) -> u64
        ensures { result ≡ length self.now.records }
    {
        self.records.len() as u64
    }

    fn load(&mut self, alloc: Global, place: u64) -> Result<Option<Vec<u8>>, LoadFault>
        ensures found { IfOk result (Finds self.old.records place) }
        ensures memory { IfErr result (λ fault. fault ≡ LoadFault.Memory) }
        ensures held { IsErr result → place < length self.old.records }
        ensures same { self.new ≡ self.old }
    {
        let Some(record) = self.records.get(place as usize) else {
            return Ok(None);
        };
        Ok(Some(record.bytes.to_vec(alloc)?))
    }

    fn reserve(&mut self, length: usize) -> Result<(), ReserveFault>
        ensures full { IsErrOf result ReserveFault.Full ↔ (2 ^ 62 < self.old.end + (10 + length)) }
        ensures spared { IsErrOf result ReserveFault.Memory → self.old.spare ≤ length }
        ensures ok { OnOk result (self.new
            ≡ record self.old { spare = max self.old.spare (length + 1) }) }
        ensures err { OnErr result (self.new ≡ self.old) }
    {
        let needed = (length as u64).saturating_add(ROOM);
        if self.end.saturating_add(needed) > LIMIT {
            return Err(ReserveFault::Full);
        }
        if length < self.spare {
            return Ok(());
        }
        self.blank.reserve(length)?;
        self.records.reserve(1)?;
        self.spare = self.spare.max(length + 1);
        Ok(())
    }

    fn settle(&mut self) -> Result<(), Failed>
        ensures ok { IsOk result }
        ensures after { self.new ≡ record self.old { doubt = None } }
    {
        self.in_doubt = false;
        Ok(())
    }

    fn append(&mut self, payload: &[u8]) -> Result<(), Failed>
        requires settled { self.old.doubt ≡ None }
        requires spare { length payload.now < self.old.spare }
        requires room { self.old.end + (10 + length payload.now) ≤ 2 ^ 62 }
        ensures ok { IsOk result }
        ensures after { self.new ≡ record {
          records = self.old.records ++ payload.now ∷ [];
          doubt = None;
          spare = 0;
          end = self.old.end + (9 + length payload.now);
        } }
    {
        write(&mut self.blank, payload);
        let bytes = mem::replace(&mut self.blank, Vec::new(self.alloc));
        self.records.push_reserved(Record { bytes });
        self.spare = 0;
        self.end += GROWTH + payload.len() as u64;
        Ok(())
    }
}

// Overwrites what is there with the payload. There is room.
fn write(blank: &mut Vec<u8>, payload: &[u8])
    requires { length payload.now ≤ vec_capacity blank.old }
    ensures bytes { blank.new.items ≡ payload.now }
    ensures capacity { vec_capacity blank.old ≤ vec_capacity blank.new }
{
    blank.clear();
    // It does not fail if there is room.
    let _ = blank.extend_from_slice(payload);
}
