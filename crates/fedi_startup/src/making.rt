//! Making a store.
ghost use Rattle.std.specs.Prelude.{◌≡◌, [], ◌∷◌, IfErr, OnOk};
ghost use Rattle.fedi_entry.specs.Codes.{code_of};
ghost use Rattle.fedi_journal.specs.Chains.{chained};
ghost use Rattle.fedi_journal.specs.Making.{KeepsOther};
ghost use Rattle.fedi_objects.specs.declared.entry.Entry.TheVariants.{Hosted};
ghost use Rattle.fedi_startup.specs.Making.{IsMade, IsNotMade, LeavesAtMost};
ghost use Rattle.fedi_startup.specs.Stores.{IsSound};

use crate::faults::MakeFault;
use fedi_address::Host;
use fedi_entry::encode;
use fedi_journal::Journal;
use fedi_objects::Entry;
use fedi_outside::{Disk, Failed, Keeper, ReserveFault};
use fedi_text::Moment;
use std::alloc::{AllocError, Global};

// The first entry of a history.
pub(crate) fn first_entry(host: Host, moment: Moment) -> Entry
    ensures entry { result ≡ Hosted host moment }
    ensures sound { IsSound (Hosted host moment ∷ []) }
{
    // For the proof: these show that the host and the moment are valid, as their types say.
    let _ = host.text();
    let _ = moment.seconds();
    Entry::Hosted { host, moment }
}

/// Makes a disk a store: a journal whose first record says for which host the server was set up,
/// and when. It returns the disk, synced.
///
/// The error is `Exists` if the disk has more than 9 bytes and does not begin with the magic and a
/// closed gate, and then nothing has changed. It is `Failed` if the disk failed, which the disk
/// counts once, and `Memory` if memory runs out. After `Failed` the first nine bytes may be torn,
/// or the disk may be a journal without records or with the first one. After `Memory` nothing has
/// changed, or the disk is a journal without records. A journal without records can be made a store
/// again. But the bytes of an existing store stay, whatever the answer: reads give the same, and a
/// crash leaves nothing new.
#[tactic(auto, unfolding(fedi_entry::specs::Limits::KeepsLimits))]
pub fn make_store<D: Disk>(
    alloc: Global,
    disk: D,
    host: Host,
    moment: Moment,
) -> (Result<(), MakeFault>, D)
    ensures made { OnOk result.0 (IsMade (Hosted host moment ∷ [])
        (D.shown disk) (D.shown result.1) (D.crashes result.1)) }
    ensures refused { IfErr result.0 (λ fault. IsNotMade (code_of (Hosted host moment)) fault
        (D.shown disk) (D.shown result.1)) }
    ensures stays { KeepsOther chained (D.shown disk) (D.shown result.1)
        (D.crashes disk) (D.crashes result.1) }
    ensures time { LeavesAtMost (code_of (Hosted host moment)) (D.shown disk).reads
        (D.crashes disk) (D.crashes result.1) }
{
    let entry = first_entry(host, moment);
    let code = match encode(alloc, &entry) {
        Ok(code) => code,
        Err(AllocError) => return (Err(MakeFault::Memory), disk),
    };
    let mut journal = match Journal::init(alloc, disk) {
        Ok(journal) => journal,
        Err((fault, disk)) => return (Err(fault.into()), disk),
    };
    match journal.reserve(code.len()) {
        Ok(()) => {}
        Err(ReserveFault::Full) => unreachable!(),
        Err(ReserveFault::Memory) => return (Err(MakeFault::Memory), journal.into_disk()),
    }
    let made = match journal.append(&code) {
        Ok(()) => Ok(()),
        Err(Failed) => Err(MakeFault::Failed),
    };
    (made, journal.into_disk())
}
