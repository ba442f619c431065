//! The entry that a record is the code of.

ghost use Rattle.std.specs.Prelude.{◌≡◌, IfErr, IfOk, IsTrue};
ghost use Rattle.fedi_entry.specs.Codes.{code_of};
ghost use Rattle.fedi_town.specs.Histories.{town};
ghost use Rattle.fedi_town.specs.Legal.{is_admissible};
ghost use Rattle.fedi_opening.specs.Opening.{IsNext, IsUnread};

use crate::fault::OpenFault;
use crate::judging::may_come;
use fedi_effects::Facts;
use fedi_entry::{EntryFault, KnownHosts, decode};
use fedi_objects::Entry;
use std::alloc::Global;

/// The entry that comes next in the history of these facts and whose code is the bytes of the
/// record at this index. The errors are `Damaged`, if no entry that may come next has this code,
/// and `Memory`, out of memory.
#[tactic(auto, using(crate::proofs::Records::next_by, crate::proofs::Records::none_by))]
pub(crate) fn read_next(
    alloc: Global,
    hosts: &mut KnownHosts,
    facts: &Facts,
    bytes: &[u8],
    place: u64,
) -> Result<Entry, OpenFault>
    ensures next { IfOk result (IsNext (town facts.now.history)) }
    ensures admissible { IfOk result (λ entry. IsTrue (is_admissible facts.now.town entry)) }
    ensures code { IfOk result (λ entry. code_of entry ≡ bytes.now) }
    ensures unread { IfErr result (IsUnread (town facts.now.history) bytes.now place) }
{
    facts.show_town();
    let entry = match decode(alloc, hosts, bytes) {
        Ok(entry) => entry,
        Err(EntryFault::BadEntry { .. }) => return Err(OpenFault::Damaged { place }),
        Err(EntryFault::Memory) => return Err(OpenFault::Memory),
    };
    if may_come(facts, &entry) {
        Ok(entry)
    } else {
        Err(OpenFault::Damaged { place })
    }
}
