//! The opening of a history.

ghost use Rattle.std.specs.Prelude.{◌≡◌, ◌↔◌, ◌+◌, ◌<◌, [], IfErr, IfOk, IfSome, IsErrOf, OnOk};
ghost use Rattle.std.specs.Prelude.{Some, map, slice_get};
ghost use Rattle.fedi_entry.specs.Codes.{code_of};
ghost use Rattle.fedi_outside.specs.Keepers.{PassesTime};
ghost use Rattle.fedi_opening.specs.Opening.{IsRead, IsStopped, IsUnloaded, after_open};

use crate::fault::OpenFault;
use crate::reading::read_next;
use fedi_entry::KnownHosts;
use fedi_outside::{Keeper, LoadFault};
use fedi_visible::Shelf;
use std::alloc::Global;

// The record at this index, which exists.
fn load_record<P: Keeper>(alloc: Global, keeper: &mut P, place: u64) -> Result<Vec<u8>, OpenFault>
    requires there { place < (P.shown keeper.old).held }
    ensures loaded { IfSome (P.shown keeper.old).records (λ records.
        IfOk result (λ bytes. slice_get records place ≡ Some bytes.items)) }
    ensures unloaded { IfErr result IsUnloaded }
    ensures shown { P.shown keeper.new ≡ after_open result (P.shown keeper.old) }
    ensures outside { P.only_read keeper.old keeper.new }
    ensures time { PassesTime (P.shown keeper.old).records (P.shown keeper.old).doubt
        (P.crashes keeper.old) (P.crashes keeper.new) }
{
    match keeper.load(alloc, place) {
        Ok(Some(record)) => Ok(record),
        Ok(None) => unreachable!(),
        Err(LoadFault::Failed) => Err(OpenFault::Failed),
        Err(LoadFault::Memory) => Err(OpenFault::Memory),
    }
}

// Adds the entry of the record at this index to the history of those before it.
fn open_record<S: Shelf, P: Keeper>(
    alloc: Global,
    keeper: &mut P,
    hosts: &mut KnownHosts,
    shelf: &mut S,
    place: u64,
) -> Result<(), OpenFault>
    requires there { place < (P.shown keeper.old).held }
    requires read { IsRead (P.shown keeper.old).records place (S.holding shelf.old).history }
    ensures read { OnOk result
        (IsRead (P.shown keeper.old).records (place + 1) (S.holding shelf.new).history) }
    ensures stopped { IfErr result (λ fault.
        IsStopped fault (P.shown keeper.old) (S.holding shelf.new).history) }
    ensures shown { P.shown keeper.new ≡ after_open result (P.shown keeper.old) }
    ensures outside { P.only_read keeper.old keeper.new }
    ensures time { PassesTime (P.shown keeper.old).records (P.shown keeper.old).doubt
        (P.crashes keeper.old) (P.crashes keeper.new) }
{
    let record = load_record(alloc, keeper, place)?;
    let entry = read_next(alloc, hosts, shelf.facts(), &record, place)?;
    shelf.reserve(alloc, &entry)?;
    shelf.push(&entry);
    Ok(())
}

/// Opens the history of the records that the keeper holds. Each record is read as the entry that it
/// is the code of, which has to be one that may come next there. The shelf, which held no history,
/// then holds this one.
///
/// The errors are `Empty`, exactly if there is no record; `Damaged`, with the index of the first
/// record that is not the code of any entry that may come next; `Failed`, if the keeper failed,
/// which it counts once; and `Memory`, out of memory. After an error the shelf holds the history of
/// the records that were read before it. In every case the keeper's records, the record in doubt
/// and the keeper's end are unchanged, and what lies outside is read and not written.
pub fn open_history<S: Shelf, P: Keeper>(
    alloc: Global,
    keeper: &mut P,
    shelf: &mut S,
) -> Result<(), OpenFault>
    requires empty { (S.holding shelf.old).history ≡ [] }
    ensures opened { OnOk result (IsRead (P.shown keeper.old).records
        (P.shown keeper.old).held (S.holding shelf.new).history) }
    ensures records { OnOk result (IfSome (P.shown keeper.old).records (λ records.
        map code_of (S.holding shelf.new).history ≡ records)) }
    ensures none { IsErrOf result OpenFault.Empty ↔ ((P.shown keeper.old).held ≡ 0) }
    ensures stopped { IfErr result (λ fault.
        IsStopped fault (P.shown keeper.old) (S.holding shelf.new).history) }
    ensures shown { P.shown keeper.new ≡ after_open result (P.shown keeper.old) }
    ensures outside { P.only_read keeper.old keeper.new }
    ensures time { PassesTime (P.shown keeper.old).records (P.shown keeper.old).doubt
        (P.crashes keeper.old) (P.crashes keeper.new) }
{
    let count = keeper.count();
    if count == 0 {
        return Err(OpenFault::Empty);
    }
    let mut hosts = KnownHosts::new();
    for place in 0..count {
        open_record(alloc, keeper, &mut hosts, shelf, place)?;
    }
    Ok(())
}
