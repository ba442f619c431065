//! Stores whose records are in a vault: making, opening and closing them.
ghost use Rattle.std.specs.Prelude.{◌≡◌, [], ◌∷◌, false, max, true, IfErr, IfOk, None, OnOk};
ghost use Rattle.fedi_log.specs.Keeping.{state_of};
ghost use Rattle.fedi_objects.specs.declared.entry.Entry.TheVariants.{Hosted};
ghost use Rattle.fedi_entry.specs.Codes.{code_of};
ghost use Rattle.fedi_queue.specs.Rows.{rows_of};
ghost use Rattle.fedi_startup.specs.Vaults.{IsClosedIn, IsMadeIn, IsNotMadeIn, IsOpenedIn};
ghost use Rattle.fedi_startup.specs.Vaults.{IsRefusedIn};
ghost use Rattle.fedi_startup.specs.Vaults.{HasBegun, IsNotBegun};
ghost use Rattle.fedi_town.specs.Histories.{town};

use crate::faults::{MakeFault, StoreFault};
use crate::making::first_entry;
use crate::opening::open_core;
use fedi_address::Host;
use fedi_core::Core;
use fedi_effects::Seed;
use fedi_entry::encode;
use fedi_index::IndexedShelf;
use fedi_outside::{Failed, Keeper, ReserveFault, Vault, VaultFault};
use fedi_text::Moment;
use std::alloc::{AllocError, Global};

/// The machine over the store of a vault.
pub type VaultCore<V> = Core<IndexedShelf, <V as Vault>::K>;

/// Opens the machine over the store of a vault: finds the history that its records encode. No
/// delivery is claimed. The vault hands out its keeper, which the machine has until `close_vault`.
/// The seed is used to look up strings.
///
/// After an error the vault keeps what it kept, and its keeper is back. It is `NotAStore` if no
/// record is kept; `DamagedRecord`, with the index of the first record that is missing, or that is
/// not the code of an entry that may occur there; `Failed` if the vault or its keeper failed, which
/// is counted once; and `Memory` if memory runs out.
pub fn open_vault<V: Vault>(
    alloc: Global,
    seed: Seed,
    vault: &mut V,
) -> Result<VaultCore<V>, StoreFault>
    requires home { (V.shown vault.old).out ≡ false }
    ensures opened { IfOk result (λ core. IsOpenedIn (V.shown vault.old)
        (state_of core.history (V.K.shown core.keeper))) }
    ensures unclaimed { IfOk result (λ core. core.rows ≡ rows_of (town core.history)) }
    ensures out { OnOk result ((V.shown vault.new).out ≡ true) }
    ensures faults { OnOk result ((V.shown vault.new).faults ≡ (V.shown vault.old).faults) }
    ensures refused { IfErr result (λ fault.
        IsRefusedIn fault (V.shown vault.old) (V.shown vault.new)) }
{
    let keeper = match vault.open(alloc) {
        Ok(keeper) => keeper,
        Err(fault) => match fault {
            VaultFault::Exists => unreachable!(),
            VaultFault::Gap { place } => return Err(StoreFault::DamagedRecord { place }),
            VaultFault::Failed => return Err(StoreFault::Failed),
            VaultFault::Memory => return Err(StoreFault::Memory),
        },
    };
    match open_core(alloc, seed, keeper) {
        Ok(core) => Ok(core),
        Err((fault, keeper)) => {
            vault.close(keeper);
            Err(fault.into())
        }
    }
}

/// Closes the machine over the store of a vault, and hands the keeper back. The vault then keeps the
/// records of the machine's history. It allocates no memory.
pub fn close_vault<V: Vault>(vault: &mut V, core: VaultCore<V>)
    requires out { (V.shown vault.old).out ≡ true }
    ensures closed { IsClosedIn (V.shown vault.new)
        (state_of core.history (V.K.shown core.keeper)) }
    ensures faults { (V.shown vault.new).faults
        ≡ max (V.shown vault.old).faults (V.K.shown core.keeper).faults }
{
    vault.close(core.close());
}

// Adds the first record to a keeper.
fn add_first<P: Keeper>(keeper: &mut P, code: &[u8]) -> Result<(), MakeFault>
    requires settled { (P.shown keeper.old).doubt ≡ None }
    ensures added { OnOk result
        (HasBegun code.now (P.shown keeper.old) (P.shown keeper.new)) }
    ensures refused { IfErr result (λ fault.
        IsNotBegun P.room code.now fault (P.shown keeper.old) (P.shown keeper.new)) }
{
    match keeper.reserve(code.len()) {
        Ok(()) => {}
        Err(ReserveFault::Full) => return Err(MakeFault::Full),
        Err(ReserveFault::Memory) => return Err(MakeFault::Memory),
    }
    match keeper.append(code) {
        Ok(()) => Ok(()),
        Err(Failed) => Err(MakeFault::Failed),
    }
}

/// Makes a vault a store: its first record says for which host the server was set up, and when.
///
/// After an error the vault keeps what it kept. It is `Exists` if at least one record is kept, `Full`
/// if the keeper that the vault makes has no room for the record, `Failed` if the vault or its keeper
/// failed, which is counted once, and `Memory` if memory runs out.
#[tactic(auto, unfolding(fedi_entry::specs::Limits::KeepsLimits))]
pub fn make_vault<V: Vault>(
    alloc: Global,
    vault: &mut V,
    host: Host,
    moment: Moment,
) -> Result<(), MakeFault>
    requires home { (V.shown vault.old).out ≡ false }
    ensures made { OnOk result
        (IsMadeIn (Hosted host moment ∷ []) (V.shown vault.old) (V.shown vault.new)) }
    ensures refused { IfErr result (λ fault.
        IsNotMadeIn V.K.Keeper (code_of (Hosted host moment)) fault
        (V.shown vault.old) (V.shown vault.new)) }
{
    let entry = first_entry(host, moment);
    let code = match encode(alloc, &entry) {
        Ok(code) => code,
        Err(AllocError) => return Err(MakeFault::Memory),
    };
    let mut keeper = match vault.make(alloc) {
        Ok(keeper) => keeper,
        Err(fault) => match fault {
            VaultFault::Exists => return Err(MakeFault::Exists),
            VaultFault::Gap { .. } => unreachable!(),
            VaultFault::Failed => return Err(MakeFault::Failed),
            VaultFault::Memory => return Err(MakeFault::Memory),
        },
    };
    let made = add_first(&mut keeper, &code);
    vault.close(keeper);
    made
}
