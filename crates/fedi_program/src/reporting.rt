//! Reporting of the activities of one member and of one type.

ghost use Rattle.std.specs.Prelude.{◌≡◌, ℕ, IfErr, IfOk, IsTrue, List, None, OnOk};
ghost use Rattle.std.specs.Prelude.{false, is_some, true};
ghost use Rattle.std.specs.List.{list_any};
ghost use Rattle.fedi_address.specs.Names.{is_name};
ghost use Rattle.fedi_log.specs.Keeping.{base_of, state_of};
ghost use Rattle.fedi_log.specs.Log.{given};
ghost use Rattle.fedi_logged.specs.Marks.{Survives};
ghost use Rattle.fedi_program.specs.Reporting.{IsActorOf, PrintsSelected, RefusesWords};
ghost use Rattle.fedi_program.specs.Reporting.{ReportsInVault, ReportsOf, ReportsOnDisk, is_kind};
ghost use Rattle.fedi_program.specs.Reporting.{is_named};
ghost use Rattle.fedi_program.specs.Seen.{medium, output};
ghost use Rattle.fedi_report.specs.Selections.{acts_fields};
ghost use Rattle.fedi_selection.specs.ActRows.{AreInOrder};
ghost use Rattle.fedi_town.specs.Histories.{town};
ghost use Rattle.fedi_town.specs.Towns.{Town};

use crate::printing::report;
use crate::statuses::{DISK_FAULT, DONE, OUT_OF_MEMORY, REFUSED, WRITE_FAULT};
use crate::stores::report_store;
use fedi_address::{Iri, LocalName};
use fedi_core::Core;
use fedi_effects::Seed;
use fedi_index::IndexedShelf;
use fedi_objects::Kind;
use fedi_outside::{Disk, Keeper, Sink, Vault};
use fedi_report::{SelectFault, act_rows, csv_selected};
use fedi_selection::{ActRow, Selection};
use fedi_startup::{close_store, close_vault, open_store, open_vault};
use fedi_town::actor_iri;
use std::alloc::{AllocError, Global};

// ---- the words

#[tactic(auto, unfolding(crate::specs::Reporting::is_named))]
fn is_named(kind: &Kind, text: &str) -> bool
    ensures { result ≡ is_named text.now kind.now }
{
    kind.name() == text
}

fn is_among(kinds: &[Kind], text: &str) -> bool
    ensures { result ≡ list_any (is_named text.now) kinds.now }
{
    kinds.iter().any(|kind| is_named(kind, text))
}

/// Whether a type of activity has this name.
#[tactic(auto, unfolding(crate::specs::Reporting::is_kind))]
fn is_kind(text: &str) -> bool
    ensures { result ≡ is_kind text.now }
{
    is_among(&Kind::ALL, text)
}

/// The name of the member whose activities are to be reported, if the words are a name and a type.
/// If they are not, that is reported; then the error is the exit status.
fn read_words<O: Sink>(out: &mut O, name: &str, kind: &str) -> Result<LocalName, u8>
    ensures read { IfOk result (λ member. member ≡ name.now) }
    ensures name { OnOk result (is_name name.now ≡ true) }
    ensures kind { OnOk result (is_kind kind.now ≡ true) }
    ensures same { OnOk result (out.new ≡ out.old) }
    ensures refused { IfErr result (λ status. RefusesWords name.now kind.now
        (output O.Sink out.old) (output O.Sink out.new) status) }
{
    let Some(member) = LocalName::parse(name) else {
        return Err(report(out, REFUSED, b"refused: bad name\n"));
    };
    if !is_kind(kind) {
        return Err(report(out, REFUSED, b"refused: bad kind\n"));
    }
    Ok(member)
}

// ---- what a report is made of

/// What a report is made of: the id of the member, and all activities as rows.
#[derive(Drop)]
struct Gathered {
    actor: Iri,
    rows: Vec<ActRow>,
}

fn gather_from<P: Keeper>(
    alloc: Global,
    core: &Core<IndexedShelf, P>,
    name: &LocalName,
) -> Result<Gathered, AllocError>
    requires hosted { IsTrue (is_some (town core.now.history).host) }
    ensures rows { IfOk result (λ all.
        all.rows.items ≡ acts_fields 0 (town core.now.history).acts) }
    ensures order { IfOk result (λ all. AreInOrder all.rows.items) }
    ensures actor { IfOk result (λ all. IsActorOf (town core.now.history) name.now all.actor) }
{
    let Some(host) = core.host() else {
        unreachable!();
    };
    let actor = actor_iri(alloc, host, name)?;
    let rows = act_rows(alloc, core)?;
    Ok(Gathered { actor, rows })
}

/// What a report of this member is made of. The error is out of memory.
fn gather<P: Keeper>(
    alloc: Global,
    core: &Core<IndexedShelf, P>,
    name: &LocalName,
) -> Result<Gathered, AllocError>
    requires hosted { IsTrue (is_some (town core.now.history).host) }
    ensures rows { IfOk result (λ all.
        all.rows.items ≡ acts_fields 0 (town core.now.history).acts) }
    ensures order { IfOk result (λ all. AreInOrder all.rows.items) }
    ensures actor { IfOk result (λ all. IsActorOf (town core.now.history) name.now all.actor) }
    // The machine is only read.
    ensures crashes { let opened = state_of core.now.history (P.shown core.now.keeper) in
        Survives (base_of P.growth P.room opened) None (given core.now.history)
        (given core.now.history) opened (P.crashes core.now.keeper) (P.crashes core.now.keeper) }
{
    gather_from(alloc, core, name)
}

// ---- the report

/// Lays the rows in the selection, and prints those by this author and of this type. Returns the
/// exit status.
fn print_selected<O: Sink, N: Selection>(
    alloc: Global,
    out: &mut O,
    rows: &[ActRow],
    selection: &mut N,
    actor: &str,
    kind: &str,
) -> u8
    requires order { AreInOrder rows.now }
    ensures { (t : Town) → rows.now ≡ acts_fields 0 t.acts → PrintsSelected actor.now kind.now t
        (N.shown selection.old) (N.shown selection.new)
        (output O.Sink out.old) (output O.Sink out.new) result }
{
    match csv_selected(alloc, rows, selection, actor, kind, out) {
        Ok(()) => DONE,
        Err(SelectFault::StoreFault) => report(out, DISK_FAULT, b"disk fault\n"),
        Err(SelectFault::WriteFault) => WRITE_FAULT,
        Err(SelectFault::Memory) => OUT_OF_MEMORY,
    }
}

/// Prints the report of this type that was gathered, unless there was no memory for it. Returns the
/// exit status.
fn print_gathered<O: Sink, N: Selection>(
    alloc: Global,
    out: &mut O,
    gathered: Result<Gathered, AllocError>,
    selection: &mut N,
    kind: &str,
) -> u8
    requires order { IfOk gathered (λ all. AreInOrder all.rows.items) }
    ensures { (t : Town) (name : List ℕ)
        → IfOk gathered (λ all. all.rows.items ≡ acts_fields 0 t.acts)
        → IfOk gathered (λ all. IsActorOf t name all.actor)
        → ReportsOf name kind.now t (N.shown selection.old) (N.shown selection.new)
        (output O.Sink out.old) (output O.Sink out.new) result }
{
    match gathered {
        Ok(all) => print_selected(alloc, out, &all.rows, selection, all.actor.text(), kind),
        Err(AllocError) => OUT_OF_MEMORY,
    }
}

/// Prints the activities by this member and of this type that the store of the disk holds, as the
/// selection picks them. The words are judged before the store is opened, and it is closed before
/// the selection is asked. Returns the exit status, and the disk.
fn report_on_disk<O: Sink, D: Disk, N: Selection>(
    alloc: Global,
    seed: Seed,
    out: &mut O,
    disk: D,
    selection: &mut N,
    name: &str,
    kind: &str,
) -> (u8, D)
    ensures { ReportsOnDisk disk result.1 (medium D.Disk disk) (medium D.Disk result.1)
        name.now kind.now (N.shown selection.old) (N.shown selection.new)
        (output O.Sink out.old) (output O.Sink out.new) result.0 }
{
    let member = match read_words(out, name, kind) {
        Ok(member) => member,
        Err(status) => return (status, disk),
    };
    match open_store(alloc, seed, disk) {
        Ok(core) => {
            let gathered = gather(alloc, &core, &member);
            let disk = close_store(core);
            (print_gathered(alloc, out, gathered, selection, kind), disk)
        }
        Err((fault, disk)) => (report_store(out, fault), disk),
    }
}

/// The same of the store of the vault. Returns the exit status.
fn report_in_vault<O: Sink, V: Vault, N: Selection>(
    alloc: Global,
    seed: Seed,
    out: &mut O,
    vault: &mut V,
    selection: &mut N,
    name: &str,
    kind: &str,
) -> u8
    requires home { (V.shown vault.old).out ≡ false }
    ensures reported { ReportsInVault vault.old vault.new V.K.growth V.K.room
        (V.shown vault.old) (V.shown vault.new)
        name.now kind.now (N.shown selection.old) (N.shown selection.new)
        (output O.Sink out.old) (output O.Sink out.new) result }
    ensures home { (V.shown vault.new).out ≡ false }
{
    let member = match read_words(out, name, kind) {
        Ok(member) => member,
        Err(status) => return status,
    };
    match open_vault(alloc, seed, vault) {
        Ok(core) => {
            let gathered = gather(alloc, &core, &member);
            close_vault(vault, core);
            print_gathered(alloc, out, gathered, selection, kind)
        }
        Err(fault) => report_store(out, fault),
    }
}

/// Prints the activities by this member and of this type: those of the vault's store if that is a
/// table, and those of the disk's otherwise. Returns the exit status, and the disk.
pub(crate) fn report_at<O: Sink, D: Disk, V: Vault, N: Selection>(
    alloc: Global,
    seed: Seed,
    is_table: bool,
    out: &mut O,
    disk: D,
    vault: &mut V,
    selection: &mut N,
    name: &str,
    kind: &str,
) -> (u8, D)
    requires home { (V.shown vault.old).out ≡ false }
    ensures in_vault { is_table ≡ true → ReportsInVault vault.old vault.new V.K.growth V.K.room
        (V.shown vault.old) (V.shown vault.new)
        name.now kind.now (N.shown selection.old) (N.shown selection.new)
        (output O.Sink out.old) (output O.Sink out.new) result.0 }
    ensures on_disk { is_table ≡ false → ReportsOnDisk disk result.1 (medium D.Disk disk)
        (medium D.Disk result.1)
        name.now kind.now (N.shown selection.old) (N.shown selection.new)
        (output O.Sink out.old) (output O.Sink out.new) result.0 }
    ensures disk { is_table ≡ true → result.1 ≡ disk }
    ensures vault { is_table ≡ false → vault.new ≡ vault.old }
    ensures home { (V.shown vault.new).out ≡ false }
{
    if is_table {
        let status = report_in_vault(alloc, seed, out, vault, selection, name, kind);
        (status, disk)
    } else {
        report_on_disk(alloc, seed, out, disk, selection, name, kind)
    }
}
