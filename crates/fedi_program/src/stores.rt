//! What a run prints about a store that is made, or that is not opened.

ghost use Rattle.std.specs.Prelude.{◌≡◌, ◌≤◌, IfErr, IfOk, OnOk, false, length};
ghost use Rattle.fedi_journal.specs.Chains.{chained};
ghost use Rattle.fedi_journal.specs.Making.{KeepsOther};
ghost use Rattle.fedi_program.specs.Members.{Reports};
ghost use Rattle.fedi_program.specs.Seen.{output};
ghost use Rattle.fedi_program.specs.Stores.{IsBeginning, IsNoHost, MakesStore, ReportsMaking};
ghost use Rattle.fedi_program.specs.Stores.{ReportsStore, damage_line, made_line, status_by};
ghost use Rattle.fedi_program.specs.Vaults.{MakesIn};

use crate::printing::{print, report};
use crate::statuses::{
    DAMAGED, DISK_FAULT, EXISTS, FULL, NOT_A_STORE, OLD_FORMAT, OUT_OF_MEMORY, REFUSED,
};
use arrayvec::ArrayString;
use fedi_address::{Host, HostFault};
use fedi_outside::{Clock, Disk, Sink, Vault};
use fedi_startup::{MakeFault, StoreFault, make_store, make_vault};
use fedi_text::Moment;
use std::alloc::{AllocError, Global};

/// The status of a run whose store is not opened.
pub fn status_by(fault: StoreFault) -> u8
    ensures { result ≡ status_by fault }
{
    match fault {
        StoreFault::NotAStore => NOT_A_STORE,
        StoreFault::OldFormat => OLD_FORMAT,
        StoreFault::DamagedByte { .. } => DAMAGED,
        StoreFault::DamagedRecord { .. } => DAMAGED,
        StoreFault::Failed => DISK_FAULT,
        StoreFault::Memory => OUT_OF_MEMORY,
    }
}

/// The line that says where a store is damaged: at which byte, or at which record.
#[tactic(auto, unfolding(crate::specs::Stores::damage_line))]
fn damage_line(what: &str, place: u64) -> ArrayString<64>
    requires { length what.now ≤ 8 }
    ensures { result.bytes ≡ damage_line what.now place }
{
    let mut digits = itoa::Buffer::new();
    let mut line = ArrayString::new();
    line.push_str("damaged at ");
    line.push_str(what);
    line.push_str(" ");
    line.push_str(digits.format(place));
    line.push_str("\n");
    line
}

/// Reports where a store is damaged. Returns the exit status.
fn report_damage<O: Sink>(out: &mut O, what: &str, place: u64) -> u8
    requires { length what.now ≤ 8 }
    ensures { Reports (output O.Sink out.old) (output O.Sink out.new) DAMAGED
        (damage_line what.now place) result }
{
    let line = damage_line(what, place);
    report(out, DAMAGED, line.as_bytes())
}

/// Reports why a store is not opened. Returns the exit status.
pub fn report_store<O: Sink>(out: &mut O, fault: StoreFault) -> u8
    ensures { ReportsStore fault (output O.Sink out.old) (output O.Sink out.new) result }
{
    match fault {
        StoreFault::NotAStore => report(out, NOT_A_STORE, b"not a store\n"),
        StoreFault::OldFormat => report(out, OLD_FORMAT, b"old format\n"),
        StoreFault::DamagedByte { place } => report_damage(out, "byte", place),
        StoreFault::DamagedRecord { place } => report_damage(out, "record", place),
        StoreFault::Failed => report(out, DISK_FAULT, b"disk fault\n"),
        StoreFault::Memory => OUT_OF_MEMORY,
    }
}

/// Reports why a store is not made. Returns the exit status.
pub fn report_making<O: Sink>(out: &mut O, fault: MakeFault) -> u8
    ensures { ReportsMaking fault (output O.Sink out.old) (output O.Sink out.new) result }
{
    match fault {
        MakeFault::Exists => report(out, EXISTS, b"exists\n"),
        MakeFault::Full => report(out, FULL, b"full\n"),
        MakeFault::Failed => report(out, DISK_FAULT, b"disk fault\n"),
        MakeFault::Memory => OUT_OF_MEMORY,
    }
}

/// The line that says that a store was made for this host. The error is out of memory.
fn made_line(alloc: Global, host: &str) -> Result<Vec<u8>, AllocError>
    ensures { IfOk result (λ line. line.items ≡ made_line host.now) }
{
    let mut line = Vec::new(alloc);
    line.extend_from_slice(b"made ")?;
    line.extend_from_slice(host.as_bytes())?;
    line.push(b'\n')?;
    Ok(line)
}

/// What a store is begun with.
#[derive(Drop)]
struct Beginning {
    /// The host that the store is for.
    host: Host,
    /// The moment.
    moment: Moment,
    /// The line that says that a store was made for this host.
    line: Vec<u8>,
}

/// Reads the clock and the host of a store that an operator wants to be made. The line is made
/// before the store, so that no store is made that could not be reported because memory runs out.
/// The error is the exit status, after this was reported.
fn begin<O: Sink, C: Clock>(
    alloc: Global,
    out: &mut O,
    clock: &C,
    host: &str,
) -> Result<Beginning, u8>
    ensures begun { IfOk result (λ first. IsBeginning (C.told clock.now) host.now
        first.host first.moment first.line.items) }
    ensures same { OnOk result (out.new ≡ out.old) }
    ensures refused { IfErr result (λ status.
        IsNoHost host.now (output O.Sink out.old) (output O.Sink out.new) status) }
{
    let moment = Moment::clamped(clock.now());
    let Ok(line) = made_line(alloc, host) else {
        return Err(OUT_OF_MEMORY);
    };
    match Host::parse(alloc, host) {
        Ok(host) => Ok(Beginning { host, moment, line }),
        Err(HostFault::BadHost) => Err(report(out, REFUSED, b"refused: bad host\n")),
        Err(HostFault::Memory) => Err(OUT_OF_MEMORY),
    }
}

/// Makes the disk a store for this host, as an operator asks, and prints that it was made. Returns
/// the exit status, and the disk: at 0 and 7 a store was made. Whatever the status, the bytes of an
/// existing store stay: reads give the same, and a crash leaves nothing new.
#[tactic(auto, using(crate::proofs::StoreLemmas::not_asked))]
pub fn begin_store<O: Sink, D: Disk, C: Clock>(
    alloc: Global,
    out: &mut O,
    clock: &C,
    disk: D,
    host: &str,
) -> (u8, D)
    ensures made { MakesStore D.Disk (C.told clock.now) disk result.1
        (output O.Sink out.old) (output O.Sink out.new) host.now result.0 }
    ensures stays { KeepsOther chained (D.shown disk) (D.shown result.1)
        (D.crashes disk) (D.crashes result.1) }
{
    let Beginning { host, moment, line } = match begin(alloc, out, clock, host) {
        Ok(first) => first,
        Err(status) => return (status, disk),
    };
    match make_store(alloc, disk, host, moment) {
        (Ok(()), disk) => (print(out, &line), disk),
        (Err(fault), disk) => (report_making(out, fault), disk),
    }
}

/// Makes the vault a store for this host, as an operator asks, and prints that it was made. Returns
/// the exit status: at 0 and 7 a store was made, and otherwise the vault keeps what it kept.
pub fn begin_vault<O: Sink, V: Vault, C: Clock>(
    alloc: Global,
    out: &mut O,
    clock: &C,
    vault: &mut V,
    host: &str,
) -> u8
    requires home { (V.shown vault.old).out ≡ false }
    ensures made { MakesIn V.K.Keeper (C.told clock.now) (V.shown vault.old) (V.shown vault.new)
        (output O.Sink out.old) (output O.Sink out.new) host.now result }
    ensures home { (V.shown vault.new).out ≡ false }
{
    let Beginning { host, moment, line } = match begin(alloc, out, clock, host) {
        Ok(first) => first,
        Err(status) => return status,
    };
    match make_vault(alloc, vault, host, moment) {
        Ok(()) => print(out, &line),
        Err(fault) => report_making(out, fault),
    }
}
