//! The whole program, over whatever lies outside.

ghost use Rattle.std.specs.Prelude.{◌≡◌, ◌<◌, All, Some, None, false, map, string_bytes, true};
ghost use Rattle.std.specs.Prelude.{vec_len};
ghost use Rattle.fedi_hall.specs.Works.{IsWaiting};
ghost use Rattle.fedi_program.specs.Commands.{Deliver, address_of, place_if, place_in, task_in};
ghost use Rattle.fedi_program.specs.Commands.{task_of};
ghost use Rattle.fedi_program.specs.Headline.{Does, LeavesOthers, Runs, kinds, world};
ghost use Rattle.fedi_program.specs.Working.{may_be_in_vault};

use crate::commands::{Command, command_of, names_table};
use crate::demonstrating::demo;
use crate::filling::{migrate_at, migrate_in};
use crate::places::{in_vault, on_disk};
use crate::playing::play_script;
use crate::printing::{print, report};
use crate::reporting::report_at;
use crate::serving::serve;
use crate::statuses::NOT_ACCEPTED;
use crate::usage::usage;
use fedi_effects::Seed;
use fedi_logged::Connection;
use fedi_outside::{Bench, Clock, Disk, Door, Entropy, Link, Sink, Source, Vault};
use fedi_selection::Selection;
use std::alloc::Global;
use std::sync::Wait;
use std::thread::Threads;

/// How a run ended.
#[derive(Drop)]
pub struct Ended<D, W, K> {
    /// The exit status.
    pub status: u8,
    /// The disk, with all that the run kept.
    pub disk: D,
    /// The second disk, with all that was moved to it.
    pub second: D,
    /// The benches.
    pub benches: Vec<Bench<W, K>>,
}

/// Does what the command asks, unless that is `serve`: with the vault if the store is a table, and
/// with the disk otherwise. Returns the exit status, and the two disks.
fn perform<
    S: Source,
    O: Sink,
    D: Disk,
    V: Vault,
    N: Selection,
    W: Door,
    K: Link,
    C: Clock,
    E: Entropy,
>(
    alloc: Global,
    seed: Seed,
    command: Command<'_>,
    is_table: bool,
    connection: &mut Connection<S, O, C>,
    disk: D,
    second: D,
    vault: &mut V,
    selection: &mut N,
    benches: &mut Vec<Bench<W, K>>,
    entropy: &mut E,
) -> (u8, D, D)
    requires alone { address_of (Some (task_of command)) ≡ None }
    requires linked { task_of command ≡ Deliver → 0 < vec_len benches.old }
    requires table { is_table ≡ true → may_be_in_vault (task_of command) ≡ true }
    requires home { (V.shown vault.old).out ≡ false }
    ensures does { Does (kinds S.Source O.Sink D.Disk C.Clock E.Entropy W.Door K.Link V.Vault
        V.K.Keeper N.Selection) (place_if is_table) (task_of command.entry)
        (world connection.old disk second entropy.old benches.old vault.old selection.old)
        (world connection.new result.1 result.2 entropy.new benches.new vault.new
        selection.new) result.0 }
    ensures others { LeavesOthers (place_if is_table) (Some (task_of command.entry))
        (world connection.old disk second entropy.old benches.old vault.old selection.old)
        (world connection.new result.1 result.2 entropy.new benches.new vault.new
        selection.new) }
    ensures home { (V.shown vault.new).out ≡ false }
{
    match command {
        Command::Usage => (print(&mut connection.out, usage().as_bytes()), disk, second),
        Command::Demo { number } => {
            (demo(alloc, seed, &mut connection.out, number), disk, second)
        }
        Command::Play => (play_script(alloc, connection), disk, second),
        Command::Serve { .. } => unreachable!(),
        Command::Migrate => {
            let out = &mut connection.out;
            migrate_at(alloc, seed, is_table, out, disk, second, vault)
        }
        Command::Fill => {
            let (status, disk) = migrate_in(alloc, seed, &mut connection.out, disk, vault);
            (status, disk, second)
        }
        Command::Report { name, kind } => {
            let out = &mut connection.out;
            let (status, disk) = report_at(
                alloc, seed, is_table, out, disk, vault, selection, name, kind,
            );
            (status, disk, second)
        }
        _ => {
            if is_table {
                let status = in_vault(alloc, seed, command, connection, vault, benches, entropy);
                (status, disk, second)
            } else {
                let (status, disk) = on_disk(
                    alloc, seed, command, connection, disk, benches, entropy,
                );
                (status, disk, second)
            }
        }
    }
}

/// Does what `run` does, in this thread alone: whatever the arguments ask for, except `serve`. The
/// benches are returned as they were, except for the first one's link, which `deliver` asks.
pub fn run_alone<
    S: Source,
    O: Sink,
    D: Disk,
    V: Vault,
    N: Selection,
    W: Door,
    K: Link,
    C: Clock,
    E: Entropy,
>(
    alloc: Global,
    seed: Seed,
    arguments: &[String],
    connection: &mut Connection<S, O, C>,
    disk: D,
    second: D,
    vault: &mut V,
    selection: &mut N,
    benches: Vec<Bench<W, K>>,
    entropy: &mut E,
) -> Ended<D, W, K>
    requires alone { address_of (task_in (map string_bytes arguments.now)) ≡ None }
    requires linked { task_in (map string_bytes arguments.now) ≡ Some Deliver
        → 0 < vec_len benches }
    requires home { (V.shown vault.old).out ≡ false }
    ensures runs { Runs (kinds S.Source O.Sink D.Disk C.Clock E.Entropy W.Door K.Link V.Vault
        V.K.Keeper N.Selection) (place_in (map string_bytes arguments.now))
        (task_in (map string_bytes arguments.now))
        (world connection.old disk second entropy.old benches vault.old selection.old)
        (world connection.new result.disk result.second entropy.new result.benches vault.new
        selection.new)
        result.status }
    ensures home { (V.shown vault.new).out ≡ false }
{
    let mut benches = benches;
    match command_of(arguments) {
        Some(command) => {
            let (status, disk, second) = perform(
                alloc,
                seed,
                command,
                names_table(arguments),
                connection,
                disk,
                second,
                vault,
                selection,
                &mut benches,
                entropy,
            );
            Ended {
                status,
                disk,
                second,
                benches,
            }
        }
        None => Ended {
            status: report(&mut connection.out, NOT_ACCEPTED, usage().as_bytes()),
            disk,
            second,
            benches,
        },
    }
}

/// Runs the program on the arguments after its name, over the disk of the store that they name, or
/// over the vault if the word of the store begins with `table:`.
///
/// `usage` prints the arguments that the program takes. `init STORE HOST` makes a store for the
/// host, and prints `made HOST`. `add-actor STORE NAME` makes a member of this name, whose key is
/// drawn from the entropy, and prints `NAME KEY`, the key in 64 digits. With `--locked`, which may
/// be anywhere after the command, the member answers each Follow. `add-peer STORE HOST KEY ADDRESS`
/// makes the server of this host a peer, which is reached at the address and has the same key, 64
/// digits, and prints `peer HOST`. With `--relay`, which may be anywhere after the command, the
/// peer may deliver what actors of other hosts did. `inetd STORE` serves one connection: it answers
/// the requests on the input one after the other, and keeps what they make. `serve STORE ADDRESS`
/// serves the connections that the doors of the benches give, each door by a worker in a thread of
/// its own, until all doors close; binding to the address is the doors' work. `deliver STORE` tries
/// each delivery that is due at one moment once, by the link of the first bench. It prints
/// `ACTIVITY HOST WORD` for each: the activity's id, the recipient's host, and `delivered`, `again`
/// or `gave-up`; and then `done N`, the number of deliveries that it tried. `export STORE TABLE`
/// prints the members (`actors`), the `activities` or the deliveries that have not ended (`queue`)
/// as comma-separated values (RFC 4180), and names no recipient. `check STORE` opens the store and
/// prints how many entries, members, activities and deliveries that have not ended it has, and `tip
/// HEX`, the chain of its records in 64 digits. `migrate OLD NEW` copies the records of a store of
/// this format or of the first one to a second disk, which becomes a store of this format, and
/// prints `moved E entries`; it does not write the first disk. One of the two may be a table. Every
/// other command refuses a store of the first format. `report STORE NAME KIND` lays all activities
/// in the selection, and prints those by the member of this name and of this type as `export` does.
/// A store that is a table is the vault's: `serve` does not accept one, and `check` prints no `tip`
/// for it. `demo NUMBER` has eight members of a town in memory send 2,000 requests, which are drawn
/// from a number of one to four digits, and prints how many replies had each status, what the town
/// then has, and the length and the digest of all replies. `play` reads a script, sets up servers in
/// memory by its first lines, lets the events of the others happen among them, prints a line for
/// each event, and at the end how many entries the history of each server has. Other arguments are
/// answered with the usage, and do not ask the disk or the vault.
///
/// | Status | When | Printed, except by `inetd` and `serve` |
/// |---|---|---|
/// | 0 | it is done | as above |
/// | 2 | the arguments are not accepted | the usage |
/// | 3 | the disk has fewer than 9 bytes, or does not begin with a store's, of either format, or has no record; the vault has no record | `not a store` |
/// | 4 | the store is damaged | `damaged at byte P`, `damaged at record R` |
/// | 5 | a disk, the vault or the selection failed | `disk fault` |
/// | 6 | a read failed, or no key could be drawn | nothing |
/// | 7 | a write failed | |
/// | 8 | the input ended inside a request | |
/// | 9 | a store was to be made, or records to be moved, and the disk for them has other bytes, or the vault a record | `exists` |
/// | 10 | a rule is broken | `refused: bad name`, `refused: name taken`, `refused: key taken`, `refused: bad host`, `refused: host taken`, `refused: bad key`, `refused: bad address`, `refused: bad kind`; by `play` the lines of the events, then `refused: line N`, or `refused: too long` |
/// | 11 | a door failed | nothing |
/// | 12 | out of memory | nothing, lines of attempts that were kept, or a prefix of the table |
/// | 13 | the store has no room for a member or a peer, for the result of an attempt, or for the records that are to be moved; or the vault has none for a first record | `full` |
/// | 14 | the store is of the first format, and the command is not `migrate` | `old format` |
///
/// `inetd` is done if the input ended after the last request, or a reply closed the connection, and
/// `serve` if each door closed. At 7, a member, peer or store that was to be made was made, records
/// that were to be moved were moved, and the result of the last attempt of `deliver` was kept.
///
/// A status other than 0 stays if its text cannot be written. Each disk is returned with everything
/// that was kept, the vault has its keeper back, and the benches are returned too. The seed is used
/// to look up strings: nothing that can be seen depends on it except time.
pub fn run<
    R: Threads + Wait + Sync,
    S: Source,
    O: Sink,
    D: Disk + Send + Drop,
    V: Vault,
    N: Selection,
    W: Door + Send + Drop,
    K: Link + Send + Drop,
    C: Clock + Sync,
    E: Entropy,
>(
    rt: &R,
    alloc: Global,
    seed: Seed,
    arguments: &[String],
    connection: &mut Connection<S, O, C>,
    disk: D,
    second: D,
    vault: &mut V,
    selection: &mut N,
    benches: Vec<Bench<W, K>>,
    entropy: &mut E,
) -> Ended<D, W, K>
    requires some { 0 < vec_len benches }
    requires waiting { All (λ b. IsWaiting W.out W.idle b.door) benches.items }
    requires home { (V.shown vault.old).out ≡ false }
    ensures runs { Runs (kinds S.Source O.Sink D.Disk C.Clock E.Entropy W.Door K.Link V.Vault
        V.K.Keeper N.Selection) (place_in (map string_bytes arguments.now))
        (task_in (map string_bytes arguments.now))
        (world connection.old disk second entropy.old benches vault.old selection.old)
        (world connection.new result.disk result.second entropy.new result.benches vault.new
        selection.new)
        result.status }
    ensures home { (V.shown vault.new).out ≡ false }
{
    match command_of(arguments) {
        Some(Command::Serve { .. }) => {
            serve(rt, alloc, seed, &connection.clock, disk, second, benches)
        }
        _ => run_alone(
            alloc, seed, arguments, connection, disk, second, vault, selection, benches, entropy,
        ),
    }
}
