//! The program `fedi`, an ActivityPub server for a club or a town.
#![tactic(auto)]

ghost use Rattle.std.specs.Prelude.{◌≡◌, ◌+◌, ◌/◌, All, IfOk, IsSome, None, false, map, vec_len};
ghost use Rattle.fedi_adapters.specs.Benches.{first_roles, role_at};
ghost use Rattle.fedi_adapters.specs.declared.tcp_doors.Role.TheVariants.{Delivers, Serves};

use fedi_adapters::{
    FileDisk, Health, Listening, LockedFile, Reading, SystemClock, SystemEntropy, TcpDoor, TcpLink,
    Writing, benches,
};
use fedi_outside::{Bench, Door};
use fedi_program::{
    Connection, OUT_OF_MEMORY, Seed, TABLE, address_of, run, second_store_of, store_of,
};
use fedi_tables::{FileSelection, FileVault};
use std::alloc::{AllocError, Global};
use std::fs::{File, Files};
use std::io::ErrorKind;
use std::net::{Net, TcpListener, TcpStream};
use std::process::ExitCode;
use std::random::RandomSource;
use std::sync::Wait;
use std::time::Clock;
use std::{env, io};

/// The arguments after the program's name, or `None` if one of them is not valid text. The error is
/// out of memory.
fn arguments(rt: &HostRuntime) -> Result<Vec<String>, AllocError> {
    let mut arguments = Vec::new(rt.alloc());
    match env::args(rt) {
        Ok(args) => {
            for argument in args.skip(1) {
                arguments.push(argument)?;
            }
        }
        Err(error) if error.kind() == ErrorKind::OutOfMemory => return Err(AllocError),
        Err(_) => {}
    }
    Ok(arguments)
}

/// A seed that strangers do not know. If the system has no random bytes, the seed is all zeros:
/// then look-ups lose only their protection against strings that were chosen to be slow.
fn seed(rt: &HostRuntime) -> Seed {
    let mut secret = [0; 16];
    let _ = rt.fill_bytes(&mut secret);
    Seed::new(&secret)
}

/// How many connections are served at once. A bench is a few words until `serve` gives it a thread,
/// and each connection has its own buffer from its first request on.
const SERVING: u16 = 64;

/// How many deliveries are tried at once, in addition to the connections. A peer that does not
/// answer occupies one of them for ten seconds per try, and deliveries to others wait only if all
/// are occupied. While nothing is due, each is a thread that looks once a second.
const DELIVERING: u16 = 16;

/// How many benches are a group, in which one delivers. The first of all benches and the one in the
/// middle are the first two that get a thread: at these numbers one serves, and one delivers.
const GROUP: u16 = 5;

/// The file of the store as a disk, and the benches. The doors that deliver look at the health of
/// the disk. The error is out of memory.
// One function makes both, so that their references to the health have one lifetime.
fn outside<
    'a,
    R: Files<File = File> + Net<Listener = TcpListener, Stream = TcpStream> + Clock + Wait + Sync,
>(
    rt: &'a R,
    alloc: Global,
    path: &'a str,
    listening: &'a Listening<'a, R>,
    health: &'a Health,
) -> Result<
    (
        FileDisk<LockedFile<'a, R>>,
        Vec<Bench<TcpDoor<'a, R>, TcpLink<'a, R>>>,
    ),
    AllocError,
>
    ensures watched { IfOk result (λ made. IsSome made.0.file.health) }
    ensures count { IfOk result (λ made. vec_len made.1 ≡ SERVING + DELIVERING) }
    ensures roles { IfOk result (λ made. map (λ bench. bench.door.role) made.1.items
        ≡ first_roles GROUP (SERVING + DELIVERING)) }
    ensures first { role_at GROUP 0 ≡ Serves }
    ensures middle { role_at GROUP ((SERVING + DELIVERING) / 2) ≡ Delivers }
    ensures waiting { IfOk result (λ made.
        All (λ bench. (⟦<TcpDoor<'a, R> as Door>⟧.out bench.door ≡ None)
        × (⟦<TcpDoor<'a, R> as Door>⟧.idle bench.door ≡ false)) made.1.items) }
{
    let benches = benches(rt, alloc, listening, health, DELIVERING, GROUP)?;
    Ok((FileDisk::watched(rt, path, health), benches))
}

// The file of the table among these two stores, or no path.
fn table_of<'a>(store: &'a str, second: &'a str) -> &'a str {
    let table = store
        .strip_prefix(TABLE)
        .or_else(|| second.strip_prefix(TABLE));
    table.unwrap_or_default()
}

// The file in which the activities of a store are laid for a report: beside the file of the store.
// The error is out of memory.
fn report_of(alloc: Global, store: &str) -> Result<String, AllocError> {
    format!(in alloc; "{}.report", store.strip_prefix(TABLE).unwrap_or(store))
}

fn main(rt: HostRuntime) -> ExitCode {
    let Ok(arguments) = arguments(&rt) else {
        return ExitCode::from(OUT_OF_MEMORY);
    };
    let mut connection = Connection {
        input: Reading::new(rt.reader()),
        out: Writing::new(io::writer(&rt)),
        clock: SystemClock::new(&rt),
    };
    // Arguments that name no store never ask the disk, and so open nothing.
    let health = Health::new();
    let path = store_of(&arguments).unwrap_or_default();
    // In the same way, only `serve` asks its doors, and the address is bound, or the socket on the
    // standard input taken, when one is first asked.
    let address = address_of(&arguments).unwrap_or_default();
    let listening = Listening::new(&rt, rt.alloc(), address).or_on(rt.stdin());
    let alloc = rt.alloc();
    let Ok((disk, benches)) = outside(&rt, alloc, path, &listening, &health) else {
        return ExitCode::from(OUT_OF_MEMORY);
    };
    // Only `migrate` names a second store, and asks its disk.
    let second_path = second_store_of(&arguments).unwrap_or_default();
    let second = FileDisk::new(&rt, second_path);
    // Only a store that is a table asks the vault, and by that opens its file.
    let mut vault = FileVault::new(&rt, table_of(path, second_path));
    // In the same way, only `report` asks the selection.
    let Ok(report) = report_of(alloc, path) else {
        return ExitCode::from(OUT_OF_MEMORY);
    };
    let mut selection = FileSelection::new(&rt, &report);
    let mut entropy = SystemEntropy::new(&rt);
    let ended = run(
        &rt,
        rt.alloc(),
        seed(&rt),
        &arguments,
        &mut connection,
        disk,
        second,
        &mut vault,
        &mut selection,
        benches,
        &mut entropy,
    );
    // What the run has kept is safe without this, in two files.
    vault.finish();
    selection.finish();
    ExitCode::from(ended.status)
}
