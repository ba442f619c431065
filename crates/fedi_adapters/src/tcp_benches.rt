//! Benches with doors on a listener, each with a link.
ghost use Rattle.std.specs.Prelude.{◌≡◌, ◌*◌, ◌/◌, ◌^◌, ◌<◌, All, IfOk, None, false, map, vec_len};
ghost use Rattle.fedi_adapters.specs.Benches.{first_roles, role_at};

use crate::health::Health;
use crate::listeners::Listening;
use crate::tcp_doors::{Role, TcpDoor};
use crate::tcp_links::TcpLink;
use fedi_outside::{Bench, Door};
use std::alloc::{AllocError, Global};
use std::net::{Net, TcpListener, TcpStream};
use std::sync::Wait;
use std::time::Clock;

/// This many groups of benches, each of this size. In each group one bench delivers and the others
/// serve. Each has a door on this listener, which was not asked for anything yet, and its own link.
/// Those that deliver look at the health of the disk. The error is out of memory.
///
/// The bench that delivers is the third one in the first group, and in each later group the next
/// one. So of 16 groups of 5, in which every part of the list has both kinds, halving the list over
/// and over meets first a bench that serves, then one that delivers, and then both in proportion.
/// Whoever works the benches in threads, and halves the list to start them, then has some of both
/// kinds at work if only some of the threads can be made, from two on.
pub fn benches<'a, R: Net<Listener = TcpListener, Stream = TcpStream> + Clock + Wait + Sync>(
    rt: &'a R,
    alloc: Global,
    listening: &'a Listening<'a, R>,
    health: &'a Health,
    groups: u16,
    size: u16,
) -> Result<Vec<Bench<TcpDoor<'a, R>, TcpLink<'a, R>>>, AllocError>
    requires { 0 < size }
    ensures count { IfOk result (λ benches. vec_len benches ≡ groups * size) }
    ensures roles { IfOk result (λ benches.
        map (λ bench. bench.door.role) benches.items ≡ first_roles size (groups * size)) }
    ensures waiting { IfOk result (λ benches.
        All (λ bench. (⟦<TcpDoor<'a, R> as Door>⟧.out bench.door ≡ None)
        × (⟦<TcpDoor<'a, R> as Door>⟧.idle bench.door ≡ false)) benches.items) }
{
    let count = u32::from(groups) * u32::from(size);
    let mut benches = Vec::with_capacity(alloc, count as usize)?;
    for place in 0..count {
        benches.push(Bench {
            door: TcpDoor::new(rt, listening, health, role_of(u32::from(size), place)),
            link: TcpLink::new(rt),
        })?;
    }
    Ok(benches)
}

// What the bench at this place is for, in groups of this size.
fn role_of(size: u32, place: u32) -> Role
    requires size { 0 < size }
    requires group { place / size < 2 ^ 16 }
    ensures { result ≡ role_at size place }
{
    if place % size == (place / size + 2) % size {
        Role::Delivers
    } else {
        Role::Serves
    }
}
