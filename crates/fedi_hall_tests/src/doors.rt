//! Doors on a listener, over real connections.
ghost use Rattle.std.specs.Prelude.{◌≡◌, None, false};

use fedi_adapters::{Health, Listening, benches};
use fedi_outside::{Door, Sink, Source, Turn};
use std::io::Write;
use std::net::{Ipv4Addr, SocketAddr, TcpListener, TcpStream};
use std::test::Fail;
use std::thread;
use std::time::{Clock, Duration};

/// What a door gives.
#[derive(Clone, Copy, Debug, PartialEq, Eq)]
enum Given {
    /// A connection.
    Line,
    /// Time to deliver.
    Idle,
    /// Neither.
    Nothing,
}

fn ask<W: Door>(door: &mut W) -> Given
    requires out { W.out door.old ≡ None }
    requires idle { W.idle door.old ≡ false }
{
    match door.next() {
        Turn::Line(_) => Given::Line,
        Turn::Idle => Given::Idle,
        Turn::Closed | Turn::Failed => Given::Nothing,
    }
}

// Of three benches, the last of which delivers, that one is asked first: it binds the address. Then
// there is a connection for each of the others, which take one each.
#[test]
fn benches_serve_and_deliver_as_many_as_are_wanted(rt: HostRuntime) -> Result<(), Fail> {
    let Ok(listener) = TcpListener::bind(&rt, SocketAddr::from((Ipv4Addr::LOCALHOST, 0))) else {
        // Nobody can listen here, so there is nothing to try.
        return Ok(());
    };
    let address = listener.local_addr()?;
    drop(listener);
    let text = format!(in rt.alloc(); "{address}")?;
    let (listening, health) = (Listening::new(&rt, rt.alloc(), &text), Health::new());
    let mut made = benches(&rt, rt.alloc(), &listening, &health, 1, 3)?;
    let Some((third, others)) = made.as_mut_slice().split_last_mut() else {
        return Err(Fail::new("no bench"));
    };
    let last = ask(&mut third.door);
    let mut one = TcpStream::connect(&rt, address)?;
    let mut two = TcpStream::connect(&rt, address)?;
    // A door gives a connection that has something to say.
    one.write_all(b"G")?;
    two.write_all(b"G")?;
    let Some((first, others)) = others.split_first_mut() else {
        return Err(Fail::new("one bench"));
    };
    let Some((second, _)) = others.split_first_mut() else {
        return Err(Fail::new("two benches"));
    };
    let others = (ask(&mut first.door), ask(&mut second.door));
    drop((one, two));
    if last == Given::Idle && others == (Given::Line, Given::Line) {
        Ok(())
    } else {
        Err(Fail::new(format_args!("{others:?} and {last:?}")))
    }
}

// The next byte that comes over this connection.
fn next_byte<S: Source>(line: &mut S) -> Option<u8> {
    let mut next = [0; 1];
    match line.read(&mut next) {
        Ok(1) => Some(next[0]),
        _ => None,
    }
}

// The first byte that comes over the next connection of this door.
fn first_byte<W: Door>(door: &mut W) -> Option<u8>
    requires out { W.out door.old ≡ None }
    requires idle { W.idle door.old ≡ false }
{
    match door.next() {
        Turn::Line(line) => {
            let mut line = line;
            next_byte(&mut line)
        }
        Turn::Idle | Turn::Closed | Turn::Failed => None,
    }
}

// Of two connections the first says nothing. A door gives the other one.
#[test]
fn a_silent_connection_keeps_nobody_waiting(rt: HostRuntime) -> Result<(), Fail> {
    let Ok(listener) = TcpListener::bind(&rt, SocketAddr::from((Ipv4Addr::LOCALHOST, 0))) else {
        // Nobody can listen here, so there is nothing to try.
        return Ok(());
    };
    let address = listener.local_addr()?;
    drop(listener);
    let text = format!(in rt.alloc(); "{address}")?;
    let (listening, health) = (Listening::new(&rt, rt.alloc(), &text), Health::new());
    let mut made = benches(&rt, rt.alloc(), &listening, &health, 1, 3)?;
    let Some((third, others)) = made.as_mut_slice().split_last_mut() else {
        return Err(Fail::new("no bench"));
    };
    let bound = ask(&mut third.door);
    let one = TcpStream::connect(&rt, address)?;
    let mut two = TcpStream::connect(&rt, address)?;
    two.write_all(b"2")?;
    let Some((first, _)) = others.split_first_mut() else {
        return Err(Fail::new("one bench"));
    };
    let given = first_byte(&mut first.door);
    drop((one, two));
    if bound == Given::Idle && given == Some(b'2') {
        Ok(())
    } else {
        Err(Fail::new(format_args!("{given:?}")))
    }
}

// What comes over the next connection of this door, on which there is always more: the next byte
// after its first second, and, once `two` says something, the next one after a reply. Between both
// is more time than between two looks for connections.
fn bytes_of_old<W: Door, R: Clock>(
    rt: &R,
    door: &mut W,
    two: &mut TcpStream,
) -> (Option<u8>, Option<u8>)
    requires out { W.out door.old ≡ None }
    requires idle { W.idle door.old ≡ false }
{
    let Turn::Line(line) = door.next() else {
        return (None, None);
    };
    let mut line = line;
    let _ = (next_byte(&mut line), line.write(b"a reply"));
    thread::sleep(rt, Duration::from_millis(1_100));
    let alone = next_byte(&mut line);
    let _ = (line.write(b"a reply"), two.write_all(b"2"));
    thread::sleep(rt, Duration::from_millis(100));
    (alone, next_byte(&mut line))
}

// A connection that always has something more to say goes on for as long as nobody waits. Once
// somebody does, and it is older than a second, no further request of it is read.
#[test]
fn a_connection_that_asks_all_the_time_makes_room(rt: HostRuntime) -> Result<(), Fail> {
    let Ok(listener) = TcpListener::bind(&rt, SocketAddr::from((Ipv4Addr::LOCALHOST, 0))) else {
        // Nobody can listen here, so there is nothing to try.
        return Ok(());
    };
    let address = listener.local_addr()?;
    drop(listener);
    let text = format!(in rt.alloc(); "{address}")?;
    let (listening, health) = (Listening::new(&rt, rt.alloc(), &text), Health::new());
    let mut made = benches(&rt, rt.alloc(), &listening, &health, 1, 3)?;
    let Some((third, others)) = made.as_mut_slice().split_last_mut() else {
        return Err(Fail::new("no bench"));
    };
    let bound = ask(&mut third.door);
    let mut one = TcpStream::connect(&rt, address)?;
    one.write_all(b"1111")?;
    let Some((first, others)) = others.split_first_mut() else {
        return Err(Fail::new("one bench"));
    };
    let Some((second, _)) = others.split_first_mut() else {
        return Err(Fail::new("two benches"));
    };
    // It waits in the system until a thread looks for it.
    let mut two = TcpStream::connect(&rt, address)?;
    let given = bytes_of_old(&rt, &mut first.door, &mut two);
    let next = first_byte(&mut second.door);
    drop((one, two));
    if bound == Given::Idle && given == (Some(b'1'), None) && next == Some(b'2') {
        Ok(())
    } else {
        Err(Fail::new(format_args!("{given:?} and {next:?}")))
    }
}
