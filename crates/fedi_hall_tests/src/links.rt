//! Exchanges with other sides of all kinds, over real connections.

use fedi_adapters::TcpLink;
use fedi_outside::{Failed, Link, REPLY_LENGTH};
use std::alloc::{AllocError, Global};
use std::io::{self, ErrorKind, Read, Write};
use std::net::{IpAddr, Ipv4Addr, Net, SocketAddr, TcpListener, TcpStream, ToSocketAddrs};
use std::sync::atomic::{AtomicU64, Ordering};
use std::test::Fail;
use std::thread::{self, Threads};
use std::time::{Clock, Duration};

/// How many milliseconds an exchange has that is to fail, and one that is to succeed.
const SHORT: u64 = 500;

const LONG: u64 = 20_000;

/// The most milliseconds that the other side waits.
const LONGEST: u32 = 5_000;

/// What the other side does.
#[derive(Clone, Copy)]
enum Peer {
    /// Nobody listens.
    Absent,
    /// It takes the connection, and neither reads nor writes until the exchange is over.
    Holds,
    /// It reads the request, and writes this many bytes.
    Replies(usize),
    /// It reads the request, and writes this many bytes, one each tenth of the short time.
    Drips(u32),
}

// This many bytes, where any two neighbors differ.
fn bytes(alloc: Global, count: usize) -> Result<Vec<u8>, AllocError> {
    let mut bytes = Vec::with_capacity(alloc, count)?;
    for place in 0..count {
        bytes.push((place % 251) as u8)?;
    }
    Ok(bytes)
}

fn listen<R: Net<Listener = TcpListener, Stream = TcpStream>>(
    rt: &R,
) -> io::Result<(TcpListener, SocketAddr)> {
    let listener = TcpListener::bind(rt, SocketAddr::from((Ipv4Addr::LOCALHOST, 0)))?;
    listener.set_nonblocking(true)?;
    let address = listener.local_addr()?;
    Ok((listener, address))
}

// The next connection, if it comes in time.
fn accept<R: Clock>(rt: &R, listener: &TcpListener) -> io::Result<TcpStream> {
    for _ in 0..LONGEST {
        match listener.accept() {
            Ok((stream, _)) => return Ok(stream),
            Err(error) if error.kind() == ErrorKind::WouldBlock => {}
            Err(error) => return Err(error),
        }
        thread::sleep(rt, Duration::from_millis(1));
    }
    Err(ErrorKind::TimedOut.into())
}

// Reads the request, and says whether it is the one that was to be sent.
fn takes(alloc: Global, stream: &mut TcpStream, request: &[u8]) -> io::Result<bool> {
    let mut taken = vec![in alloc; 0; request.len()]?;
    stream.read_exact(&mut taken)?;
    Ok(taken.as_slice() == request)
}

fn drip<R: Clock>(rt: &R, stream: &mut TcpStream, count: u32) -> io::Result<()> {
    for _ in 0..count {
        stream.write_all(b"x")?;
        thread::sleep(rt, Duration::from_millis(SHORT / 10));
    }
    Ok(())
}

// Acts as the other side, and says whether it received what was to be sent, if it reads that.
fn answer<R: Clock>(
    rt: &R,
    alloc: Global,
    listener: &TcpListener,
    peer: Peer,
    request: &[u8],
    is_over: &AtomicU64,
) -> io::Result<bool> {
    let mut stream = accept(rt, listener)?;
    match peer {
        Peer::Absent => {}
        Peer::Holds => {
            for _ in 0..LONGEST {
                if is_over.load(Ordering::SeqCst) != 0 {
                    break;
                }
                thread::sleep(rt, Duration::from_millis(1));
            }
        }
        Peer::Replies(count) => {
            if !takes(alloc, &mut stream, request)? {
                return Ok(false);
            }
            // The link may have left before the last bytes.
            let _ = stream.write_all(&bytes(alloc, count)?);
        }
        Peer::Drips(count) => {
            if !takes(alloc, &mut stream, request)? {
                return Ok(false);
            }
            let _ = drip(rt, &mut stream, count);
        }
    }
    Ok(true)
}

// What an exchange hears that has this many milliseconds, if it does not fail.
fn hear<R: Net<Listener = TcpListener, Stream = TcpStream> + Clock>(
    rt: &R,
    alloc: Global,
    patience: u64,
    address: &str,
    request: &[u8],
) -> Result<Option<Vec<u8>>, AllocError> {
    let mut reply = vec![in alloc; 0; REPLY_LENGTH]?;
    let mut link = TcpLink::within(rt, Duration::from_millis(patience));
    match link.exchange(address, request, &mut reply) {
        Ok(count) => {
            reply.truncate(count);
            Ok(Some(reply))
        }
        Err(Failed) => Ok(None),
    }
}

// Whether `count` bytes were heard as they were sent, or none because the exchange failed.
fn is_heard(
    alloc: Global,
    heard: Option<Vec<u8>>,
    count: Option<usize>,
) -> Result<bool, AllocError> {
    match (heard, count) {
        (Some(reply), Some(count)) => Ok(reply == bytes(alloc, count)?),
        (None, None) => Ok(true),
        _ => Ok(false),
    }
}

// Whether the exchange of a request of this many bytes with this other side, at an address of this
// host, hears `count` bytes, or fails if there is no count.
fn hears<R: Net<Listener = TcpListener, Stream = TcpStream> + Clock + Threads + Sync>(
    rt: &R,
    alloc: Global,
    host: &str,
    request: usize,
    peer: Peer,
    count: Option<usize>,
) -> Result<bool, Fail> {
    let (listener, address) = listen(rt)?;
    let address = format!(in alloc; "{host}:{}", address.port())?;
    let request = bytes(alloc, request)?;
    let patience = if count.is_some() { LONG } else { SHORT };
    if let Peer::Absent = peer {
        drop(listener);
        let heard = hear(rt, alloc, patience, &address, &request)?;
        return Ok(is_heard(alloc, heard, count)?);
    }
    let is_over = AtomicU64::new(0);
    let (taken, heard) = thread::join(
        rt,
        || answer(rt, alloc, &listener, peer, &request, &is_over),
        || {
            let heard = hear(rt, alloc, patience, &address, &request);
            is_over.store(1, Ordering::SeqCst);
            heard
        },
    );
    Ok(taken? && is_heard(alloc, heard?, count)?)
}

// Even if the other side is slow, silent or sends too much, an exchange ends within its time and
// its room.
#[test]
fn an_exchange_ends_in_its_time(rt: HostRuntime) -> Result<(), Fail> {
    if listen(&rt).is_err() {
        // Nobody can listen here, so there is nothing to try.
        return Ok(());
    }
    for (row, request, peer, heard) in [
        ("a reply", 100, Peer::Replies(300), Some(300)),
        ("no reply", 100, Peer::Replies(0), Some(0)),
        ("just room", 100, Peer::Replies(65_536), Some(65_536)),
        ("too long", 100, Peer::Replies(200_000), Some(65_536)),
        ("a long request", 1_000_000, Peer::Replies(300), Some(300)),
        ("nobody", 100, Peer::Absent, None),
        ("silent", 100, Peer::Holds, None),
        ("does not read", 16_000_000, Peer::Holds, None),
        ("slow", 100, Peer::Drips(50), None),
    ] {
        if !hears(&rt, rt.alloc(), "127.0.0.1", request, peer, heard)? {
            return Err(Fail::new(row));
        }
    }
    Ok(())
}

// Whether 127.0.0.1, where the other side listens, is an address of this name, but not the first.
fn comes_later<R: Net<Listener = TcpListener, Stream = TcpStream>>(rt: &R, name: &str) -> bool {
    match (name, 80u16).to_socket_addrs(rt) {
        Ok(addresses) => addresses
            .skip(1)
            .any(|address| address.ip() == IpAddr::V4(Ipv4Addr::LOCALHOST)),
        Err(_) => false,
    }
}

#[test]
fn each_address_of_a_name_is_tried(rt: HostRuntime) -> Result<(), Fail> {
    // Most systems give this name the addresses ::1 and 127.0.0.1. On others there is no name with
    // two addresses that all have, so that there is nothing to try.
    if listen(&rt).is_err() || !comes_later(&rt, "localhost") {
        return Ok(());
    }
    if hears(
        &rt,
        rt.alloc(),
        "localhost",
        100,
        Peer::Replies(300),
        Some(300),
    )? {
        Ok(())
    } else {
        Err(Fail::new("the second address"))
    }
}

#[test]
fn what_names_no_address_is_not_reached(rt: HostRuntime) -> Result<(), Fail> {
    for address in ["", "127.0.0.1", "127.0.0.1:", "127.0.0.1:65536"] {
        if hear(&rt, rt.alloc(), LONG, address, b"x")?.is_some() {
            return Err(Fail::new(address));
        }
    }
    Ok(())
}
