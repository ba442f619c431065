//! A listener that several doors share.

use crate::waiting::{Queue, is_speaking};
use std::alloc::Global;
use std::io::{self, ErrorKind};
use std::net::{Net, TcpListener, TcpStream};
use std::os::fd::{AsFd, OwnedFd};
use std::rt::Stdin;
use std::sync::{Mutex, OnceLock, Wait};
use std::thread;
use std::time::{Clock, Duration, Instant};

/// How many milliseconds to sleep after a failed call: what it lacked may become available.
const PAUSE: u64 = 100;

/// How many milliseconds to sleep between two looks at connections that have not said anything.
const NAP: u64 = 10;

/// The longest time, in milliseconds, for which one call on a connection waits. Then the thread
/// looks whether it is needed elsewhere.
pub(crate) const SLICE: u64 = 100;

/// For how many slices a connection that says nothing has a thread.
const SLICES: u32 = 50;

/// In place of an address: the socket on the standard input, on which the system already listens.
const INHERITED: &str = "stdin";

/// Listens for TCP connections at an address, `HOST:PORT`, or on a socket that the process was
/// started with. The address is bound, or the socket taken, when a door is first asked, and only
/// once: if that fails, each door fails.
///
/// Connections that say nothing have a thread only while another one is free. Otherwise they wait
/// in a queue, in which the first that has something to say is the first to get one.
#[derive(Drop)]
pub struct Listening<'a, R: Net<Listener = TcpListener, Stream = TcpStream>> {
    rt: &'a R,
    address: &'a str,
    input: Option<Stdin>,
    listener: OnceLock<Option<TcpListener>>,
    // Who has the lock looks for connections. So while it can be taken at once, no thread is free.
    queue: Mutex<Queue>,
}

// What a look for connections found.
#[derive(Drop)]
enum Found {
    // One that came just now.
    New(TcpStream),
    // One that has something to say.
    Speaking(TcpStream),
    // None.
    Nothing,
    // The system had no room for one, or it was gone before it was taken.
    Failure,
}

impl<'a, R: Net<Listener = TcpListener, Stream = TcpStream>> Listening<'a, R> {
    /// A listener at this address, which is not bound yet. The host is an IP address, in brackets
    /// if of version 6, or a name. For a name, the first of its addresses that can be bound is
    /// taken. Port 0 cannot be bound: the system would choose a port that nobody learns of.
    pub fn new(rt: &'a R, alloc: Global, address: &'a str) -> Self {
        Listening {
            rt,
            address,
            input: None,
            listener: OnceLock::new(),
            queue: Mutex::new(Queue::new(alloc)),
        }
    }

    /// The same listener, but for the address `stdin`: there it listens on the socket that is open
    /// as the standard input, as it is where systemd starts a service with `StandardInput=socket`.
    /// Whoever handed it over keeps it open, so connections wait in it while no process accepts
    /// them. Anything else than a TCP socket that listens cannot be taken.
    pub fn or_on(self, input: Stdin) -> Self {
        Listening {
            input: Some(input),
            ..self
        }
    }

    fn open(&self) -> io::Result<TcpListener> {
        match (self.input, self.address) {
            (Some(input), INHERITED) => take(input),
            _ => bind(self.rt, self.address),
        }
    }
}

impl<R: Net<Listener = TcpListener, Stream = TcpStream> + Clock + Wait> Listening<'_, R> {
    /// Whether the address is bound, or the socket taken.
    pub(crate) fn is_bound(&self) -> bool {
        self.listener().is_some()
    }

    /// The next connection that has something to say, whenever it comes. `None` if the address
    /// could not be bound, or the socket not be taken.
    pub(crate) fn next(&self) -> Option<TcpStream> {
        let listener = self.listener()?;
        for _ in self.rt.forever() {
            match self.look(listener) {
                Found::New(stream) => {
                    if let Some(stream) = self.hear(stream) {
                        return Some(stream);
                    }
                }
                Found::Speaking(stream) => return Some(stream),
                Found::Nothing => {}
                Found::Failure => thread::sleep(self.rt, Duration::from_millis(PAUSE)),
            }
        }
        unreachable!()
    }

    // Waits for a connection if none is in the queue, and otherwise looks once for one.
    fn look(&self, listener: &TcpListener) -> Found {
        let mut queue = self.queue.lock(self.rt);
        if queue.is_empty() {
            return match listener.accept() {
                Ok((stream, _)) => Found::New(stream),
                Err(_) => Found::Failure,
            };
        }
        queue.gather(self.rt, listener);
        match queue.take() {
            Some(stream) => Found::Speaking(stream),
            None => {
                // Nobody else looks meanwhile.
                thread::sleep(self.rt, Duration::from_millis(NAP));
                Found::Nothing
            }
        }
    }

    // This connection, once it has something to say. `None` if it is silent for too long, or if it
    // has to wait in the queue since no other thread is free.
    fn hear(&self, stream: TcpStream) -> Option<TcpStream> {
        stream
            .set_read_timeout(Some(Duration::from_millis(SLICE)))
            .ok()?;
        for _ in 0..SLICES {
            if is_speaking(&stream) {
                return Some(stream);
            }
            if let Some(mut queue) = self.queue.try_lock() {
                queue.add(stream, Instant::now(self.rt).ok());
                return None;
            }
        }
        None
    }

    fn listener(&self) -> Option<&TcpListener> {
        let opened = || self.open().ok();
        self.listener.get_or_init(self.rt, opened).as_ref()
    }
}

impl<R: Net<Listener = TcpListener, Stream = TcpStream> + Clock> Listening<'_, R> {
    /// Calls back the thread of a connection that keeps others waiting: no thread is free, and a
    /// connection that has something to say waits for one. Returns whether it is called. Then it
    /// ends its connection, and asks for the next.
    pub(crate) fn calls(&self) -> bool {
        let Some(Some(listener)) = self.listener.get() else {
            return false;
        };
        match self.queue.try_lock() {
            Some(mut queue) => {
                queue.gather_again(self.rt, listener);
                queue.call()
            }
            None => false,
        }
    }
}

/// The socket that is open as the standard input, which stays open.
fn take(input: Stdin) -> io::Result<TcpListener> {
    let socket = TcpStream::from(input.as_fd().try_clone_to_owned()?);
    // A socket that listens has an address, and nobody at its other end. On anything else each
    // `accept` would fail, for ever.
    socket.local_addr()?;
    if socket.peer_addr().is_ok() {
        return Err(ErrorKind::InvalidInput.into());
    }
    let listener = TcpListener::from(OwnedFd::from(socket));
    // Whoever opened it may not have let `accept` wait.
    listener.set_nonblocking(false)?;
    Ok(listener)
}

fn bind<R: Net<Listener = TcpListener, Stream = TcpStream>>(
    rt: &R,
    address: &str,
) -> io::Result<TcpListener> {
    if has_no_port(address) {
        return Err(ErrorKind::InvalidInput.into());
    }
    TcpListener::bind(rt, address)
}

fn has_no_port(address: &str) -> bool {
    match address.rsplit_once(':') {
        Some((_, port)) => port.parse::<u16>().is_ok_and(|port| port == 0),
        None => false,
    }
}
