//! Requests over TCP.
ghost use Rattle.std.specs.Prelude.{◌≡◌, ◌-◌, ◌<◌, ◌≤◌, IfOk, None, OnOk, length, take};
ghost use Rattle.std.specs.Duration.{as_nanos};
ghost use Rattle.std.specs.Io.KnownBytes.{Appends, Consumes, IsAtEnd};
ghost use Rattle.std.specs.Time.{instant_nanos};

use fedi_outside::{Failed, Link};
use std::io::{self, ErrorKind, Read, Write};
use std::net::{Net, TcpListener, TcpStream, ToSocketAddrs};
use std::time::{Clock, Duration, Instant};

/// The longest time that an exchange takes, in seconds.
const PATIENCE: u64 = 10;

/// Requests over TCP, each on its own connection. An address is `HOST:PORT`. The host is an IP
/// address, in brackets if of version 6, or a name. For a name, the first of its addresses that can
/// be connected to is taken.
///
/// An exchange may take 10 seconds, at whatever pace the other side reads and writes, and also if
/// the system interrupts its calls. After that it fails. Only the lookup of a name is not cut short
/// by this, since the system does it in its own time. The link reports neither what it asks nor
/// what it hears.
#[derive(Drop)]
pub struct TcpLink<'a, R> {
    rt: &'a R,
    patience: Duration,
    faults: u64,
}

// How long an exchange may go on: for this duration after this moment.
#[derive(Clone, Copy)]
struct Deadline {
    start: Instant,
    patience: Duration,
}

impl Deadline {
    // The time that is left. It is an error if none is left, or if the time is not known.
    fn left<R: Clock>(&self, rt: &R) -> io::Result<Duration>
        ensures some { IfOk result (λ left. 0 < as_nanos left) }
        ensures bound { IfOk result (λ left. as_nanos left ≤ as_nanos self.now.patience) }
    {
        let left = self.left_at(Instant::now(rt)?);
        if left.is_zero() {
            return Err(ErrorKind::TimedOut.into());
        }
        Ok(left)
    }

    fn left_at(&self, now: Instant) -> Duration
        ensures { as_nanos result ≡ as_nanos self.now.patience
            - (instant_nanos now - instant_nanos self.now.start) }
    {
        self.patience
            .saturating_sub(now.saturating_duration_since(self.start))
    }
}

/// A stream whose calls can be limited in time.
trait Timed: Read + Write {
    /// Lets each read and each write from now on wait at most for this time.
    fn wait_at_most(&mut self, left: Duration) -> io::Result<()>
        ensures reads { Self.remaining self.new ≡ Self.remaining self.old }
        ensures writes { Self.contents self.new ≡ Self.contents self.old };
}

impl Timed for TcpStream {
    fn wait_at_most(&mut self, left: Duration) -> io::Result<()> {
        self.set_read_timeout(Some(left))?;
        self.set_write_timeout(Some(left))
    }
}

// A stream until a deadline: each read and each write waits at most for the time that is left, and
// none is made once there is none.
#[derive(Drop)]
struct Bounded<'a, R, S> {
    rt: &'a R,
    deadline: Deadline,
    stream: S,
}

impl<R: Clock, S: Timed> Read for Bounded<'_, R, S> {
    ghost remaining = { λ bounded. S.remaining bounded.stream };

    #[tactic(auto, using(crate::proofs::Streams::kept, crate::proofs::Streams::read_limited))]
    fn read(&mut self, into: &mut [u8]) -> io::Result<usize> {
        self.stream.wait_at_most(self.deadline.left(self.rt)?)?;
        self.stream.read(into)
    }
}

impl<R: Clock, S: Timed> Write for Bounded<'_, R, S> {
    ghost contents = { λ bounded. S.contents bounded.stream };

    #[tactic(auto, using(crate::proofs::Streams::kept, crate::proofs::Streams::write_limited))]
    fn write(&mut self, from: &[u8]) -> io::Result<usize> {
        self.stream.wait_at_most(self.deadline.left(self.rt)?)?;
        self.stream.write(from)
    }

    fn flush(&mut self) -> io::Result<()> {
        self.stream.flush()
    }
}

impl<'a, R> TcpLink<'a, R> {
    /// A link on which no exchange has failed yet.
    pub fn new(rt: &'a R) -> Self
        ensures { result.faults ≡ 0 }
    {
        TcpLink::within(rt, Duration::from_secs(PATIENCE))
    }

    /// The same with a limit other than 10 seconds.
    pub fn within(rt: &'a R, patience: Duration) -> Self
        ensures { result.faults ≡ 0 }
    {
        TcpLink {
            rt,
            patience,
            faults: 0,
        }
    }
}

// Connects to the first of the addresses that can be connected to. std goes on with a connection
// whose making the system interrupts.
fn connect<R: Net<Listener = TcpListener, Stream = TcpStream> + Clock>(
    rt: &R,
    deadline: Deadline,
    address: &str,
) -> io::Result<TcpStream> {
    let mut last = ErrorKind::NotFound.into();
    for address in address.to_socket_addrs(rt)? {
        match TcpStream::connect_timeout(rt, &address, deadline.left(rt)?) {
            Ok(stream) => return Ok(stream),
            Err(error) => last = error,
        }
    }
    Err(last)
}

// Writes all that is to be sent. A write that the system interrupts has sent nothing, and std makes
// it again.
fn send<S: Write>(stream: &mut S, request: &[u8]) -> io::Result<()>
    ensures sent { OnOk result
        (Appends (S.contents stream.old) (S.contents stream.new) request.now) }
{
    stream.write_all(request)
}

// Reads until the other side closes or there is no room, and returns how many bytes came. A read
// that the system interrupts has taken nothing, and is made again.
fn receive<S: Read>(stream: &mut S, into: &mut [u8]) -> io::Result<usize>
    ensures within { IfOk result (λ count. count ≤ length into.new) }
    ensures room { length into.new ≡ length into.old }
    ensures read { IfOk result (λ count.
        Consumes (S.remaining stream.old) (S.remaining stream.new) (take count into.new)) }
    ensures whole { IfOk result (λ count.
        count < length into.new → IsAtEnd (S.remaining stream.new)) }
{
    let mut filled = 0;
    for _ in 0..u64::MAX {
        if filled >= into.len() {
            return Ok(filled);
        }
        match stream.read(&mut into[filled..]) {
            Ok(0) => return Ok(filled),
            Ok(count) => filled += count,
            Err(error) if error.kind() == ErrorKind::Interrupted => {}
            Err(error) => return Err(error),
        }
    }
    Err(ErrorKind::TimedOut.into())
}

impl<R: Net<Listener = TcpListener, Stream = TcpStream> + Clock> TcpLink<'_, R> {
    fn ask(&self, address: &str, request: &[u8], into: &mut [u8]) -> io::Result<usize>
        ensures within { IfOk result (λ count. count ≤ length into.new) }
        ensures room { length into.new ≡ length into.old }
    {
        let deadline = Deadline {
            start: Instant::now(self.rt)?,
            patience: self.patience,
        };
        let mut stream = Bounded {
            rt: self.rt,
            deadline,
            stream: connect(self.rt, deadline, address)?,
        };
        send(&mut stream, request)?;
        receive(&mut stream, into)
    }
}

impl<R: Net<Listener = TcpListener, Stream = TcpStream> + Clock> Link for TcpLink<'_, R> {
    ghost asked = { λ _. None };

    ghost heard = { λ _. None };

    ghost link_faults = { λ link. link.faults };

    fn exchange(
        &mut self,
        address: &str,
        request: &[u8],
        into: &mut [u8],
    ) -> Result<usize, Failed> {
        match self.ask(address, request, into) {
            Ok(count) => Ok(count),
            Err(_) => {
                self.faults = self.faults.saturating_add(1);
                Err(Failed)
            }
        }
    }
}
