//! Connections as lines.
ghost use Rattle.std.specs.Prelude.{◌≡◌, ◌≢◌, None, IfOk, refl};
ghost use Rattle.std.specs.Io.{ReadsAtMost, WritesAtMost};

use crate::listeners::{Listening, SLICE};
use crate::waiting::is_again;
use fedi_outside::{Failed, Line, Sink, Source};
use std::io::{self, ErrorKind, Read, Write};
use std::net::{Net, Shutdown, TcpListener, TcpStream};
use std::time::{Clock, Duration, Instant};

/// For how many slices one read or one write waits at most: 5 seconds.
const PATIENCE: u64 = 50;

/// The longest time, in seconds, for consecutive reads or consecutive writes. After it, no further
/// one is made.
const BUDGET: u64 = 30;

/// For how many slices one of them waits at most while others wait for a thread: 1 second.
const SHORT_PATIENCE: u64 = 10;

/// The longest time, in seconds, for consecutive reads or consecutive writes while others wait.
const SHORT_BUDGET: u64 = 5;

/// After how many seconds a connection ends once a reply is sent, while others wait for a thread.
const SHORT_LIFE: u64 = 1;

/// Who sends or takes fewer bytes than this in each second after the first does so by drops. While
/// others wait for a thread, it has a second, and one more for each time that it moves so many.
const PACE: u64 = 4_096;

/// The longest time, in seconds, for which what still comes is dropped at the end.
const FAREWELL: u64 = 1;

/// A TCP connection. A read or a write fails if it waits longer than 5 seconds. It also fails if it
/// is made more than 30 seconds after the first call of its kind since the last call of the other
/// kind: a request has to be there, or a reply to be taken, in that time. One that the system
/// interrupts begins anew while that time lasts. It reports neither what is to be read nor what was
/// sent.
///
/// While another connection has something to say and no thread is free, the first read after a
/// reply fails if nothing comes for a tenth of a second, or if the connection is a second old. Other
/// reads, and writes, fail then after 1 second without a byte, after 5 seconds in all, and if less
/// than 4,096 bytes a second are moved.
#[derive(Drop)]
pub struct TcpLine<'a, R: Net<Listener = TcpListener, Stream = TcpStream>> {
    rt: &'a R,
    listening: &'a Listening<'a, R>,
    stream: TcpStream,
    // When this was made, if the time was known.
    made: Option<Instant>,
    // Whether the last call was a write, and when the first call of its kind since the last call of
    // the other kind was made. How many bytes were moved since then.
    writes: bool,
    since: Option<Instant>,
    moved: u64,
    // For how many slices no byte was moved.
    slices: u64,
    read_faults: u64,
    write_faults: u64,
}

impl<'a, R: Net<Listener = TcpListener, Stream = TcpStream> + Clock> TcpLine<'a, R> {
    /// This connection of the listener, from which nothing was read and to which nothing was
    /// written.
    pub(crate) fn new(
        rt: &'a R,
        listening: &'a Listening<'a, R>,
        stream: TcpStream,
    ) -> io::Result<Self>
        ensures reads { IfOk result (λ line. line.read_faults ≡ 0) }
        ensures writes { IfOk result (λ line. line.write_faults ≡ 0) }
    {
        // What is written is sent at once.
        stream.set_nodelay(true)?;
        stream.set_read_timeout(Some(Duration::from_millis(SLICE)))?;
        stream.set_write_timeout(Some(Duration::from_millis(SLICE)))?;
        let now = Instant::now(rt).ok();
        Ok(TcpLine {
            rt,
            listening,
            stream,
            made: now,
            writes: false,
            since: now,
            moved: 0,
            slices: 0,
            read_faults: 0,
            write_faults: 0,
        })
    }

    // Whether it is too late for a call of this kind. It is not if the time is not known.
    fn is_late(&mut self, writes: bool) -> bool
        ensures reads { self.new.read_faults ≡ self.old.read_faults }
        ensures writes { self.new.write_faults ≡ self.old.write_faults }
        ensures kind { self.new.writes ≡ writes }
        ensures since { writes ≡ self.old.writes → self.new.since ≡ self.old.since }
    {
        let now = Instant::now(self.rt).ok();
        self.since = since_of(self.writes, writes, self.since, now);
        if writes != self.writes {
            self.moved = 0;
            self.slices = 0;
        }
        self.writes = writes;
        self.slices >= PATIENCE
            || is_past(self.since, now, Duration::from_secs(BUDGET))
            || (self.keeps_waiting(now) && self.listening.calls())
    }

    // Whether it ends if another connection waits for its thread.
    fn keeps_waiting(&self, now: Option<Instant>) -> bool {
        let is_between = !self.writes && self.moved == 0;
        (is_between
            && (self.slices > 0 || is_past(self.made, now, Duration::from_secs(SHORT_LIFE))))
            || self.slices >= SHORT_PATIENCE
            || is_past(self.since, now, short_budget(self.moved))
    }

    // Takes note of a call that moved so many bytes.
    fn note(&mut self, count: usize)
        ensures reads { self.new.read_faults ≡ self.old.read_faults }
        ensures writes { self.new.write_faults ≡ self.old.write_faults }
    {
        self.moved = self.moved.saturating_add(count as u64);
        self.slices = 0;
    }

    // Takes note of a call that failed so. Returns whether it may be made again. With a time-out
    // set, the system also interrupts a call when the process is stopped and goes on, is frozen and
    // thawed, or is traced. Such a read has taken nothing, and such a write has sent nothing: if it
    // has sent some bytes, it returns their number.
    fn passes(&mut self, kind: ErrorKind) -> bool
        ensures reads { self.new.read_faults ≡ self.old.read_faults }
        ensures writes { self.new.write_faults ≡ self.old.write_faults }
    {
        if kind == ErrorKind::WouldBlock {
            self.slices = self.slices.saturating_add(1);
        }
        is_again(kind)
    }

    // Reads once.
    fn receive(&mut self, into: &mut [u8]) -> io::Result<usize>
        ensures bound { ReadsAtMost result into.new }
        ensures reads { self.new.read_faults ≡ self.old.read_faults }
        ensures writes { self.new.write_faults ≡ self.old.write_faults }
    {
        for _ in 0..u64::MAX {
            if self.is_late(false) {
                break;
            }
            match self.stream.read(into) {
                Ok(count) => {
                    self.note(count);
                    return Ok(count);
                }
                Err(error) => {
                    if !self.passes(error.kind()) {
                        return Err(error);
                    }
                }
            }
        }
        Err(ErrorKind::TimedOut.into())
    }

    // Writes once.
    fn send(&mut self, from: &[u8]) -> io::Result<usize>
        ensures bound { WritesAtMost result from.now }
        ensures reads { self.new.read_faults ≡ self.old.read_faults }
        ensures writes { self.new.write_faults ≡ self.old.write_faults }
    {
        for _ in 0..u64::MAX {
            if self.is_late(true) {
                break;
            }
            match self.stream.write(from) {
                Ok(count) => {
                    self.note(count);
                    return Ok(count);
                }
                Err(error) => {
                    if !self.passes(error.kind()) {
                        return Err(error);
                    }
                }
            }
        }
        Err(ErrorKind::TimedOut.into())
    }

    /// Closes the connection so that the other side gets what was written. If the other side still
    /// sends, that is read and dropped for some time, since the system answers what comes to a
    /// closed connection with a reset, which may overtake the last reply (RFC 9112, section 9.6). A
    /// connection on which a call failed is closed at once, and one for whose thread another one
    /// waits soon.
    pub(crate) fn close(self) {
        if self.read_faults > 0 || self.write_faults > 0 {
            return;
        }
        let mut line = self;
        let _ = line.drop_rest();
    }

    fn drop_rest(&mut self) -> io::Result<()> {
        self.stream.shutdown(Shutdown::Write)?;
        let (since, farewell) = (Instant::now(self.rt)?, Duration::from_secs(FAREWELL));
        let mut dropped = [0; 4_096];
        for _ in 0..u64::MAX {
            let is_over = match self.stream.read(&mut dropped) {
                Ok(count) => count == 0,
                Err(error) => !is_again(error.kind()) || self.listening.calls(),
            };
            if is_over || is_past(Some(since), Instant::now(self.rt).ok(), farewell) {
                return Ok(());
            }
        }
        Ok(())
    }
}

// How long a client that keeps others waiting has for its bytes if it has moved so many.
fn short_budget(moved: u64) -> Duration {
    Duration::from_secs((moved / PACE).min(SHORT_BUDGET - 1) + 1)
}

// When the first call of the kind of this one was made, if it is a write or not, since the last
// call of the other kind. Before this call that time was `since`, for writes or not.
fn since_of(
    were_writes: bool,
    writes: bool,
    since: Option<Instant>,
    now: Option<Instant>,
) -> Option<Instant>
    ensures same { writes ≡ were_writes → result ≡ since }
    ensures other { writes ≢ were_writes → result ≡ now }
{
    if writes == were_writes { since } else { now }
}

/// Whether both times are known and further apart than this.
pub(crate) fn is_past(since: Option<Instant>, now: Option<Instant>, limit: Duration) -> bool {
    match (since, now) {
        (Some(since), Some(now)) => now.saturating_duration_since(since) > limit,
        _ => false,
    }
}

impl<R: Net<Listener = TcpListener, Stream = TcpStream> + Clock> Source for TcpLine<'_, R> {
    ghost left = { λ _. None };

    ghost read_faults = { λ line. line.read_faults };

    ghost beside_source = { λ line. record { 0 = None; 1 = line.write_faults } };

    fn read(&mut self, into: &mut [u8]) -> Result<usize, Failed> {
        match self.receive(into) {
            Ok(count) => Ok(count),
            Err(_) => {
                self.read_faults = self.read_faults.saturating_add(1);
                Err(Failed)
            }
        }
    }
}

impl<R: Net<Listener = TcpListener, Stream = TcpStream> + Clock> Sink for TcpLine<'_, R> {
    ghost sent = { λ _. None };

    ghost write_faults = { λ line. line.write_faults };

    ghost beside_sink = { λ line. record { 0 = None; 1 = line.read_faults } };

    fn write(&mut self, from: &[u8]) -> Result<usize, Failed> {
        match self.send(from) {
            Ok(count) if count > 0 || from.is_empty() => Ok(count),
            _ => {
                self.write_faults = self.write_faults.saturating_add(1);
                Err(Failed)
            }
        }
    }
}

impl<R: Net<Listener = TcpListener, Stream = TcpStream> + Clock> Line for TcpLine<'_, R> {
    ghost reads_beside = { λ _. refl };

    ghost writes_beside = { λ _. refl };
}
