//! Connections that have no thread yet.

use crate::tcp_lines::is_past;
use std::alloc::Global;
use std::io::ErrorKind;
use std::net::{TcpListener, TcpStream};
use std::time::{Clock, Duration, Instant};

/// The most connections that wait here. More wait in the system, which has room for fewer, and lets
/// those beyond that try again after a second, and then two and four.
const MOST: usize = 512;

/// How many of those that say nothing are closed at a look if there is no room for another one.
const SHARE: usize = 64;

/// The longest time, in seconds, for which a connection that says nothing waits here.
const SILENCE: u64 = 5;

/// The shortest time, in milliseconds, between two looks by threads that serve a connection.
const PAUSE: u64 = 20;

// A connection whose reads return at once.
#[derive(Drop)]
struct Waiting {
    stream: TcpStream,
    // When it came here, if the time was known.
    since: Option<Instant>,
    // Whether it had something to say when it was looked at.
    speaks: bool,
}

impl Waiting {
    // Looks whether it has something to say. Returns whether it may wait on.
    fn look(&mut self, now: Option<Instant>) -> bool {
        self.speaks = self.speaks || is_speaking(&self.stream);
        self.speaks || !is_past(self.since, now, Duration::from_secs(SILENCE))
    }
}

/// Whether a read of this connection has something to return. It waits for that as a read does. A
/// connection that was closed or has failed has.
pub(crate) fn is_speaking(stream: &TcpStream) -> bool {
    let mut first = [0; 1];
    match stream.peek(&mut first) {
        Ok(_) => true,
        Err(error) => !is_again(error.kind()),
    }
}

/// Whether a call that failed so may be made again: it waited as long as it may, or the system
/// interrupted it.
pub(crate) fn is_again(kind: ErrorKind) -> bool {
    kind == ErrorKind::WouldBlock || kind == ErrorKind::Interrupted
}

/// Connections that have no thread yet, in the order in which they came.
#[derive(Drop)]
pub(crate) struct Queue {
    waiting: Vec<Waiting>,
    // When they were last looked at, if that time was known.
    looked: Option<Instant>,
    // Whether the system had no room for one more when it was last asked.
    lacks_room: bool,
    // How many threads were called back and have not taken a connection yet.
    called: usize,
}

impl Queue {
    /// No connection waits.
    pub(crate) fn new(alloc: Global) -> Self {
        Queue {
            waiting: Vec::new(alloc),
            looked: None,
            lacks_room: false,
            called: 0,
        }
    }

    pub(crate) fn is_empty(&self) -> bool {
        self.waiting.is_empty()
    }

    /// Adds a connection. It is closed if there is no memory for it.
    pub(crate) fn add(&mut self, stream: TcpStream, now: Option<Instant>) {
        if stream.set_nonblocking(true).is_ok() {
            let _ = self.waiting.push(Waiting {
                stream,
                since: now,
                speaks: false,
            });
        }
    }

    /// Adds the connections that have come to the listener, as far as there is room, and looks at
    /// all of them. Closes those that were silent for too long, and, if there is no room, some more
    /// of the silent ones, the first of them. It waits for nothing.
    pub(crate) fn gather<R: Clock>(&mut self, rt: &R, listener: &TcpListener) {
        let now = Instant::now(rt).ok();
        self.looked = now;
        self.lacks_room = false;
        if listener.set_nonblocking(true).is_ok() {
            self.accept(listener, now);
            // If this fails, `accept` is made again after a pause.
            let _ = listener.set_nonblocking(false);
        }
        self.waiting.retain_mut(|waiting| waiting.look(now));
        if self.lacks_room {
            self.close_silent();
        }
    }

    /// The same, unless they were looked at just now.
    pub(crate) fn gather_again<R: Clock>(&mut self, rt: &R, listener: &TcpListener) {
        let now = Instant::now(rt).ok();
        let is_known = self.looked.is_some() && now.is_some();
        if !is_known || is_past(self.looked, now, Duration::from_millis(PAUSE)) {
            self.gather(rt, listener);
        }
    }

    fn accept(&mut self, listener: &TcpListener, now: Option<Instant>) {
        for _ in 0..MOST {
            if self.waiting.len() >= MOST {
                self.lacks_room = true;
                return;
            }
            match listener.accept() {
                Ok((stream, _)) => self.add(stream, now),
                Err(error) => {
                    self.lacks_room = !is_again(error.kind());
                    return;
                }
            }
        }
    }

    fn close_silent(&mut self) {
        let mut left = SHARE;
        self.waiting.retain(|waiting| {
            let stays = waiting.speaks || left == 0;
            if !stays {
                left = left.saturating_sub(1);
            }
            stays
        });
    }

    /// Takes the first connection that has something to say.
    pub(crate) fn take(&mut self) -> Option<TcpStream> {
        let Some(place) = self.waiting.iter().position(|waiting| waiting.speaks) else {
            self.called = 0;
            return None;
        };
        self.called = self.called.saturating_sub(1);
        let Waiting { stream, .. } = self.waiting.remove(place);
        // If this fails, reads of it return at once, and it ends soon.
        let _ = stream.set_nonblocking(false);
        Some(stream)
    }

    /// Calls a thread back if more connections have something to say than threads were called.
    /// Returns whether it was.
    pub(crate) fn call(&mut self) -> bool {
        let speaking = self.waiting.iter().filter(|waiting| waiting.speaks).count();
        let wanted = if self.lacks_room { 1 } else { 0 };
        let is_called = self.called < speaking.max(wanted);
        if is_called {
            self.called = self.called.saturating_add(1);
        }
        is_called
    }
}
