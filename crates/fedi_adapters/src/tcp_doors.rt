//! Doors on a listener.
ghost use Rattle.std.specs.Prelude.{◌≡◌, IfSome, None, false, if◌then◌else◌, not, true};
ghost use Rattle.fedi_adapters.specs.Doors.{Fits, is_tried};
ghost use Rattle.fedi_adapters.specs.Untold.{untold_if};
ghost use Rattle.fedi_outside.specs.Doors.{Gives, IsTurnCounted};

use crate::health::Health;
use crate::listeners::Listening;
use crate::tcp_lines::TcpLine;
use fedi_outside::{Door, Rest, Sink, Source, Turn};
use std::net::{Net, TcpListener, TcpStream};
use std::sync::Wait;
use std::thread;
use std::time::{Clock, Duration};

/// How many milliseconds a door that delivers sleeps after nothing was due.
const PAUSE: u64 = 1_000;

/// How many milliseconds it sleeps while the disk fails. What came of a delivery is not kept then,
/// so that the same one is due again at once, and its server would get it as fast as it answers.
const FAILING_PAUSE: u64 = 10_000;

/// What a door is for. A delivery may take seconds, in which its worker does nothing else. So no
/// worker both serves and delivers.
#[derive(Clone, Copy, Debug, PartialEq, Eq)]
pub enum Role {
    /// It gives connections, and is never idle: it waits until one comes.
    Serves,
    /// It gives no connection, and is always idle: at once after a delivery was tried, since there
    /// may be more, and otherwise after a second. While the disk fails, after ten seconds.
    Delivers,
}

/// A door on a listener that others share. Whatever its role, it fails each time if the address
/// could not be bound. It is never closed. It reports no rows.
#[derive(Drop)]
pub struct TcpDoor<'a, R: Net<Listener = TcpListener, Stream = TcpStream>> {
    rt: &'a R,
    listening: &'a Listening<'a, R>,
    health: &'a Health,
    role: Role,
    // Whether a line is out, and whether a rest is to be reported.
    is_out: bool,
    is_idle: bool,
    // Whether nothing was due when it was last idle.
    pauses: bool,
    faults: u64,
}

impl<'a, R: Net<Listener = TcpListener, Stream = TcpStream>> TcpDoor<'a, R> {
    /// A door of this role on this listener, which has given no line yet. The health is that of the
    /// disk on which is kept what comes of deliveries.
    pub fn new(rt: &'a R, listening: &'a Listening<'a, R>, health: &'a Health, role: Role) -> Self
        ensures role { result.role ≡ role }
        ensures out { result.is_out ≡ false }
        ensures idle { result.is_idle ≡ false }
        ensures pauses { result.pauses ≡ false }
        ensures faults { result.faults ≡ 0 }
    {
        TcpDoor {
            rt,
            listening,
            health,
            role,
            is_out: false,
            is_idle: false,
            pauses: false,
            faults: 0,
        }
    }
}

impl<'a, R: Net<Listener = TcpListener, Stream = TcpStream> + Clock + Wait> TcpDoor<'a, R> {
    // The next line, whenever it comes. `None` if the address could not be bound.
    fn line(&self) -> Option<TcpLine<'a, R>>
        ensures reads { IfSome result (λ line. line.read_faults ≡ 0) }
        ensures writes { IfSome result (λ line. line.write_faults ≡ 0) }
    {
        for _ in self.rt.forever() {
            let stream = self.listening.next()?;
            // It fails if the other side has left.
            if let Ok(line) = TcpLine::new(self.rt, self.listening, stream) {
                return Some(line);
            }
        }
        unreachable!()
    }

    // Sleeps if nothing was due before, or while the disk fails. Returns whether the address is
    // bound.
    fn rest(&self) -> bool {
        if !self.listening.is_bound() {
            return false;
        }
        let pause = pause_after(self.health.is_failing(), self.pauses);
        if pause > 0 {
            thread::sleep(self.rt, Duration::from_millis(pause));
        }
        true
    }
}

// How many milliseconds a door that delivers sleeps before it is idle, while the disk fails or not,
// after nothing was due or a delivery was tried.
fn pause_after(is_failing: bool, pauses: bool) -> u64
    ensures { result ≡ (if is_failing then FAILING_PAUSE else (if pauses then PAUSE else 0)) }
{
    if is_failing {
        FAILING_PAUSE
    } else if pauses {
        PAUSE
    } else {
        0
    }
}

impl<'a, R: Net<Listener = TcpListener, Stream = TcpStream> + Clock + Wait + Sync> Door
    for TcpDoor<'a, R> {
    type L = TcpLine<'a, R>;

    ghost out = { λ door. untold_if door.is_out };

    ghost idle = { λ door. door.is_idle };

    ghost served = { λ _. None };

    ghost closed = { λ _. false };

    ghost faults = { λ door. door.faults };

    fn next(&mut self) -> Turn<TcpLine<'a, R>>
        requires out { untold_if self.old.is_out ≡ None }
        requires idle { self.old.is_idle ≡ false }
        ensures fits { Fits self.old.role result }
        ensures gives { Gives ⟦<TcpLine<'a, R> as Source>⟧.left ⟦<TcpLine<'a, R> as Sink>⟧.sent
            ⟦<TcpLine<'a, R> as Source>⟧.read_faults ⟦<TcpLine<'a, R> as Sink>⟧.write_faults
            (untold_if self.new.is_out) self.new.is_idle false result }
        ensures cause { IsTurnCounted self.old.faults self.new.faults result }
    {
        match self.role {
            Role::Serves => {
                if let Some(line) = self.line() {
                    self.is_out = true;
                    return Turn::Line(line);
                }
            }
            Role::Delivers => {
                if self.rest() {
                    self.is_idle = true;
                    return Turn::Idle;
                }
            }
        }
        self.faults = self.faults.saturating_add(1);
        Turn::Failed
    }

    fn back(&mut self, line: TcpLine<'a, R>) {
        line.close();
        self.is_out = false;
    }

    fn rested(&mut self, rest: Rest)
        requires out { untold_if self.old.is_out ≡ None }
        requires idle { self.old.is_idle ≡ true }
        ensures pauses { self.new.pauses ≡ not (is_tried rest) }
        ensures out { untold_if self.new.is_out ≡ None }
        ensures idle { self.new.is_idle ≡ false }
        ensures faults { self.new.faults ≡ self.old.faults }
    {
        self.is_idle = false;
        self.pauses = !matches!(rest, Rest::Tried { .. });
    }
}
