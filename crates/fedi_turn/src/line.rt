//! A line of those who wait: first come, first served.
use std::array;
use std::sync::{Condvar, Mutex, Wait};

// How many bells there are. Who leaves rings one, which wakes the next caller alone if no more than
// this many wait.
const BELLS: usize = 64;

// How many callers came to the line, and how many of them left.
#[derive(Drop)]
struct Tickets {
    given: u64,
    served: u64,
}

/// A line of callers: each comes to its head in the order in which it came, and is there alone until
/// it leaves. No contract promises it.
#[derive(Drop)]
pub struct Line {
    tickets: Mutex<Tickets>,
    bells: [Condvar; BELLS],
}

// Where the caller with this ticket sleeps.
fn bell_of(bells: &[Condvar; BELLS], ticket: u64) -> &Condvar {
    &bells[(ticket % BELLS as u64) as usize]
}

impl Line {
    /// A line without callers.
    pub fn new() -> Line {
        Line {
            tickets: Mutex::new(Tickets {
                given: 0,
                served: 0,
            }),
            bells: array::from_fn(|_| Condvar::new()),
        }
    }

    /// Waits, asleep, until the caller is at the head of the line. It has to `leave` then.
    pub fn enter<R: Wait>(&self, rt: &R) {
        let mut tickets = self.tickets.lock(rt);
        let ticket = tickets.given;
        tickets.given = ticket.wrapping_add(1);
        let bell = bell_of(&self.bells, ticket);
        let _at_head = bell.wait_while(rt, tickets, |tickets| tickets.served != ticket);
    }

    /// Leaves the head of the line to the next caller. Only who is at the head may do so.
    pub fn leave<R: Wait>(&self, rt: &R) {
        let mut tickets = self.tickets.lock(rt);
        let next = tickets.served.wrapping_add(1);
        tickets.served = next;
        let is_awaited = next != tickets.given;
        drop(tickets);
        if is_awaited {
            bell_of(&self.bells, next).notify_all();
        }
    }
}
