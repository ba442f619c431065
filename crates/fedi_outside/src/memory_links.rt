//! A link in memory.
ghost use Rattle.std.specs.Prelude.{◌≡◌, ◌≤◌, ◌++◌, ◌∷◌, [], IfOk, OnOk, length, map, true};
ghost use Rattle.fedi_outside.specs.Causes.{HasCause};
ghost use Rattle.fedi_outside.specs.Links.{asking_in, heard_by, reply_in, told_if};
ghost use Rattle.fedi_outside.specs.Plans.{no_faults};

use crate::plans::FaultPlan;
use crate::{Failed, Link};
use std::alloc::{AllocError, Global};

/// A request that was sent.
#[derive(Drop)]
pub struct Asked {
    /// The address.
    pub address: Vec<u8>,
    /// The request.
    pub request: Vec<u8>,
}

/// What was heard.
#[derive(Drop)]
pub enum Heard {
    /// No reply.
    Nothing,
    /// This reply.
    Reply(Vec<u8>),
}

/// A link in memory that gives these replies in order, and can be made to fail. It also fails when
/// no reply is left. It reports what it was asked and what was heard. If memory for that runs out,
/// it fails, and reports nothing from then on.
#[derive(Drop)]
pub struct MemoryLink {
    replies: Vec<Vec<u8>>,
    // How many exchanges there were.
    exchanges: usize,
    asked: Vec<Asked>,
    heard: Vec<Heard>,
    tells: bool,
    plan: FaultPlan,
}

fn asked_of(alloc: Global, address: &str, request: &[u8]) -> Result<Asked, AllocError>
    ensures { IfOk result (λ asked. asking_in asked
        ≡ record { address = address.now; request = request.now }) }
{
    let address = Vec::from_slice(alloc, address.as_bytes())?;
    let request = Vec::from_slice(alloc, request)?;
    Ok(Asked { address, request })
}

fn heard_of(alloc: Global, came: Result<usize, Failed>, into: &[u8]) -> Result<Heard, AllocError>
    requires { IfOk came (λ count. count ≤ length into.now) }
    ensures { IfOk result (λ heard. reply_in heard ≡ heard_by came into.now) }
{
    match came {
        Ok(count) => Ok(Heard::Reply(Vec::from_slice(alloc, &into[..count])?)),
        Err(Failed) => Ok(Heard::Nothing),
    }
}

fn note_asked(
    alloc: Global,
    rows: &mut Vec<Asked>,
    address: &str,
    request: &[u8],
) -> Result<(), AllocError>
    ensures { OnOk result (map asking_in rows.new.items ≡ map asking_in rows.old.items
        ++ record { address = address.now; request = request.now } ∷ []) }
{
    let row = asked_of(alloc, address, request)?;
    rows.push(row)?;
    Ok(())
}

fn note_heard(
    alloc: Global,
    rows: &mut Vec<Heard>,
    came: Result<usize, Failed>,
    into: &[u8],
) -> Result<(), AllocError>
    requires { IfOk came (λ count. count ≤ length into.now) }
    ensures { OnOk result (map reply_in rows.new.items
        ≡ map reply_in rows.old.items ++ heard_by came into.now ∷ []) }
{
    let row = heard_of(alloc, came, into)?;
    rows.push(row)?;
    Ok(())
}

// Copies as much of the reply as there is room for to the front.
fn give(reply: &[u8], into: &mut [u8]) -> usize
    ensures within { result ≤ length into.new }
    ensures room { length into.new ≡ length into.old }
{
    let count = reply.len().min(into.len());
    into[..count].copy_from_slice(&reply[..count]);
    count
}

// What the exchange with this number gives.
fn answer(
    replies: &[Vec<u8>],
    number: usize,
    plan: &mut FaultPlan,
    into: &mut [u8],
) -> Result<usize, Failed>
    ensures within { IfOk result (λ count. count ≤ length into.new) }
    ensures room { length into.new ≡ length into.old }
    ensures cause { HasCause plan.old.faults plan.new.faults result }
{
    if plan.next_fails() {
        return Err(Failed);
    }
    match replies.get(number) {
        Some(reply) => Ok(give(reply, into)),
        None => {
            plan.count_fault();
            Err(Failed)
        }
    }
}

impl MemoryLink {
    /// A link that gives these replies in order, and fails after them.
    pub fn new(alloc: Global, replies: Vec<Vec<u8>>) -> Self
        ensures replies { result.replies ≡ replies }
        ensures asked { result.asked.items ≡ [] }
        ensures heard { result.heard.items ≡ [] }
        ensures first { result.exchanges ≡ 0 }
        ensures tells { result.tells ≡ true }
        ensures plan { result.plan ≡ no_faults }
    {
        MemoryLink {
            replies,
            exchanges: 0,
            asked: Vec::new(alloc),
            heard: Vec::new(alloc),
            tells: true,
            plan: FaultPlan::new(alloc),
        }
    }

    /// The same link, except that the exchanges with these numbers, counted from 0, fail. Their
    /// replies are skipped.
    pub fn failing(self, exchanges: Vec<u64>) -> Self
        ensures { result ≡ record self { plan = record self.plan { failing = exchanges.items } } }
    {
        let mut link = self;
        link.plan.set_failing(exchanges);
        link
    }

    /// What it was asked, in order, unless memory for that ran out.
    pub fn asked(&self) -> &[Asked]
        ensures { result.now ≡ self.now.asked.items }
    {
        &self.asked
    }
}

impl Link for MemoryLink {
    ghost asked = { λ l. told_if l.tells (map asking_in l.asked.items) };

    ghost heard = { λ l. told_if l.tells (map reply_in l.heard.items) };

    ghost link_faults = { λ l. l.plan.faults };

    fn exchange(
        &mut self,
        address: &str,
        request: &[u8],
        into: &mut [u8],
    ) -> Result<usize, Failed> {
        let alloc = *self.asked.allocator();
        let came = answer(&self.replies, self.exchanges, &mut self.plan, into);
        self.exchanges = self.exchanges.saturating_add(1);
        let noted = note_asked(alloc, &mut self.asked, address, request).is_ok()
            && note_heard(alloc, &mut self.heard, came, into).is_ok();
        if noted {
            return came;
        }
        self.tells = false;
        if came.is_ok() {
            self.plan.count_fault();
        }
        Err(Failed)
    }
}
