//! One event of a script, and what is printed about it.

ghost use Rattle.std.specs.Prelude.{◌≡◌, ◌++◌, ℕ, List, IfOk, MatchBool, MatchOption, OnOk};
ghost use Rattle.fedi_play.specs.Playing.{AsksFor, IsRefusedIn, Lets, server_in, sets_up};
ghost use Rattle.fedi_play.specs.Telling.{happened_line};
ghost use Rattle.fedi_script.specs.Lines.{instruction_of};
ghost use Rattle.fedi_servers.specs.Founding.{hosts_of};
ghost use Rattle.fedi_world.specs.declared.event.Event.{Event};

use fedi_address::{Host, LocalName};
use fedi_effects::outcome_of;
use fedi_index::IndexedShelf;
use fedi_outside::CalmKeeper;
use fedi_script::{
    Line, put_answered, put_attempt, put_crashed, put_idle, put_outcome, put_replied, put_request,
    put_waited,
};
use fedi_servers::index_of;
use fedi_world::{Event, Happened, World, WorldFault};
use std::alloc::{AllocError, Global};

/// Several servers in memory.
pub type PlayWorld = World<IndexedShelf, CalmKeeper>;

/// The number of the server of this host.
fn server_of(hosts: &[Host], host: &str) -> Option<u32>
    ensures { result ≡ server_in hosts.now host.now }
{
    u32::try_from(index_of(hosts, host)?).ok()
}

/// The event that this line asks for, if it asks for one, and the host and the name are there that
/// the line has. The error is out of memory.
fn event_of(alloc: Global, hosts: &[Host], line: Line<'_>) -> Result<Option<Event>, AllocError>
    ensures { IfOk result (λ event. MatchOption event
        ((e : Event) → AsksFor hosts.now (instruction_of line.entry) e → ⊥)
        (AsksFor hosts.now (instruction_of line.entry))) }
{
    let event = match line {
        Line::Server { .. } | Line::Actor { .. } | Line::Peers { .. } => None,
        Line::Say { host, name, body } => match (server_of(hosts, host), LocalName::parse(name)) {
            (Some(server), Some(name)) => Some(Event::Say {
                server,
                name,
                body: body.as_bytes().to_vec(alloc)?,
            }),
            _ => None,
        },
        Line::Claim { host } => server_of(hosts, host).map(|server| Event::Claim { server }),
        Line::Arrive { request } => Some(Event::Arrive { request }),
        Line::Reach { reply } => Some(Event::Reach { reply }),
        Line::Lose { attempt } => Some(Event::Lose { attempt }),
        Line::Crash { host } => server_of(hosts, host).map(|server| Event::Crash { server }),
        Line::Wait { seconds } => Some(Event::Wait { seconds }),
    };
    Ok(event)
}

/// Appends the line that says what has happened. The error is out of memory.
fn put_happened(text: &mut Vec<u8>, what: &Happened) -> Result<(), AllocError>
    ensures { OnOk result (text.new.items ≡ text.old.items ++ happened_line what.now) }
{
    match what {
        Happened::Replied { status, location } => put_replied(text, *status, location.as_ref()),
        Happened::Sent { attempt, request } => put_attempt(text, *attempt, *request),
        Happened::Idle => put_idle(text),
        Happened::Answered { reply, status } => put_answered(text, *reply, *status),
        Happened::Moved { request } => put_request(text, *request),
        Happened::Recorded(came) => put_outcome(text, outcome_of(*came)),
        Happened::Crashed => put_crashed(text),
        Happened::Waited => put_waited(text),
    }
}

/// Lets the event happen that a line asks for, and appends the line that says what has happened.
/// Returns whether it did; if not, the line is refused. The error is out of memory.
pub(crate) fn happen(
    alloc: Global,
    world: &mut PlayWorld,
    hosts: &[Host],
    line: Line<'_>,
    text: &mut Vec<u8>,
) -> Result<bool, AllocError>
    requires hosts { hosts.now ≡ hosts_of world.old.world.servers }
    ensures hosts { OnOk result (hosts.now ≡ hosts_of world.new.world.servers) }
    ensures happened { IfOk result (λ done. MatchBool done
        ((printed : List ℕ) × Lets world.old (instruction_of line.entry) printed world.new
        × (text.new.items ≡ text.old.items ++ printed))
        (IsRefusedIn world.old (instruction_of line.entry)
        × (text.new.items ≡ text.old.items))) }
{
    let Some(event) = event_of(alloc, hosts, line)? else {
        return Ok(false);
    };
    match world.step(alloc, event) {
        Ok(what) => {
            put_happened(text, &what)?;
            Ok(true)
        }
        Err(WorldFault::Memory) => Err(AllocError),
        // What is named is not there, or there is no room for the result of an attempt.
        Err(_) => Ok(false),
    }
}

/// Whether the line sets servers up.
pub(crate) fn sets_up(line: Line<'_>) -> bool
    ensures { result ≡ sets_up (instruction_of line.entry) }
{
    match line {
        Line::Server { .. } | Line::Actor { .. } | Line::Peers { .. } => true,
        Line::Say { .. }
        | Line::Claim { .. }
        | Line::Arrive { .. }
        | Line::Reach { .. }
        | Line::Lose { .. }
        | Line::Crash { .. }
        | Line::Wait { .. } => false,
    }
}
