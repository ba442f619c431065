//! A whole script.

ghost use Rattle.std.specs.Prelude.{◌≡◌, ◌+◌, ◌++◌, ◌≤◌, ◌^◌, ℕ, List, [], IfOk, MatchBool, MatchOption};
ghost use Rattle.std.specs.Prelude.{OnOk, length, false, true};
ghost use Rattle.fedi_play.specs.Playing.{BeginsRefused, BeginsWithEvent, IsPlay, Leads, Plays};
ghost use Rattle.fedi_play.specs.Playing.{Running, SettingUp, entries_lines};
ghost use Rattle.fedi_script.specs.Lines.{lines_of};
ghost use Rattle.fedi_script.specs.Printed.{refused_line};
ghost use Rattle.fedi_servers.specs.Founding.{hosts_of, nothing};
ghost use Rattle.fedi_servers.specs.Machines.{IsInOrder, founding_of};

use crate::events::{PlayWorld, happen, sets_up};
use fedi_address::Host;
use fedi_script::{LONGEST, next_line, put_entries, put_refused, put_too_long, read_line};
use fedi_servers::{MOMENT, Servers};
use fedi_text::Moment;
use fedi_world::World;
use std::alloc::{AllocError, Global};

/// What was printed about a script, and whether it was played to its end.
#[derive(Drop)]
pub struct Played {
    /// The text.
    pub text: Vec<u8>,
    /// Whether a line was refused, or all of the script since it is too long.
    pub refused: bool,
}

/// What is left of a script: its bytes, and the number of its first line, counted from 1.
#[derive(Clone, Copy)]
struct Left<'a> {
    bytes: &'a [u8],
    number: u64,
}

/// Sets the servers up, by the lines at the beginning of the script. Returns them, what is left of
/// the script, and whether its first line is refused; if not, it asks for an event, or nothing is
/// left. The error is out of memory.
fn set_up<'a>(alloc: Global, script: &'a [u8]) -> Result<(Servers, Left<'a>, bool), AllocError>
    requires { length script.now ≤ 2 ^ 20 }
    ensures order { IfOk result (λ r. IsInOrder r.0) }
    ensures leads { IfOk result (λ r. Leads (SettingUp nothing) 1 (lines_of script.now) []
        (SettingUp (founding_of r.0)) r.1.number (lines_of r.1.bytes.now)) }
    ensures few { IfOk result (λ r. r.1.number + length r.1.bytes.now ≤ length script.now + 1) }
    ensures stops { IfOk result (λ r. MatchBool r.2
        (BeginsRefused (SettingUp (founding_of r.0)) (lines_of r.1.bytes.now))
        (BeginsWithEvent (lines_of r.1.bytes.now))) }
{
    let mut servers = Servers::new(alloc);
    let mut left = Left {
        bytes: script,
        number: 1,
    };
    'lines: while !left.bytes.is_empty() {
        let (line, after) = next_line(left.bytes);
        let Some(line) = read_line(line) else {
            return Ok((servers, left, true));
        };
        if !sets_up(line) {
            return Ok((servers, left, false));
        }
        if !servers.add(alloc, line)? {
            return Ok((servers, left, true));
        }
        left = Left {
            bytes: after,
            number: left.number + 1,
        };
    }
    Ok((servers, left, false))
}

/// Lets the events of what is left of the script happen, and appends the lines about them. Returns
/// the number of the line that is refused, if one is. The error is out of memory.
fn happen_all(
    alloc: Global,
    world: &mut PlayWorld,
    hosts: &[Host],
    script: Left<'_>,
    text: &mut Vec<u8>,
) -> Result<Option<u64>, AllocError>
    requires hosts { hosts.now ≡ hosts_of world.old.world.servers }
    requires few { script.number + length script.bytes.now ≤ 2 ^ 20 + 1 }
    ensures hosts { OnOk result (hosts.now ≡ hosts_of world.new.world.servers) }
    ensures played { IfOk result (λ refused. (printed : List ℕ)
        × (text.new.items ≡ text.old.items ++ printed)
        × MatchOption refused
        (Plays (Running world.old) script.entry.number (lines_of script.entry.bytes.now)
        (printed ++ entries_lines world.new.world.servers) false)
        (λ number. Plays (Running world.old) script.entry.number
        (lines_of script.entry.bytes.now) (printed ++ refused_line number) true)) }
{
    let mut left = script;
    'lines: while !left.bytes.is_empty() {
        let (line, after) = next_line(left.bytes);
        let Some(line) = read_line(line) else {
            return Ok(Some(left.number));
        };
        if !happen(alloc, world, hosts, line, text)? {
            return Ok(Some(left.number));
        }
        left = Left {
            bytes: after,
            number: left.number + 1,
        };
    }
    Ok(None)
}

/// Appends how many entries the history of each server has. The error is out of memory.
fn put_all_entries(world: &PlayWorld, hosts: &[Host], text: &mut Vec<u8>) -> Result<(), AllocError>
    requires { hosts.now ≡ hosts_of world.now.world.servers }
    ensures { OnOk result (text.new.items
        ≡ text.old.items ++ entries_lines world.now.world.servers) }
{
    'servers: for (index, host) in hosts.iter().enumerate() {
        put_entries(text, host.text(), world.entries(index))?;
    }
    Ok(())
}

/// The text about a script of which the line with this number is refused, after this text. The
/// error is out of memory.
fn refused_at(text: Vec<u8>, number: u64) -> Result<Played, AllocError>
    ensures { IfOk result (λ played. (played.refused ≡ true)
        × (played.text.items ≡ text.items ++ refused_line number)) }
{
    let mut text = text;
    put_refused(&mut text, number)?;
    Ok(Played {
        text,
        refused: true,
    })
}

/// Plays a script: sets its servers up, lets each event happen, and says what has happened, and at
/// the end how many entries the history of each server has. The first line that is refused is
/// reported, after what has happened before it. The error is out of memory.
pub fn play(alloc: Global, script: &[u8]) -> Result<Played, AllocError>
    ensures { IfOk result (λ played. IsPlay script.now played.text.items played.refused) }
{
    let mut text = Vec::new(alloc);
    if script.len() > LONGEST {
        put_too_long(&mut text)?;
        return Ok(Played {
            text,
            refused: true,
        });
    }
    let (servers, left, refused) = set_up(alloc, script)?;
    if refused {
        return refused_at(text, left.number);
    }
    let Servers {
        hosts,
        cores,
        members: _,
        pairs: _,
    } = servers;
    let mut world = World::start(alloc, cores, Moment::clamped(MOMENT))?;
    match happen_all(alloc, &mut world, &hosts, left, &mut text)? {
        Some(number) => refused_at(text, number),
        None => {
            put_all_entries(&world, &hosts, &mut text)?;
            Ok(Played {
                text,
                refused: false,
            })
        }
    }
}
