//! Servers that a script sets up, one line after the other.

ghost use Rattle.std.specs.Prelude.{◌≡◌, ◌+◌, ◌++◌, ◌∷◌, ◌<◌, ◌^◌, [], IfOk, MatchBool, None, OnOk};
ghost use Rattle.std.specs.Prelude.{false, is_some, map};
ghost use Rattle.fedi_core.specs.Commands.{IsCommand};
ghost use Rattle.fedi_script.specs.Lines.{Actor, Peers, Server, instruction_of};
ghost use Rattle.fedi_servers.specs.Founding.{Adds, IsRefused, nothing, index_in};
ghost use Rattle.fedi_servers.specs.Machines.{AreFounded, IsFounded, IsInOrder, founding_of};
ghost use Rattle.fedi_servers.specs.Machines.{server_of};
ghost use Rattle.fedi_town.specs.Histories.{town};
ghost use Rattle.fedi_town.specs.Legal.{broken_command};

use crate::making::{ServerCore, machine, member, peer};
use fedi_address::{Host, HostFault, LocalName};
use fedi_objects::Entry;
use fedi_script::Line;
use std::alloc::{AllocError, Global};

/// The moment at which servers are set up: 1994-11-06T08:49:37Z, in seconds since
/// 1970-01-01T00:00:00Z.
pub const MOMENT: u64 = 784_111_777;

/// The servers that a script has set up so far, in the order in which it named them.
#[derive(Drop)]
pub struct Servers {
    /// Their hosts.
    pub hosts: Vec<Host>,
    /// Their machines.
    pub cores: Vec<ServerCore>,
    /// How many members there are.
    pub members: u64,
    /// How many pairs of peers there are.
    pub pairs: u64,
}

/// The index of the host among these.
pub fn index_of(hosts: &[Host], host: &str) -> Option<usize>
    ensures { result ≡ index_in hosts.now host.now }
{
    hosts.iter().position(|own| own.text() == host)
}

/// Whether the entry of a command breaks a rule.
fn breaks_rule(core: &ServerCore, entry: &Entry) -> bool
    ensures { result ≡ is_some (broken_command (town core.now.history) entry.now) }
{
    match core.facts().judge_command(entry) {
        Ok(()) => false,
        Err(_) => true,
    }
}

/// Keeps the entry of a command that breaks no rule. The error is out of memory.
fn keep(alloc: Global, core: &mut ServerCore, entry: Entry) -> Result<(), AllocError>
    requires founded { IsFounded core.old }
    requires command { IsCommand (town core.old.history) entry }
    requires unbroken { broken_command (town core.old.history) entry ≡ None }
    ensures history { OnOk result (core.new.history ≡ core.old.history ++ entry ∷ []) }
    ensures founded { OnOk result (IsFounded core.new) }
{
    let Ok(()) = core.keep(alloc, entry) else {
        // The keeper does not fail and has room for 2^62 bytes, so memory ran out.
        return Err(AllocError);
    };
    Ok(())
}

impl Servers {
    /// No servers yet.
    pub fn new(alloc: Global) -> Servers
        ensures empty { founding_of result ≡ nothing }
        ensures order { IsInOrder result }
    {
        Servers {
            hosts: Vec::new(alloc),
            cores: Vec::new(alloc),
            members: 0,
            pairs: 0,
        }
    }

    // Sets a server up for this host, unless the text is no host or there is one. Returns whether
    // it did. The error is out of memory.
    fn add_server(&mut self, alloc: Global, host: &str) -> Result<bool, AllocError>
        requires order { IsInOrder self.old }
        ensures order { OnOk result (IsInOrder self.new) }
        ensures added { IfOk result (λ done. MatchBool done
            (Adds (founding_of self.old) (Server host.now) (founding_of self.new))
            (IsRefused (founding_of self.old) (Server host.now))) }
        ensures same { IfOk result (λ done. done ≡ false → self.new ≡ self.old) }
    {
        if index_of(&self.hosts, host).is_some() {
            return Ok(false);
        }
        let host = match Host::parse(alloc, host) {
            Ok(host) => host,
            Err(HostFault::BadHost) => return Ok(false),
            Err(HostFault::Memory) => return Err(AllocError),
        };
        self.hosts.reserve(1)?;
        self.cores.reserve(1)?;
        let core = machine(alloc, host.clone()?)?;
        self.hosts.push_reserved(host);
        self.cores.push_reserved(core);
        Ok(true)
    }

    // Makes a member of this name at the server of this host, unless there is no such server, the
    // text is no name, or the name is taken. Returns whether it did. The error is out of memory.
    fn add_actor(&mut self, alloc: Global, host: &str, name: &str) -> Result<bool, AllocError>
        requires order { IsInOrder self.old }
        requires few { self.old.members + 1 < 2 ^ 64 }
        ensures order { OnOk result (IsInOrder self.new) }
        ensures added { IfOk result (λ done. MatchBool done
            (Adds (founding_of self.old) (Actor host.now name.now) (founding_of self.new))
            (IsRefused (founding_of self.old) (Actor host.now name.now))) }
        ensures same { IfOk result (λ done. done ≡ false → self.new ≡ self.old) }
    {
        let Some(index) = index_of(&self.hosts, host) else {
            return Ok(false);
        };
        let Some(name) = LocalName::parse(name) else {
            return Ok(false);
        };
        let entry = member(name, self.members + 1);
        if breaks_rule(&self.cores[index], &entry) {
            return Ok(false);
        }
        keep(alloc, &mut self.cores[index], entry)?;
        self.members += 1;
        Ok(true)
    }

    // Makes each of two servers a peer of the other, with the same key, unless one of them is not
    // there, or is the other one or has it as a peer. Returns whether it did. The error is out of
    // memory.
    fn add_peers(&mut self, alloc: Global, one: &str, other: &str) -> Result<bool, AllocError>
        requires order { IsInOrder self.old }
        requires few { self.old.pairs + 1 < 2 ^ 64 }
        ensures order { OnOk result (IsInOrder self.new) }
        ensures added { IfOk result (λ done. MatchBool done
            (Adds (founding_of self.old) (Peers one.now other.now) (founding_of self.new))
            (IsRefused (founding_of self.old) (Peers one.now other.now))) }
        ensures same { IfOk result (λ done. done ≡ false → self.new ≡ self.old) }
    {
        let Some(first) = index_of(&self.hosts, one) else {
            return Ok(false);
        };
        let Some(second) = index_of(&self.hosts, other) else {
            return Ok(false);
        };
        let at_first = peer(alloc, &self.hosts[second], self.pairs + 1)?;
        let at_second = peer(alloc, &self.hosts[first], self.pairs + 1)?;
        if breaks_rule(&self.cores[first], &at_first) {
            return Ok(false);
        }
        if breaks_rule(&self.cores[second], &at_second) {
            return Ok(false);
        }
        keep(alloc, &mut self.cores[first], at_first)?;
        keep(alloc, &mut self.cores[second], at_second)?;
        self.pairs += 1;
        Ok(true)
    }

    /// Does what this line says, if it sets servers up and breaks no rule. Returns whether it did;
    /// if not, the line is refused, and nothing has changed. The error is out of memory, and what is
    /// there after it is not to be used.
    pub fn add(&mut self, alloc: Global, line: Line<'_>) -> Result<bool, AllocError>
        requires order { IsInOrder self.old }
        requires few_members { self.old.members + 1 < 2 ^ 64 }
        requires few_pairs { self.old.pairs + 1 < 2 ^ 64 }
        ensures order { OnOk result (IsInOrder self.new) }
        ensures added { IfOk result (λ done. MatchBool done
            (Adds (founding_of self.old) (instruction_of line.entry) (founding_of self.new))
            (IsRefused (founding_of self.old) (instruction_of line.entry))) }
        ensures same { IfOk result (λ done. done ≡ false → self.new ≡ self.old) }
    {
        match line {
            Line::Server { host } => self.add_server(alloc, host),
            Line::Actor { host, name } => self.add_actor(alloc, host, name),
            Line::Peers { one, other } => self.add_peers(alloc, one, other),
            Line::Say { .. }
            | Line::Claim { .. }
            | Line::Arrive { .. }
            | Line::Reach { .. }
            | Line::Lose { .. }
            | Line::Crash { .. }
            | Line::Wait { .. } => Ok(false),
        }
    }
}
