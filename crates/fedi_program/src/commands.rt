//! The arguments of the program.

ghost use Rattle.std.specs.Prelude.{◌≡◌, map, is_some, option_map, string_bytes};
ghost use Rattle.fedi_program.specs.Commands.{address_of, is_table, names_store, names_table};
ghost use Rattle.fedi_program.specs.Commands.{number_of, reading_of, second_in, store_in};
ghost use Rattle.fedi_program.specs.Commands.{table_of, task_by, task_in, task_of};

use crate::words::{Reading, Verb, read};
use fedi_text::read_decimal;

/// What the program is asked to do.
#[derive(Clone, Copy, Debug, PartialEq, Eq)]
pub enum Command<'a> {
    /// To print the arguments that the program takes.
    Usage,
    /// To begin a store.
    Init {
        /// The host that the store belongs to.
        host: &'a str,
    },
    /// To serve one connection on the input.
    Inetd,
    /// To serve the connections that come to this address.
    Serve {
        /// The address.
        address: &'a str,
    },
    /// To make a member of this name.
    AddActor {
        /// The name.
        name: &'a str,
        /// Whether Follows of the member wait for an answer.
        locked: bool,
    },
    /// To make another server a peer.
    AddPeer(NewPeer<'a>),
    /// To try each delivery that is due.
    Deliver,
    /// To print a table of what a store holds.
    Export {
        /// The table.
        table: Table,
    },
    /// To count what a store holds.
    Check,
    /// To move the records of a store to another file.
    Migrate,
    /// To move the records of a store to a table.
    Fill,
    /// To report of the activities of one member and of one type.
    Report {
        /// The member's name.
        name: &'a str,
        /// The name of the type.
        kind: &'a str,
    },
    /// To run a demonstration.
    Demo {
        /// Its number.
        number: u16,
    },
    /// To play the script on the input.
    Play,
}

/// A table of what a store holds.
#[derive(Clone, Copy, Debug, PartialEq, Eq)]
pub enum Table {
    /// The members.
    Actors,
    /// The activities.
    Activities,
    /// The deliveries that have not ended.
    Queue,
}

/// A server that is to be made a peer, as an operator writes it.
#[derive(Clone, Copy, Debug, PartialEq, Eq)]
pub struct NewPeer<'a> {
    /// The host.
    pub host: &'a str,
    /// The key that both servers have, in 64 hexadecimal digits.
    pub key: &'a str,
    /// The address at which the server is reached.
    pub address: &'a str,
    /// Whether the server may deliver what actors of other hosts did.
    pub relay: bool,
}

fn table_of(name: &str) -> Option<Table>
    ensures { result ≡ table_of name.now }
{
    match name {
        "actors" => Some(Table::Actors),
        "activities" => Some(Table::Activities),
        "queue" => Some(Table::Queue),
        _ => None,
    }
}

// The number that one to four decimal digits write.
#[tactic(auto, using(crate::proofs::NumberLemmas::short_number))]
fn number_of(word: &str) -> Option<u16>
    ensures { result ≡ number_of word.now }
{
    if word.len() > 4 {
        return None;
    }
    let number = read_decimal(word.as_bytes())?;
    u16::try_from(number).ok()
}

/// What the word of a store that is a table begins with. The file of the table follows it.
pub const TABLE: &str = "table:";

fn is_table(word: &str) -> bool
    ensures { result ≡ is_table word.now }
{
    word.as_bytes().starts_with(b"table:")
}

// The command that accepted arguments give, or `None` if they name no valid table or number, or a
// store of the wrong kind.
fn command_by<'a>(reading: &Reading<'a>) -> Option<Command<'a>>
    ensures { option_map task_of result ≡ task_by (reading_of reading.now) }
{
    let command = match reading.verb {
        Verb::Usage => Command::Usage,
        Verb::Init => Command::Init {
            host: reading.position(1),
        },
        Verb::Inetd => Command::Inetd,
        Verb::Serve => {
            if is_table(reading.position(0)) {
                return None;
            }
            Command::Serve {
                address: reading.position(1),
            }
        }
        Verb::AddActor => Command::AddActor {
            name: reading.position(1),
            locked: reading.flagged,
        },
        Verb::AddPeer => Command::AddPeer(NewPeer {
            host: reading.position(1),
            key: reading.position(2),
            address: reading.position(3),
            relay: reading.flagged,
        }),
        Verb::Deliver => Command::Deliver,
        Verb::Export => Command::Export {
            table: table_of(reading.position(1))?,
        },
        Verb::Check => Command::Check,
        Verb::Migrate => {
            if !is_table(reading.position(1)) {
                Command::Migrate
            } else if is_table(reading.position(0)) {
                return None;
            } else {
                Command::Fill
            }
        }
        Verb::Report => Command::Report {
            name: reading.position(1),
            kind: reading.position(2),
        },
        Verb::Demo => Command::Demo {
            number: number_of(reading.position(0))?,
        },
        Verb::Play => Command::Play,
    };
    Some(command)
}

/// The command that the arguments give, or `None` if they are not accepted. They are the name of a
/// command, then its positional arguments, none of them beginning with `-`, and its flag at most
/// once, anywhere among them.
pub fn command_of(arguments: &[String]) -> Option<Command<'_>>
    ensures { option_map task_of result ≡ task_in (map string_bytes arguments.now) }
{
    command_by(&read(arguments)?)
}

/// The store that the arguments name: the first positional argument after the command. It is `None`
/// if the command needs no store, or if the arguments are not accepted.
pub fn store_of(arguments: &[String]) -> Option<&str>
    ensures named { is_some result ≡ names_store (task_in (map string_bytes arguments.now)) }
    ensures store { option_map (λ store. store.now) result
        ≡ store_in (map string_bytes arguments.now) }
{
    let reading = read(arguments)?;
    match command_by(&reading)? {
        Command::Usage | Command::Demo { .. } | Command::Play => None,
        _ => Some(reading.position(0)),
    }
}

/// Whether the arguments name a store that is a table.
pub(crate) fn names_table(arguments: &[String]) -> bool
    ensures { result ≡ names_table (map string_bytes arguments.now) }
{
    match store_of(arguments) {
        Some(store) => is_table(store),
        None => false,
    }
}

/// The file, or the table, that the records of a store are to be moved to, if the arguments ask for
/// that: the second positional argument after the command.
pub fn second_store_of(arguments: &[String]) -> Option<&str>
    ensures { option_map (λ store. store.now) result ≡ second_in (map string_bytes arguments.now) }
{
    let reading = read(arguments)?;
    match command_by(&reading)? {
        Command::Migrate | Command::Fill => Some(reading.position(1)),
        _ => None,
    }
}

/// The address at which connections are to be served, if the arguments ask for that.
pub fn address_of(arguments: &[String]) -> Option<&str>
    ensures { option_map (λ address. address.now) result
        ≡ address_of (task_in (map string_bytes arguments.now)) }
{
    match command_of(arguments) {
        Some(Command::Serve { address }) => Some(address),
        _ => None,
    }
}
