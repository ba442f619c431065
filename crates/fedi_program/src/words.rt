//! The words of the arguments, by one rule for all commands.

ghost use Rattle.std.specs.Prelude.{◌≡◌, ◌≤◌, ℕ, List, IfSome, None, Some, map, option_map};
ghost use Rattle.std.specs.Prelude.{string_bytes};
ghost use Rattle.fedi_program.specs.Commands.{is_flag, is_position, read, read_by, reading_of};
ghost use Rattle.fedi_program.specs.Commands.{row_by, row_of, word};

use arrayvec::ArrayVec;

/// A command, by its name alone.
#[derive(Clone, Copy)]
pub enum Verb {
    /// `usage`
    Usage,
    /// `init`
    Init,
    /// `inetd`
    Inetd,
    /// `serve`
    Serve,
    /// `add-actor`
    AddActor,
    /// `add-peer`
    AddPeer,
    /// `deliver`
    Deliver,
    /// `export`
    Export,
    /// `check`
    Check,
    /// `migrate`
    Migrate,
    /// `report`
    Report,
    /// `demo`
    Demo,
    /// `play`
    Play,
}

/// A row of the table of commands.
#[derive(Clone, Copy)]
pub struct Row {
    /// The command.
    verb: Verb,
    /// How many positional arguments it takes.
    positions: usize,
    /// Its flag, if it has one.
    flag: Option<&'static str>,
}

/// The most positional arguments that a command takes.
const POSITIONS: usize = 4;

impl Row {
    /// A command that has no flag.
    fn new(verb: Verb, positions: usize) -> Row
        ensures verb { result.verb ≡ verb }
        ensures positions { result.positions ≡ positions }
        ensures flag { result.flag ≡ None }
    {
        Row {
            verb,
            positions,
            flag: None,
        }
    }

    /// A command that may have this flag.
    fn flagged(verb: Verb, positions: usize, flag: &'static str) -> Row
        ensures verb { result.verb ≡ verb }
        ensures positions { result.positions ≡ positions }
        ensures flag { result.flag ≡ Some flag.entry }
    {
        Row {
            verb,
            positions,
            flag: Some(flag),
        }
    }

    // Whether the word is the flag.
    fn is_flag(&self, word: &str) -> bool
        ensures { result ≡ is_flag (option_map (λ flag. flag.now) self.now.flag) word.now }
    {
        match self.flag {
            Some(flag) => word == flag,
            None => false,
        }
    }
}

// The row of the command of this name.
fn row_of(name: &str) -> Option<Row>
    ensures row { option_map (row_by name.now) result ≡ row_of name.now }
    ensures positions { IfSome result (λ row. row.positions ≤ POSITIONS) }
{
    match name {
        "usage" => Some(Row::new(Verb::Usage, 0)),
        "init" => Some(Row::new(Verb::Init, 2)),
        "inetd" => Some(Row::new(Verb::Inetd, 1)),
        "serve" => Some(Row::new(Verb::Serve, 2)),
        "add-actor" => Some(Row::flagged(Verb::AddActor, 2, "--locked")),
        "add-peer" => Some(Row::flagged(Verb::AddPeer, 4, "--relay")),
        "deliver" => Some(Row::new(Verb::Deliver, 1)),
        "export" => Some(Row::new(Verb::Export, 2)),
        "check" => Some(Row::new(Verb::Check, 1)),
        "migrate" => Some(Row::new(Verb::Migrate, 2)),
        "report" => Some(Row::new(Verb::Report, 3)),
        "demo" => Some(Row::new(Verb::Demo, 1)),
        "play" => Some(Row::new(Verb::Play, 0)),
        _ => None,
    }
}

fn is_position(word: &str) -> bool
    ensures { result ≡ is_position word.now }
{
    !word.as_bytes().starts_with(b"-")
}

/// Accepted arguments.
#[derive(Drop)]
pub struct Reading<'a> {
    /// The command.
    pub verb: Verb,
    /// Its positional arguments, in order.
    positions: ArrayVec<&'a str, POSITIONS>,
    /// Whether its flag is among the words after it.
    pub flagged: bool,
}

impl<'a> Reading<'a> {
    /// The positional argument with this number, counted from 0. It is empty if there are fewer.
    pub fn position(&self, number: usize) -> &'a str
        ensures { result.now ≡ word (reading_of self.now).positions number }
    {
        match self.positions.get(number) {
            Some(word) => word,
            None => "",
        }
    }
}

// The words after a command as its row reads them, if it accepts them. The words that are not its
// flag are its positional arguments, as many as it takes, none beginning with `-`, and its flag
// occurs at most once.
fn read_by<'a>(words: &'a [String], row: Row) -> Option<Reading<'a>>
    requires { row.positions ≤ POSITIONS }
    ensures { (name : List ℕ) → option_map reading_of result
        ≡ read_by (map string_bytes words.now) (row_by name row) }
{
    let mut positions = ArrayVec::new();
    let mut flagged = false;
    for word in words {
        let word = word.as_str();
        if row.is_flag(word) {
            if flagged {
                return None;
            }
            flagged = true;
        } else if is_position(word) && positions.len() < row.positions {
            positions.push(word);
        } else {
            return None;
        }
    }
    if positions.len() < row.positions {
        return None;
    }
    Some(Reading {
        verb: row.verb,
        positions,
        flagged,
    })
}

/// The arguments, if they are accepted: a command and the words after it.
pub fn read(arguments: &[String]) -> Option<Reading<'_>>
    ensures { option_map reading_of result ≡ read (map string_bytes arguments.now) }
{
    let [name, words @ ..] = arguments else {
        return None;
    };
    read_by(words, row_of(name)?)
}
