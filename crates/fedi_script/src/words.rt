//! The words of a line, and what it says.

ghost use Rattle.std.specs.Prelude.{◌≡◌, None, Some, option_copied, option_map, if◌then◌else◌};
ghost use Rattle.fedi_script.specs.Lines.{cut, instruction_by, instruction_in, instruction_of};
ghost use Rattle.fedi_script.specs.Lines.{is_padded, last_parts, last_word, number_in, one_word};
ghost use Rattle.fedi_script.specs.Lines.{seconds_in};
ghost use Rattle.std.specs.Option.{option_and_then};
ghost use Rattle.std.specs.Str.{is_utf8};

use fedi_text::read_decimal;
use std::str;

/// What a line of a script says. Servers are named by their hosts, and requests, replies and
/// attempts by their numbers, each counted from 0 in the order in which they were made.
#[derive(Clone, Copy, Debug, PartialEq, Eq)]
pub enum Line<'a> {
    /// There is a server of this host.
    Server {
        /// The host.
        host: &'a str,
    },
    /// The server has a member of this name, who is not locked.
    Actor {
        /// The host of the server.
        host: &'a str,
        /// The name.
        name: &'a str,
    },
    /// Two servers share a key.
    Peers {
        /// The host of one.
        one: &'a str,
        /// The host of the other.
        other: &'a str,
    },
    /// A member posts to its outbox.
    Say {
        /// The host of its server.
        host: &'a str,
        /// The name of the member.
        name: &'a str,
        /// What it posts: the rest of the line.
        body: &'a str,
    },
    /// A server claims the first delivery that is due, and looks its recipient up.
    Claim {
        /// The host of the server.
        host: &'a str,
    },
    /// A request arrives, for the first time or again.
    Arrive {
        /// Its number.
        request: u64,
    },
    /// A reply reaches its attempt.
    Reach {
        /// Its number.
        reply: u64,
    },
    /// An attempt gets no reply to its last request.
    Lose {
        /// Its number.
        attempt: u64,
    },
    /// A server stops and starts again.
    Crash {
        /// The host of the server.
        host: &'a str,
    },
    /// Time passes.
    Wait {
        /// How much, in seconds.
        seconds: u32,
    },
}

/// What comes before the first space, and what comes after it.
fn cut(text: &str) -> Option<(&str, &str)>
    ensures { option_map (λ parts. (parts.0.now, parts.1.now)) result ≡ cut text.now }
{
    text.split_once(' ')
}

/// The text, if it has no space.
fn one_word(text: &str) -> Option<&str>
    ensures { option_map (λ word. word.now) result ≡ one_word text.now }
{
    match cut(text) {
        Some(_) => None,
        None => Some(text),
    }
}

/// The two words of a text, if it has two.
fn two_words(text: &str) -> Option<(&str, &str)>
    ensures { option_map (λ words. (words.0.now, words.1.now)) result
        ≡ option_and_then last_word (cut text.now) }
{
    let (first, rest) = cut(text)?;
    Some((first, one_word(rest)?))
}

/// Two words of a text, and all that comes after the space after them.
fn three_parts(text: &str) -> Option<(&str, &str, &str)>
    ensures { option_map (λ parts. (parts.0.now, parts.1.now, parts.2.now)) result
        ≡ option_and_then last_parts (cut text.now) }
{
    let (first, rest) = cut(text)?;
    let (second, rest) = cut(rest)?;
    Some((first, second, rest))
}

/// Whether there is a zero before another character.
fn is_padded(word: &str) -> bool
    ensures { result ≡ is_padded word.now }
{
    word.len() > 1 && word.as_bytes()[0] == b'0'
}

/// The number that 1 to 19 digits write, without a leading zero.
fn number_in(word: &str) -> Option<u64>
    ensures { result ≡ number_in word.now }
{
    if is_padded(word) {
        None
    } else {
        read_decimal(word.as_bytes())
    }
}

/// The same, if it has 32 bits.
fn seconds_in(word: &str) -> Option<u32>
    ensures { result ≡ seconds_in word.now }
{
    u32::try_from(number_in(word)?).ok()
}

/// What a line says whose first word is this one, and which goes on with this text.
#[tactic(auto, unfolding(crate::specs::Lines::instruction_by))]
fn line_by<'a>(word: &str, text: &'a str) -> Option<Line<'a>>
    ensures { option_map instruction_of result ≡ instruction_by word.now text.now }
{
    let line = match word {
        "server" => Line::Server {
            host: one_word(text)?,
        },
        "actor" => {
            let (host, name) = two_words(text)?;
            Line::Actor { host, name }
        }
        "peers" => {
            let (one, other) = two_words(text)?;
            Line::Peers { one, other }
        }
        "say" => {
            let (host, name, body) = three_parts(text)?;
            Line::Say { host, name, body }
        }
        "claim" => Line::Claim {
            host: one_word(text)?,
        },
        "arrive" => Line::Arrive {
            request: number_in(text)?,
        },
        "reach" => Line::Reach {
            reply: number_in(text)?,
        },
        "lose" => Line::Lose {
            attempt: number_in(text)?,
        },
        "crash" => Line::Crash {
            host: one_word(text)?,
        },
        "wait" => Line::Wait {
            seconds: seconds_in(text)?,
        },
        _ => return None,
    };
    Some(line)
}

/// The bytes as a text, if they are UTF-8 (RFC 3629).
fn text_of(bytes: &[u8]) -> Option<&str>
    ensures { option_copied result ≡ (if is_utf8 bytes.now then Some bytes.now else None) }
{
    str::from_utf8(bytes).ok()
}

/// What a line of a script says. `None` if it is not UTF-8 or has none of these forms, whose words
/// are separated by single spaces: `server HOST`, `actor HOST NAME`, `peers HOST HOST`,
/// `say HOST NAME JSON`, `claim HOST`, `arrive N`, `reach N`, `lose N`, `crash HOST`, `wait N`.
/// JSON is the rest of the line, whatever it is. N has 1 to 19 digits and no leading zero, and in a
/// `wait` is below 2^32. What is a host or a name is not judged here.
pub fn read_line(line: &[u8]) -> Option<Line<'_>>
    ensures { option_map instruction_of result ≡ instruction_in line.now }
{
    let (word, text) = cut(text_of(line)?)?;
    line_by(word, text)
}
