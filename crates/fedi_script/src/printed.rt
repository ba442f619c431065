//! What is printed about a script: each function appends one line. The error of each is out of
//! memory; then the text may have a part of the line.

ghost use Rattle.std.specs.Prelude.{◌≡◌, ◌++◌, OnOk, decimal, option_copied};
ghost use Rattle.fedi_script.specs.Printed.{answered_line, attempt_line, crashed_line};
ghost use Rattle.fedi_script.specs.Printed.{entries_line, idle_line, location_part, outcome_line, refused_line};
ghost use Rattle.fedi_script.specs.Printed.{replied_line, request_line, too_long_line, waited_line};

use fedi_address::Iri;
use fedi_town::Outcome;
use itoa::Buffer;
use std::alloc::AllocError;

fn put_number(text: &mut Vec<u8>, number: u64) -> Result<(), AllocError>
    ensures { OnOk result (text.new.items ≡ text.old.items ++ decimal number) }
{
    let mut digits = Buffer::new();
    text.extend_from_slice(digits.format(number).as_bytes())
}

fn put_location(text: &mut Vec<u8>, location: Option<&Iri>) -> Result<(), AllocError>
    ensures { OnOk result (text.new.items
        ≡ text.old.items ++ location_part (option_copied location.entry)) }
{
    match location {
        Some(location) => {
            text.push(b' ')?;
            text.extend_from_slice(location.text().as_bytes())
        }
        None => Ok(()),
    }
}

/// A post was answered with this status, and made what is at this address.
#[tactic(auto, unfolding(crate::specs::Printed::replied_line))]
pub fn put_replied(
    text: &mut Vec<u8>,
    status: u16,
    location: Option<&Iri>,
) -> Result<(), AllocError>
    ensures { OnOk result (text.new.items
        ≡ text.old.items ++ replied_line status (option_copied location.entry)) }
{
    put_number(text, u64::from(status))?;
    put_location(text, location)?;
    text.push(b'\n')?;
    Ok(())
}

/// An attempt was begun, and has sent a request.
#[tactic(auto, unfolding(crate::specs::Printed::attempt_line))]
pub fn put_attempt(text: &mut Vec<u8>, attempt: u64, request: u64) -> Result<(), AllocError>
    ensures { OnOk result (text.new.items ≡ text.old.items ++ attempt_line attempt request) }
{
    text.extend_from_slice(b"attempt ")?;
    put_number(text, attempt)?;
    text.extend_from_slice(b" request ")?;
    put_number(text, request)?;
    text.push(b'\n')?;
    Ok(())
}

/// There was nothing to claim.
pub fn put_idle(text: &mut Vec<u8>) -> Result<(), AllocError>
    ensures { OnOk result (text.new.items ≡ text.old.items ++ idle_line) }
{
    text.extend_from_slice(b"idle\n")
}

/// A request was answered by this reply, with this status.
#[tactic(auto, unfolding(crate::specs::Printed::answered_line))]
pub fn put_answered(text: &mut Vec<u8>, reply: u64, status: u16) -> Result<(), AllocError>
    ensures { OnOk result (text.new.items ≡ text.old.items ++ answered_line reply status) }
{
    text.extend_from_slice(b"reply ")?;
    put_number(text, reply)?;
    text.push(b' ')?;
    put_number(text, u64::from(status))?;
    text.push(b'\n')?;
    Ok(())
}

/// An attempt goes on with this request.
#[tactic(auto, unfolding(crate::specs::Printed::request_line))]
pub fn put_request(text: &mut Vec<u8>, request: u64) -> Result<(), AllocError>
    ensures { OnOk result (text.new.items ≡ text.old.items ++ request_line request) }
{
    text.extend_from_slice(b"request ")?;
    put_number(text, request)?;
    text.push(b'\n')?;
    Ok(())
}

/// An attempt has ended, and this is what that means.
pub fn put_outcome(text: &mut Vec<u8>, outcome: Outcome) -> Result<(), AllocError>
    ensures { OnOk result (text.new.items ≡ text.old.items ++ outcome_line outcome) }
{
    match outcome {
        Outcome::Delivered => text.extend_from_slice(b"delivered\n"),
        Outcome::Again => text.extend_from_slice(b"again\n"),
        Outcome::GivenUp => text.extend_from_slice(b"gave-up\n"),
    }
}

/// A server has stopped and started again.
pub fn put_crashed(text: &mut Vec<u8>) -> Result<(), AllocError>
    ensures { OnOk result (text.new.items ≡ text.old.items ++ crashed_line) }
{
    text.extend_from_slice(b"crashed\n")
}

/// Time has passed.
pub fn put_waited(text: &mut Vec<u8>) -> Result<(), AllocError>
    ensures { OnOk result (text.new.items ≡ text.old.items ++ waited_line) }
{
    text.extend_from_slice(b"waited\n")
}

/// The history of the server of this host has this many entries.
#[tactic(auto, unfolding(crate::specs::Printed::entries_line))]
pub fn put_entries(text: &mut Vec<u8>, host: &str, count: u64) -> Result<(), AllocError>
    ensures { OnOk result (text.new.items ≡ text.old.items ++ entries_line host.now count) }
{
    text.extend_from_slice(host.as_bytes())?;
    text.extend_from_slice(b" entries ")?;
    put_number(text, count)?;
    text.push(b'\n')?;
    Ok(())
}

/// The line with this number is refused.
#[tactic(auto, unfolding(crate::specs::Printed::refused_line))]
pub fn put_refused(text: &mut Vec<u8>, number: u64) -> Result<(), AllocError>
    ensures { OnOk result (text.new.items ≡ text.old.items ++ refused_line number) }
{
    text.extend_from_slice(b"refused: line ")?;
    put_number(text, number)?;
    text.push(b'\n')?;
    Ok(())
}

/// The script is too long.
pub fn put_too_long(text: &mut Vec<u8>) -> Result<(), AllocError>
    ensures { OnOk result (text.new.items ≡ text.old.items ++ too_long_line) }
{
    text.extend_from_slice(b"refused: too long\n")
}
