//! The requests of a demonstration, as bytes.

ghost use Rattle.std.specs.Prelude.{◌≡◌, ◌+◌, ◌++◌, ◌<◌, ◌≤◌, ◌^◌, IfOk, OnOk, decimal, option_map};
ghost use Rattle.fedi_demo.specs.Draws.{four_drawn, state_after};
ghost use Rattle.fedi_demo.specs.Requests.{
  activity_body,
  activity_id,
  addressees,
  before_key,
  before_length,
  body_by,
  common_fields,
  end_body,
  first_half,
  key_text,
  member_id,
  member_path,
  note_body,
  object_id,
  page_asked,
  post_head,
  posting,
  reading,
  request_text,
  request_with,
  requests_text,
  second_half,
};

use crate::draws::{Draws, Four};
use fedi_mac::hex_text;
use itoa::Buffer;
use std::alloc::{AllocError, Global};

/// The room for an id, a body or a request.
const ROOM: usize = 512;

fn put_number(text: &mut Vec<u8>, number: u64) -> Result<(), AllocError>
    ensures { OnOk result (text.new.items ≡ text.old.items ++ decimal number) }
{
    let mut digits = Buffer::new();
    text.extend_from_slice(digits.format(number).as_bytes())
}

// ---- members

fn put_path(text: &mut Vec<u8>, member: u8) -> Result<(), AllocError>
    ensures { OnOk result (text.new.items ≡ text.old.items ++ member_path member) }
{
    text.extend_from_slice(b"/users/m")?;
    put_number(text, u64::from(member))
}

fn put_id(text: &mut Vec<u8>, member: u8) -> Result<(), AllocError>
    ensures { OnOk result (text.new.items ≡ text.old.items ++ member_id member) }
{
    text.extend_from_slice(b"https://town.example")?;
    put_path(text, member)
}

fn member_id(alloc: Global, member: u8) -> Result<Vec<u8>, AllocError>
    ensures { IfOk result (λ id. id.items ≡ member_id member) }
{
    let mut id = Vec::with_capacity(alloc, ROOM)?;
    put_id(&mut id, member)?;
    Ok(id)
}

fn object_id(alloc: Global, member: u8, number: u64) -> Result<Vec<u8>, AllocError>
    ensures { IfOk result (λ id. id.items ≡ object_id member number) }
{
    let mut id = member_id(alloc, member)?;
    id.extend_from_slice(b"/o/")?;
    put_number(&mut id, number)?;
    Ok(id)
}

fn activity_id(alloc: Global, member: u8, number: u64) -> Result<Vec<u8>, AllocError>
    ensures { IfOk result (λ id. id.items ≡ activity_id member number) }
{
    let mut id = member_id(alloc, member)?;
    id.extend_from_slice(b"/a/")?;
    put_number(&mut id, number)?;
    Ok(id)
}

// ---- bodies

fn activity_body(alloc: Global, kind: &str, object: &[u8]) -> Result<Vec<u8>, AllocError>
    ensures { IfOk result (λ body. body.items ≡ activity_body kind.now object.now) }
{
    let mut body = Vec::with_capacity(alloc, ROOM)?;
    body.extend_from_slice(b"{\"type\":\"")?;
    body.extend_from_slice(kind.as_bytes())?;
    body.extend_from_slice(b"\",\"object\":\"")?;
    body.extend_from_slice(object)?;
    body.extend_from_slice(b"\"}")?;
    Ok(body)
}

fn put_followers(text: &mut Vec<u8>, caller: u8) -> Result<(), AllocError>
    ensures { OnOk result (text.new.items ≡ text.old.items ++ addressees 1 caller 0) }
{
    text.extend_from_slice(b"\"to\":[\"")?;
    put_id(text, caller)?;
    text.extend_from_slice(b"/followers\"]")
}

fn put_unseen(text: &mut Vec<u8>, other: u8) -> Result<(), AllocError>
    ensures { OnOk result (text.new.items ≡ text.old.items ++ addressees 2 0 other) }
{
    text.extend_from_slice(b"\"bcc\":[\"")?;
    put_id(text, other)?;
    text.extend_from_slice(b"\"]")
}

fn put_addressees(text: &mut Vec<u8>, way: u64, caller: u8, other: u8) -> Result<(), AllocError>
    ensures { OnOk result (text.new.items ≡ text.old.items ++ addressees way caller other) }
{
    match way {
        0 => text.extend_from_slice(b"\"to\":[\"Public\"]"),
        1 => put_followers(text, caller),
        2 => put_unseen(text, other),
        _ => text.extend_from_slice(b"\"cc\":[\"https://far.example/users/x\"]"),
    }
}

fn note_body(
    alloc: Global,
    number: u64,
    way: u64,
    caller: u8,
    other: u8,
) -> Result<Vec<u8>, AllocError>
    ensures { IfOk result (λ body. body.items ≡ note_body number way caller other) }
{
    let mut body = Vec::with_capacity(alloc, ROOM)?;
    body.extend_from_slice(b"{\"type\":\"Note\",\"content\":\"note ")?;
    put_number(&mut body, number)?;
    body.extend_from_slice(b"\",")?;
    put_addressees(&mut body, way, caller, other)?;
    body.extend_from_slice(b"}")?;
    Ok(body)
}

fn end_body(alloc: Global, d: u64, caller: u8, other: u8) -> Result<Vec<u8>, AllocError>
    ensures { IfOk result (λ body. body.items ≡ end_body d caller other) }
{
    if d % 8 == 0 {
        let id = member_id(alloc, other)?;
        activity_body(alloc, "Block", &id)
    } else {
        let id = activity_id(alloc, caller, d % 40 + 1)?;
        activity_body(alloc, "Undo", &id)
    }
}

fn body_about_member(alloc: Global, kind: &str, other: u8) -> Result<Vec<u8>, AllocError>
    ensures { IfOk result (λ body. body.items ≡ activity_body kind.now (member_id other)) }
{
    let id = member_id(alloc, other)?;
    activity_body(alloc, kind, &id)
}

fn body_about_object(
    alloc: Global,
    kind: &str,
    other: u8,
    number: u64,
) -> Result<Vec<u8>, AllocError>
    ensures { IfOk result (λ body. body.items ≡ activity_body kind.now (object_id other number)) }
{
    let id = object_id(alloc, other, number)?;
    activity_body(alloc, kind, &id)
}

fn body_by(
    alloc: Global,
    number: u64,
    lot: u64,
    d: u64,
    caller: u8,
    other: u8,
) -> Result<Option<Vec<u8>>, AllocError>
    ensures { IfOk result (λ body. option_map (λ bytes. bytes.items) body
        ≡ body_by number lot d caller other) }
{
    let body = match lot {
        0..=3 => note_body(alloc, number, d % 4, caller, other)?,
        4 | 5 => body_about_member(alloc, "Follow", other)?,
        6 => body_about_object(alloc, "Like", other, d % 40 + 1)?,
        7 => body_about_object(alloc, "Announce", other, d % 40 + 1)?,
        8 => end_body(alloc, d, caller, other)?,
        _ => return Ok(None),
    };
    Ok(Some(body))
}

// ---- requests

#[tactic(auto, unfolding(crate::specs::Requests::key_text))]
fn key_text(member: u8) -> [u8; 64]
    ensures { result ≡ key_text member }
{
    hex_text(&[member; 32])
}

#[tactic(auto, unfolding(crate::specs::Requests::before_key))]
fn put_before_key(text: &mut Vec<u8>) -> Result<(), AllocError>
    ensures { OnOk result (text.new.items ≡ text.old.items ++ before_key) }
{
    text.extend_from_slice(b" HTTP/1.1\r\nHost: town.example\r\nAuthorization: Bearer ")
}

#[tactic(auto, unfolding(crate::specs::Requests::common_fields))]
fn put_common_fields(text: &mut Vec<u8>, caller: u8) -> Result<(), AllocError>
    ensures { OnOk result (text.new.items ≡ text.old.items ++ common_fields caller) }
{
    let key = key_text(caller);
    put_before_key(text)?;
    text.extend_from_slice(&key)?;
    text.extend_from_slice(b"\r\n")
}

#[tactic(auto, unfolding(crate::specs::Requests::before_length))]
fn put_before_length(text: &mut Vec<u8>) -> Result<(), AllocError>
    ensures { OnOk result (text.new.items ≡ text.old.items ++ before_length) }
{
    text.extend_from_slice(b"Content-Type: application/activity+json\r\nContent-Length: ")
}

#[tactic(auto, unfolding(crate::specs::Requests::page_asked))]
fn put_page_asked(text: &mut Vec<u8>, other: u8) -> Result<(), AllocError>
    ensures { OnOk result (text.new.items ≡ text.old.items ++ page_asked other) }
{
    text.extend_from_slice(b"GET ")?;
    put_path(text, other)?;
    text.extend_from_slice(b"/outbox?page=0")
}

fn put_reading(text: &mut Vec<u8>, caller: u8, other: u8) -> Result<(), AllocError>
    ensures { OnOk result (text.new.items ≡ text.old.items ++ reading caller other) }
{
    put_page_asked(text, other)?;
    put_common_fields(text, caller)?;
    text.extend_from_slice(b"\r\n")
}

#[tactic(auto, unfolding(crate::specs::Requests::post_head))]
fn put_post_head(text: &mut Vec<u8>, caller: u8) -> Result<(), AllocError>
    ensures { OnOk result (text.new.items ≡ text.old.items ++ post_head caller) }
{
    text.extend_from_slice(b"POST ")?;
    put_path(text, caller)?;
    text.extend_from_slice(b"/outbox")?;
    put_common_fields(text, caller)
}

fn put_posting(text: &mut Vec<u8>, caller: u8, body: &[u8]) -> Result<(), AllocError>
    ensures { OnOk result (text.new.items ≡ text.old.items ++ posting caller body.now) }
{
    put_post_head(text, caller)?;
    put_before_length(text)?;
    put_number(text, body.len() as u64)?;
    text.extend_from_slice(b"\r\n\r\n")?;
    text.extend_from_slice(body)
}

#[tactic(auto, unfolding(crate::specs::Requests::request_text))]
fn put_request(alloc: Global, text: &mut Vec<u8>, number: u64, four: Four) -> Result<(), AllocError>
    ensures { OnOk result (text.new.items ≡ text.old.items ++ request_text number four) }
{
    let (caller, other) = ((four.a % 8) as u8, (four.b % 8) as u8);
    match body_by(alloc, number, four.c % 10, four.d, caller, other)? {
        None => put_reading(text, caller, other),
        Some(body) => put_posting(text, caller, &body),
    }
}

// The requests from number `first` on, `count` of them, with four draws for each. The error is out
// of memory.
fn requests(alloc: Global, draws: &mut Draws, first: u64, count: u64) -> Result<Vec<u8>, AllocError>
    requires { first + count < 2 ^ 32 }
    ensures text { IfOk result (λ text. text.items ≡ requests_text draws.old first count) }
    ensures state { OnOk result (draws.new ≡ state_after draws.old count) }
{
    let mut text = Vec::with_capacity(alloc, ROOM)?;
    let mut done = 0;
    'requests: while done < count {
        let four = draws.next_four();
        put_request(alloc, &mut text, first + done, four)?;
        done += 1;
    }
    Ok(text)
}

/// The requests on the two connections of the demonstration with this number, 1,000 on each. The
/// error is out of memory.
pub fn connections(alloc: Global, number: u16) -> Result<(Vec<u8>, Vec<u8>), AllocError>
    ensures first { IfOk result (λ halves. halves.0.items ≡ first_half number) }
    ensures second { IfOk result (λ halves. halves.1.items ≡ second_half number) }
{
    let mut draws = Draws::new(number);
    let first = requests(alloc, &mut draws, 0, 1000)?;
    let second = requests(alloc, &mut draws, 1000, 1000)?;
    Ok((first, second))
}
