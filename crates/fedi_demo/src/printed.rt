//! What a demonstration prints.

ghost use Rattle.std.specs.Prelude.{◌≡◌, ◌+◌, ◌++◌, ◌<◌, ◌≤◌, ◌^◌, IfOk, OnOk, decimal, length};
ghost use Rattle.fedi_demo.specs.Summary.{all_status_counts, count_line, held_lines, status_at};
ghost use Rattle.fedi_demo.specs.Summary.{status_count, status_counts, statuses_in, summary_text};
ghost use Rattle.fedi_demo.specs.Summary.{three_digits, times, written_lines};

use fedi_mac::{digest, hex_text};
use itoa::Buffer;
use std::alloc::{AllocError, Global};

/// How much the store of a demonstration holds at the end.
#[derive(Clone, Copy)]
pub struct Held {
    /// The entries of its history.
    pub entries: u64,
    /// The activities.
    pub activities: u64,
    /// The deliveries that have not ended.
    pub queue: u64,
}

/// The room for the text.
const ROOM: usize = 512;

// ---- statuses

fn three_digits(bytes: &[u8]) -> Option<u32>
    ensures { result ≡ three_digits bytes.now }
{
    match bytes {
        [a, b, c, ..] => {
            let hundreds = u32::from(a.saturating_sub(b'0'));
            let tens = u32::from(b.saturating_sub(b'0'));
            let ones = u32::from(c.saturating_sub(b'0'));
            Some(100 * hundreds + 10 * tens + ones)
        }
        _ => None,
    }
}

#[tactic(auto, unfolding(crate::specs::Summary::status_at))]
fn status_at(bytes: &[u8]) -> Option<u32>
    ensures { result ≡ status_at bytes.now }
{
    if bytes.starts_with(b"HTTP/1.1 ") {
        three_digits(&bytes[9..])
    } else {
        None
    }
}

fn statuses_in(alloc: Global, bytes: &[u8]) -> Result<Vec<u32>, AllocError>
    ensures { IfOk result (λ statuses. statuses.items ≡ statuses_in bytes.now) }
{
    let mut statuses = Vec::new(alloc);
    let mut left = bytes;
    'bytes: while let Some((_, rest)) = left.split_first() {
        if let Some(status) = status_at(left) {
            statuses.push(status)?;
        }
        left = rest;
    }
    Ok(statuses)
}

fn times(status: u32, statuses: &[u32]) -> u64
    ensures { result ≡ times status statuses.now }
{
    let mut count = 0;
    let mut left = statuses;
    'statuses: while let Some((&first, rest)) = left.split_first() {
        if first == status {
            count += 1;
        }
        left = rest;
    }
    count
}

// ---- lines

#[tactic(auto, unfolding(crate::specs::Summary::count_line))]
fn put_count(text: &mut Vec<u8>, label: &[u8], count: u64) -> Result<(), AllocError>
    ensures { OnOk result (text.new.items ≡ text.old.items ++ count_line label.now count) }
{
    let mut digits = Buffer::new();
    text.extend_from_slice(label)?;
    text.push(b' ')?;
    text.extend_from_slice(digits.format(count).as_bytes())?;
    text.push(b'\n')?;
    Ok(())
}

#[tactic(auto, unfolding(crate::specs::Summary::status_count))]
fn put_status(text: &mut Vec<u8>, statuses: &[u32], status: u32) -> Result<(), AllocError>
    ensures { OnOk result (text.new.items ≡ text.old.items ++ status_count statuses.now status) }
{
    let count = times(status, statuses);
    if count == 0 {
        return Ok(());
    }
    let mut digits = Buffer::new();
    put_count(text, digits.format(status).as_bytes(), count)
}

// The lines of `count` statuses, from `first` on.
fn put_statuses_from(
    text: &mut Vec<u8>,
    statuses: &[u32],
    first: u32,
    count: u32,
) -> Result<(), AllocError>
    requires { first + count < 2 ^ 32 }
    ensures { OnOk result
        (text.new.items ≡ text.old.items ++ status_counts statuses.now first count) }
{
    let mut done = 0;
    'lines: while done < count {
        put_status(text, statuses, first + done)?;
        done += 1;
    }
    Ok(())
}

#[tactic(auto, unfolding(crate::specs::Summary::all_status_counts))]
fn put_statuses(text: &mut Vec<u8>, statuses: &[u32]) -> Result<(), AllocError>
    ensures { OnOk result
        (text.new.items ≡ text.old.items ++ all_status_counts statuses.now) }
{
    put_statuses_from(text, statuses, 100, 500)
}

#[tactic(auto, unfolding(crate::specs::Summary::held_lines))]
fn put_held(text: &mut Vec<u8>, held: Held) -> Result<(), AllocError>
    ensures { OnOk result (text.new.items ≡ text.old.items ++ held_lines held) }
{
    put_count(text, b"entries", held.entries)?;
    put_count(text, b"activities", held.activities)?;
    put_count(text, b"queue", held.queue)
}

#[tactic(auto, unfolding(crate::specs::Summary::written_lines))]
fn put_written(text: &mut Vec<u8>, written: &[u8]) -> Result<(), AllocError>
    ensures { OnOk result (text.new.items ≡ text.old.items ++ written_lines written.now) }
{
    put_count(text, b"bytes", written.len() as u64)?;
    text.extend_from_slice(b"sha256 ")?;
    text.extend_from_slice(&hex_text(&digest(written)))?;
    text.push(b'\n')?;
    Ok(())
}

/// What is printed about the demonstration with this number: its requests, how many replies had
/// each status, how much its store holds at the end, and the length and the digest of everything
/// that was written on its connections. The error is out of memory.
pub fn summary(
    alloc: Global,
    number: u16,
    held: Held,
    written: &[u8],
) -> Result<Vec<u8>, AllocError>
    ensures { IfOk result (λ text. text.items ≡ summary_text number held written.now) }
{
    let statuses = statuses_in(alloc, written)?;
    let mut text = Vec::with_capacity(alloc, ROOM)?;
    put_count(&mut text, b"demo", u64::from(number))?;
    put_count(&mut text, b"requests", 2000)?;
    put_statuses(&mut text, &statuses)?;
    put_held(&mut text, held)?;
    put_written(&mut text, written)?;
    Ok(text)
}
