//! Addresses as the rules of the URL Standard give them, worked by hand.

use fedi_address::{Host, HostFault, Iri, IriFault, LocalName};
use fedi_rows::expect;
use std::alloc::{AllocError, Global};
use std::str;
use std::test::Fail;

// An address, and the text, the host and the target that are read from it.
const IRIS: [(&str, &str, &str, &str); 4] = [
    (
        "HTTPS://Club.Example:443/a/../b?x#y",
        "https://club.example/b?x#y",
        "club.example",
        "/b?x",
    ),
    (
        "http://EXAMPLE.com",
        "http://example.com/",
        "example.com",
        "/",
    ),
    (
        " https://ann:pw@h.example:8443/p q ",
        "https://ann:pw@h.example:8443/p%20q",
        "h.example:8443",
        "/p%20q",
    ),
    (
        "http://0x7f.1/?@/#/@",
        "http://127.0.0.1/?@/#/@",
        "127.0.0.1",
        "/?@/",
    ),
];

// Texts that are refused as addresses.
const NO_IRIS: [&str; 5] = [
    "",
    "club",
    "ftp://club.example/",
    "https://",
    "https://a b/",
];

fn expect_iri(alloc: Global, row: &(&str, &str, &str, &str)) -> Result<(), Fail> {
    let iri = Iri::parse(alloc, row.0)?;
    let is_same = iri.text() == row.1 && iri.host() == row.2 && iri.target() == row.3;
    expect(is_same, row.0)
}

// Why an address is refused, if it is.
fn fault_of(alloc: Global, text: &str) -> Option<IriFault> {
    let read = Iri::parse(alloc, text);
    match &read {
        Ok(_) => None,
        Err(fault) => Some(*fault),
    }
}

// Why an address of this many bytes is refused, if it is.
fn fault_of_length(alloc: Global, length: usize) -> Result<Option<IriFault>, AllocError> {
    let mut text = "https://h/".as_bytes().to_vec(alloc)?;
    text.resize(length, b'a')?;
    Ok(
        str::from_utf8(&text)
            .ok()
            .and_then(|text| fault_of(alloc, text)),
    )
}

#[test]
fn iris_are_read_in_their_normal_form(rt: HostRuntime) -> Result<(), Fail> {
    let alloc = rt.alloc();
    for row in &IRIS {
        expect_iri(alloc, row)?;
    }
    for text in &NO_IRIS {
        expect(fault_of(alloc, text) == Some(IriFault::NotIri), text)?;
    }
    let longest = fault_of_length(rt.alloc(), Iri::LONGEST)?;
    let longer = fault_of_length(rt.alloc(), Iri::LONGEST + 1)?;
    expect(longest.is_none(), "the longest")?;
    expect(longer == Some(IriFault::TooLong), "one longer")
}

// Hosts, and texts that are not hosts.
const HOSTS: [&str; 3] = ["club.example:8443", "127.0.0.1", "xn--bcher-kva.example"];

const NO_HOSTS: [&str; 6] = [
    "",
    "Club.example",
    "club.example:443",
    "1.2.3",
    "a/b",
    "b\u{fc}cher.example",
];

// A text, and whether it is a valid name of a member.
const NAMES: [(&str, bool); 7] = [
    ("a", true),
    ("ann_2", true),
    ("abcdefghijklmnopqrstuvwxyz0123", true),
    ("", false),
    ("Ann", false),
    ("a.b", false),
    ("abcdefghijklmnopqrstuvwxyz01234", false),
];

// Whether the host is that of an address with a path on it.
fn is_host(alloc: Global, host: &Host, text: &str) -> Result<bool, AllocError> {
    let iri = Iri::at(alloc, host, "/users/ann/a/7")?;
    Ok(host.text() == text && iri.host() == text && iri.target() == "/users/ann/a/7")
}

fn expect_host(alloc: Global, text: &str) -> Result<(), Fail> {
    let host = Host::parse(alloc, text)?;
    expect(is_host(alloc, &host, text)?, text)
}

fn is_bad_host(alloc: Global, text: &str) -> bool {
    let read = Host::parse(alloc, text);
    matches!(&read, Err(HostFault::BadHost))
}

fn is_name(text: &str) -> bool {
    LocalName::parse(text).is_some_and(|name| name.text() == text)
}

#[test]
fn hosts_and_names_are_read(rt: HostRuntime) -> Result<(), Fail> {
    for text in &HOSTS {
        expect_host(rt.alloc(), text)?;
    }
    for text in &NO_HOSTS {
        expect(is_bad_host(rt.alloc(), text), text)?;
    }
    for (text, wanted) in &NAMES {
        expect(is_name(text) == *wanted, text)?;
    }
    Ok(())
}
