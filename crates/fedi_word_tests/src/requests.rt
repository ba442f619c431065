//! Requests as clients write them, and a reply as clients read it.

use fedi_http::{Arrived, Buffer, read_request, reply_bytes};
use fedi_model::{Refusal, Request, refusal_reply};
use fedi_outside::MemorySource;
use fedi_rows::expect;
use fedi_text::Moment;
use std::alloc::{AllocError, Global};
use std::test::Fail;

const REFUSAL: &str = "\
    HTTP/1.1 401 Unauthorized\r\n\
    Date: Sun, 06 Nov 1994 08:49:37 GMT\r\n\
    WWW-Authenticate: Bearer\r\n\
    Content-Type: application/json\r\n\
    Content-Length: 20\r\n\
    Connection: close\r\n\r\n\
    {\"error\":\"WrongKey\"}";

fn refusal_text(alloc: Global) -> Result<Vec<u8>, AllocError> {
    let reply = refusal_reply(Refusal::WrongKey);
    reply_bytes(alloc, &reply, Moment::clamped(784_111_777), false, true)
}

// Appends the target and the body.
fn push_request(text: &mut Vec<u8>, request: &Request, body: &[u8]) -> Result<(), AllocError> {
    text.extend_from_slice(request.target.bytes())?;
    text.extend_from_slice(b" ")?;
    text.extend_from_slice(body)?;
    text.extend_from_slice(b"; ")
}

// Appends what arrived, and says whether to go on.
fn push_arrived(text: &mut Vec<u8>, arrived: &Arrived, body: &[u8]) -> Result<bool, AllocError> {
    let last: &[u8] = match arrived {
        Arrived::Request(request) => {
            push_request(text, request, body)?;
            return Ok(true);
        }
        Arrived::End => b"End",
        Arrived::CutShort => b"CutShort",
        Arrived::Refused(refusal) => name_of(*refusal),
        Arrived::ReadFault => b"ReadFault",
        Arrived::Memory => b"Memory",
    };
    text.extend_from_slice(last)?;
    Ok(false)
}

// Appends the next request, or why there is no next one, and says whether to go on.
fn push_next(
    alloc: Global,
    source: &mut MemorySource,
    buffer: &mut Buffer,
    text: &mut Vec<u8>,
) -> Result<bool, AllocError> {
    let arrived = read_request(alloc, source, buffer);
    push_arrived(text, &arrived, buffer.body())
}

/// The names of the refusals of a request that is not read completely.
fn name_of(refusal: Refusal) -> &'static [u8] {
    match refusal {
        Refusal::BadHead => b"BadHead",
        Refusal::HeadTooLong => b"HeadTooLong",
        Refusal::TooLong => b"TooLong",
        _ => b"Refused",
    }
}

// Appends the targets and the bodies of the requests that arrive, and why no more arrive.
fn push_arrivals(
    alloc: Global,
    source: &mut MemorySource,
    buffer: &mut Buffer,
    text: &mut Vec<u8>,
) -> Result<(), AllocError> {
    for _ in 0..9 {
        if !push_next(alloc, source, buffer, text)? {
            break;
        }
    }
    Ok(())
}

/// How the bytes come: the first piece has this many, and the others have this size, or one has all
/// the rest. This read fails.
#[derive(Clone, Copy)]
struct Cutting {
    first: usize,
    others: Option<usize>,
    fails: u64,
}

/// Pieces of this size, and no read fails.
fn pieces_of(size: usize) -> Cutting {
    Cutting {
        first: size,
        others: Some(size),
        fails: u64::MAX,
    }
}

fn push_pieces(pieces: &mut Vec<usize>, length: usize, cutting: Cutting) -> Result<(), AllocError> {
    pieces.push(cutting.first)?;
    match cutting.others {
        Some(size) => pieces.resize(length.saturating_add(1), size),
        None => Ok(()),
    }
}

// A source of these bytes, if they come this way.
fn source_of(alloc: Global, bytes: &[u8], cutting: Cutting) -> Result<MemorySource, AllocError> {
    let mut pieces = Vec::new(alloc);
    push_pieces(&mut pieces, bytes.len(), cutting)?;
    let failing = [cutting.fails].to_vec(alloc)?;
    let source = MemorySource::new(alloc, bytes.to_vec(alloc)?);
    Ok(source.cut(pieces).failing(failing))
}

// What arrives of these bytes, if they come this way.
fn arrivals_of(alloc: Global, bytes: &[u8], cutting: Cutting) -> Result<Vec<u8>, AllocError> {
    let mut source = source_of(alloc, bytes, cutting)?;
    let mut buffer = Buffer::new(alloc);
    let mut text = Vec::new(alloc);
    push_arrivals(alloc, &mut source, &mut buffer, &mut text)?;
    Ok(text)
}

fn expect_arrivals(
    alloc: Global,
    bytes: &str,
    cutting: Cutting,
    wanted: &[u8],
) -> Result<(), Fail> {
    let found = arrivals_of(alloc, bytes.as_bytes(), cutting)?;
    expect(found.as_slice() == wanted, bytes)
}

/// Bytes, and what arrives of them.
const STREAMS: [(&str, &str); 8] = [
    (
        "POST /a HTTP/1.1\nHost: a\nContent-Length: 5\n\nhelloGET /b HTTP/1.1\nHost: a\n\n",
        "/a hello; /b ; End",
    ),
    (
        "GET /a HTTP/1.1\nHost: a\nContent-Length: 3\n\n\n\n\n\nGET /b HTTP/1.1\nHost: a\n\nG",
        "/a \n\n\n; /b ; CutShort",
    ),
    ("GET / HTTP/1.1\nHost: a\n\nGET /\n\nx", "/ ; BadHead"),
    // Bodies in chunks, with extensions and trailers, and what follows them (RFC 9112, section
    // 7.1).
    (
        "PUT /a HTTP/1.1\nHost: a\nTransfer-Encoding: chunked\n\n3;x\r\nabc\r\n0A \t;y=\"z\"\r\n\
         0123456789\r\n0;z\r\nA: b\r\nC:d\n\nGET /b HTTP/1.0\n\n",
        "/a abc0123456789; /b ; End",
    ),
    (
        "PUT /a HTTP/1.1\nHost: a\nTransfer-Encoding: chunked\n\n2\r\n\r\n\r\n1\r\nb\r\n00\r\n\n\
         GET /b HTTP/1.0\n\n",
        "/a \r\nb; /b ; End",
    ),
    (
        "PUT /a HTTP/1.1\nHost: a\nTransfer-Encoding: chunked\n\n0\r\nGET /b HTTP/1.0\r\n\r\n\
         GET /c HTTP/1.0\r\n\r\n",
        "/a ; /c ; End",
    ),
    (
        "PUT /a HTTP/1.1\nHost: a\nTransfer-Encoding: chunked\n\n3\r\nabc\rx",
        "BadHead",
    ),
    (
        "PUT /a HTTP/1.1\nHost: a\nTransfer-Encoding: chunked\n\n1\r\na\r\n40000\r\n",
        "TooLong",
    ),
];

// Whether that arrives in pieces of this size, and if the bytes are cut in two there.
fn expect_in_pieces(alloc: Global, row: &(&str, &str), size: usize) -> Result<(), Fail> {
    let wanted = row.1.as_bytes();
    let pieces = pieces_of(size);
    expect_arrivals(alloc, row.0, pieces, wanted)?;
    let in_two = Cutting {
        others: None,
        ..pieces
    };
    expect_arrivals(alloc, row.0, in_two, wanted)
}

/// Two requests, the second of them in chunks.
const TWO: &str = "\
    POST /a HTTP/1.1\n\
    Host: a\n\
    Content-Length: 2\n\n\
    hiPOST /b HTTP/1.1\n\
    Host: a\n\
    Transfer-Encoding: chunked\n\n\
    2;x\r\n\
    ho\r\n\
    0\r\n\
    A: b\r\n\r\n";

/// What arrives of them up to the read of one byte that fails.
fn wanted_up_to(fails: usize) -> &'static [u8] {
    if fails < 46 {
        b"ReadFault"
    } else {
        b"/a hi; ReadFault"
    }
}

#[test]
fn requests_arrive_in_any_pieces_until_a_read_fails(rt: HostRuntime) -> Result<(), Fail> {
    let text = refusal_text(rt.alloc())?;
    expect(text.as_slice() == REFUSAL.as_bytes(), REFUSAL)?;
    for row in &STREAMS {
        for size in 1..row.0.len() + 2 {
            expect_in_pieces(rt.alloc(), row, size)?;
        }
    }
    for fails in 0..TWO.len() {
        let cutting = Cutting {
            fails: fails as u64,
            ..pieces_of(1)
        };
        expect_arrivals(rt.alloc(), TWO, cutting, wanted_up_to(fails))?;
    }
    Ok(())
}
