//! The real outside: readers, writers, the clock and what keys are drawn from.

use fedi_adapters::{Reading, SystemClock, SystemEntropy, Writing};
use fedi_outside::{Clock, Entropy, Failed, Sink, Source};
use fedi_rows::expect;
use std::test::Fail;

/// What reads of two bytes each take of `abc`.
fn reads<S: Source>(source: &mut S) -> [Result<usize, Failed>; 3] {
    let mut into = [0; 2];
    [
        source.read(&mut into),
        source.read(&mut into),
        source.read(&mut into),
    ]
}

/// What writes of `abc`, of nothing and of `c` take.
fn writes<O: Sink>(sink: &mut O) -> [Result<usize, Failed>; 3] {
    [sink.write(b"abc"), sink.write(b""), sink.write(b"c")]
}

/// What two draws return, and the bytes that they give.
fn draws<E: Entropy>(
    entropy: &mut E,
) -> (Result<(), Failed>, Result<(), Failed>, [u8; 32], [u8; 32]) {
    let (mut first, mut second) = ([0; 32], [0; 32]);
    (
        entropy.fill(&mut first),
        entropy.fill(&mut second),
        first,
        second,
    )
}

/// Whether writes to a writer that has room for two bytes and then takes nothing fail in the end.
fn is_short() -> bool {
    let mut room = [0; 2];
    let short = writes(&mut Writing::new(room.as_mut_slice()));
    short == [Ok(2), Ok(0), Err(Failed)] && room == *b"ab"
}

fn is_drawn<E: Entropy>(entropy: &mut E) -> bool {
    let drawn = draws(entropy);
    drawn.0 == Ok(()) && drawn.1 == Ok(()) && drawn.2 != drawn.3
}

#[test]
fn the_outside_is_real(rt: HostRuntime) -> Result<(), Fail> {
    let read = reads(&mut Reading::new(b"abc".as_slice()));
    expect(read == [Ok(2), Ok(1), Ok(0)], "reads")?;
    let written = writes(&mut Writing::new(Vec::new(rt.alloc())));
    expect(written == [Ok(3), Ok(0), Ok(1)], "writes")?;
    expect(is_short(), "writes that fail")?;
    expect(SystemClock::new(&rt).now() > 784_111_777, "the clock")?;
    expect(is_drawn(&mut SystemEntropy::new(&rt)), "draws")
}
