//! A sink in memory that is given room beforehand. What the doubles in memory do otherwise, their
//! contracts say, since they report all that they hold.

use fedi_outside::{MemorySink, Sink};
use fedi_rows::expect;
use std::alloc::Global;
use std::test::Fail;

// What is written of each text in turn: how many of its bytes, or 9 if the write failed.
fn counts<S: Sink>(sink: &mut S, texts: [&[u8]; 4]) -> [usize; 4] {
    texts.map(|text| sink.write(text).unwrap_or(9))
}

fn expect_taken(alloc: Global) -> Result<(), Fail> {
    let failing = [1].to_vec(alloc)?;
    let mut sink = MemorySink::new(alloc)
        .limited(2)
        .failing(failing)
        .with_room(4)?;
    let counts = counts(&mut sink, [b"abc", b"c", b"c", b""]);
    expect(
        counts == [2, 9, 1, 0] && sink.bytes() == b"abc".as_slice(),
        "the writes of a sink",
    )
}

#[test]
fn a_sink_with_room_takes_what_it_is_told_to(rt: HostRuntime) -> Result<(), Fail> {
    expect_taken(rt.alloc())
}
