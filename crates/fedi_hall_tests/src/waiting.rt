//! The order of those who wait in a line, of which no clause speaks.

use fedi_turn::Line;
use std::process::Abort;
use std::sync::Wait;
use std::sync::atomic::{AtomicU64, Ordering};
use std::thread;
use std::thread::Threads;
use std::time::{Clock, Duration};

// How many milliseconds there are between two callers that come to the line.
const PACE: u64 = 60;

// Comes to the line after those before it, and returns how many left the line before it. The first
// stays at the head until all others have come.
fn wait<R: Clock + Wait>(rt: &R, line: &Line, left: &AtomicU64, index: u64) -> u64 {
    thread::sleep(rt, Duration::from_millis(PACE * (index % 8)));
    line.enter(rt);
    if index == 0 {
        thread::sleep(rt, Duration::from_millis(PACE * 8));
    }
    let before = left.fetch_add(1, Ordering::SeqCst);
    line.leave(rt);
    before
}

fn wait_all<R: Abort + Clock + Threads + Wait + Sync>(rt: &R) {
    let (line, left) = (Line::new(), AtomicU64::new(0));
    let mut places = [9u64; 4];
    thread::for_each_mut(
        rt,
        &mut places,
        4,
        &|index, place: &mut u64| { *place = wait(rt, &line, &left, index as u64) },
    );
    assert_eq!(rt; places, [0, 1, 2, 3]);
}

#[test]
fn who_comes_first_leaves_a_line_first(rt: HostRuntime) {
    wait_all(&rt);
    // A line that everybody left is as a new one.
    wait_all(&rt);
}
