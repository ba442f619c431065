ghost use Rattle.std.specs.Prelude.{◌≡◌, ◌<◌, All, IfSome, vec_len};
ghost use Rattle.fedi_turn.specs.Turn.{seats_of, IsIdle};

use crate::tally::{Tally, turn};
use fedi_turn::{Grows, Pass, TurnLock};
use std::alloc::Global;
use std::process::Abort;
use std::sync::atomic::{AtomicU64, Ordering};
use std::sync::{Arc, Wait};
use std::test::Fail;
use std::thread;
use std::thread::Threads;
use std::time::{Clock, Duration};

const TURNS: u64 = 5000;

fn turns<R: Wait>(rt: &R, lock: &TurnLock<Tally>, pass: &mut Pass<u64>, times: u64)
    requires { IsIdle ⟦<Tally as Grows>⟧ lock.now pass.old }
    ensures { IsIdle ⟦<Tally as Grows>⟧ lock.now pass.new }
{
    for _ in 0..times {
        turn(rt, lock, pass);
    }
}

// Each pass takes as many turns, in a thread of its own.
fn all_turns<R: Threads + Wait + Sync>(
    rt: &R,
    lock: &TurnLock<Tally>,
    mut passes: Vec<Pass<u64>>,
    times: u64,
) -> Vec<Pass<u64>>
    requires { All (IsIdle ⟦<Tally as Grows>⟧ lock.now) passes.items }
    ensures idle { All (IsIdle ⟦<Tally as Grows>⟧ lock.now) result.items }
    ensures len { vec_len result ≡ vec_len passes }
{
    thread::for_each_mut(rt, &mut passes, 4, &|_, pass| turns(rt, lock, pass, times));
    passes
}

// A lock around an empty tally that shares the token.
fn new_lock(
    alloc: Global,
    token: &Arc<u8, Global>,
    seats: u64,
) -> Option<(TurnLock<Tally>, Vec<Pass<u64>>)>
    requires { 0 < seats }
    ensures idle { IfSome result (λ r. All (IsIdle ⟦<Tally as Grows>⟧ r.0) r.1.items) }
    ensures seats { IfSome result (λ r. (seats_of r.0 ≡ seats) × (vec_len r.1 ≡ seats)) }
{
    let tally = Tally {
        marks: Vec::new(alloc),
        label: 7,
        token: Arc::try_clone(token).ok()?,
    };
    TurnLock::new(alloc, tally, seats).ok()
}

fn race<R: Abort + Threads + Wait + Sync>(rt: &R, alloc: Global, seats: u64) -> Result<(), Fail>
    requires { 0 < seats }
{
    let token = Arc::new(alloc, 0u8)?;
    let Some((lock, passes)) = new_lock(alloc, &token, seats) else {
        panic!(rt; "out of memory")
    };
    let passes = all_turns(rt, &lock, passes, TURNS);
    let Ok(tally) = lock.close(rt, passes) else {
        panic!(rt; "all passes were there")
    };
    for by in 0..seats {
        assert_eq!(rt; tally.count(by), TURNS, "of pass {by}");
    }
    assert!(rt; tally.count(seats) == 0 && tally.label == 7);
    Ok(())
}

#[test]
fn each_turn_of_two_and_of_four_threads_adds_its_mark(rt: HostRuntime) -> Result<(), Fail> {
    race(&rt, rt.alloc(), 2)?;
    race(&rt, rt.alloc(), 4)
}

// Fails if nothing ended within fifty seconds.
fn watch<R: Abort + Clock>(rt: &R, ended: &AtomicU64) {
    for _ in 0..5000u32 {
        if ended.load(Ordering::SeqCst) != 0 {
            return;
        }
        thread::sleep(rt, Duration::from_millis(10));
    }
    panic!(rt; "the value did not come back")
}

// No clause says that `give` hands the value back. If it did not, a later `take` would not return.
#[test]
fn a_value_that_was_given_can_be_taken_again(rt: HostRuntime) -> Result<(), Fail> {
    let token = Arc::new(rt.alloc(), 0u8)?;
    let Some((lock, passes)) = new_lock(rt.alloc(), &token, 1) else {
        panic!(rt; "out of memory")
    };
    let ended = AtomicU64::new(0);
    let (shared, over, again) = (&lock, &ended, &rt);
    thread::join(
        &rt,
        move || {
            all_turns(again, shared, passes, 2);
            over.store(1, Ordering::SeqCst);
        },
        move || watch(again, over),
    );
    Ok(())
}

#[test]
fn too_few_passes_come_back_and_then_all_close(rt: HostRuntime) -> Result<(), Fail> {
    let token = Arc::new(rt.alloc(), 0u8)?;
    let Some((lock, passes)) = new_lock(rt.alloc(), &token, 2) else {
        panic!(rt; "out of memory")
    };
    let mut passes = all_turns(&rt, &lock, passes, 1);
    let Some(last) = passes.pop() else {
        panic!(rt; "no pass")
    };
    let Err((lock, mut passes)) = lock.close(&rt, passes) else {
        panic!(rt; "closed with one of two passes")
    };
    assert!(rt; Arc::strong_count(&token) == 2 && passes.len() == 1);
    passes.push(last)?;
    let Ok(tally) = lock.close(&rt, passes) else {
        panic!(rt; "all passes were there")
    };
    assert!(rt; tally.marks.len() == 2 && Arc::strong_count(&token) == 2);
    Ok(())
}

#[test]
fn dropping_an_idle_lock_drops_the_value_once(rt: HostRuntime) -> Result<(), Fail> {
    for (times, lock_first) in [(0u64, true), (0, false), (3, true), (3, false)] {
        let token = Arc::new(rt.alloc(), 0u8)?;
        let Some((lock, passes)) = new_lock(rt.alloc(), &token, 2) else {
            panic!(rt; "out of memory")
        };
        let passes = all_turns(&rt, &lock, passes, times);
        if lock_first {
            drop(lock);
            assert!(rt; Arc::strong_count(&token) == 1 && passes.len() == 2);
        } else {
            drop(passes);
            assert!(rt; Arc::strong_count(&token) == 2);
            drop(lock);
        }
        assert!(rt; Arc::strong_count(&token) == 1);
    }
    Ok(())
}
