//! A clock that advances, and what takes time by it.
ghost use Rattle.std.specs.Prelude.{None};

use fedi_outside::{Clock, Failed, Link, Source};
use std::sync::atomic::{AtomicU64, Ordering};

/// A clock that shows a second more each time that it is read. It reports no moment, and all copies
/// are one clock.
#[derive(Clone, Copy)]
pub struct Ticking<'a> {
    seconds: &'a AtomicU64,
}

impl<'a> Ticking<'a> {
    /// A clock whose next reading is this number.
    pub fn new(seconds: &'a AtomicU64) -> Self {
        Ticking { seconds }
    }
}

impl Clock for Ticking<'_> {
    ghost told = { λ _. None };

    fn now(&self) -> u64 {
        self.seconds.fetch_add(1, Ordering::SeqCst)
    }
}

/// A source or a link each of whose calls takes a second.
#[derive(Drop)]
pub struct Slow<'a, T> {
    pub inner: T,
    pub clock: Ticking<'a>,
}

impl<T: Source> Source for Slow<'_, T> {
    ghost left = { λ slow. T.left slow.inner };

    ghost read_faults = { λ slow. T.read_faults slow.inner };

    ghost beside_source = { λ slow. T.beside_source slow.inner };

    fn read(&mut self, into: &mut [u8]) -> Result<usize, Failed> {
        let _passed = self.clock.now();
        self.inner.read(into)
    }
}

impl<T: Link> Link for Slow<'_, T> {
    ghost asked = { λ slow. T.asked slow.inner };

    ghost heard = { λ slow. T.heard slow.inner };

    ghost link_faults = { λ slow. T.link_faults slow.inner };

    fn exchange(
        &mut self,
        address: &str,
        request: &[u8],
        into: &mut [u8],
    ) -> Result<usize, Failed> {
        let _passed = self.clock.now();
        self.inner.exchange(address, request, into)
    }
}
