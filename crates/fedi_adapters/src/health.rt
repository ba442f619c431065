//! Whether a file takes what is written to it.

use std::sync::atomic::{AtomicBool, Ordering};

/// Whether the last write or sync of a file failed. The file notes it, and doors look at it.
#[derive(Drop)]
pub struct Health {
    failing: AtomicBool,
}

impl Health {
    /// Nothing has failed yet.
    pub fn new() -> Self {
        Health {
            failing: AtomicBool::new(false),
        }
    }

    pub(crate) fn is_failing(&self) -> bool {
        self.failing.load(Ordering::Relaxed)
    }

    pub(crate) fn note(&self, failed: bool) {
        self.failing.store(failed, Ordering::Relaxed);
    }
}
