//! The error of the outside.
use thiserror::Error;

/// A read, a write, a fill or a call of a keeper failed, and the object has counted it. The count
/// saturates at 2^64 - 1.
#[derive(Clone, Copy, Debug, PartialEq, Eq, Error)]
#[error("the outside failed")]
pub struct Failed;
