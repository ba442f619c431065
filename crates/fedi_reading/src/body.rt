//! Bodies that are JSON.

ghost use Rattle.std.specs.Prelude.{◌≡◌, ◌≤◌, IfOk, IfErr};
ghost use Rattle.serde_json.specs.Data.{Data, depth};
ghost use Rattle.serde_json.specs.View.{view};
ghost use Rattle.fedi_reading.specs.Bodies.{IsBodyOf};

use serde_json::Value;
use std::alloc::Global;
use thiserror::Error;

/// Why a body is not read.
#[derive(Clone, Copy, Debug, PartialEq, Eq, Error)]
pub enum BodyFault {
    /// The bytes are not JSON in UTF-8, or the JSON is nested more than 127 levels deep.
    #[error("the body is no JSON in UTF-8, or it is nested more than 127 deep")]
    BadBody,
    /// Out of memory.
    #[error("out of memory")]
    Memory,
}

/// The value of a body that is JSON in UTF-8 (RFC 8259), nested at most 127 levels deep. The errors
/// are `BadBody`, if the bytes are not such JSON, and `Memory`, out of memory.
pub fn read_body(alloc: Global, bytes: &[u8]) -> Result<Value, BodyFault>
    ensures ok { IfOk result (λ value. IsBodyOf bytes.now (view value)) }
    ensures nests { IfOk result (λ value. depth (view value) ≤ 127) }
    ensures bad { IfErr result
        (λ e. e ≡ BodyFault.BadBody → (d : Data) → ¬ (IsBodyOf bytes.now d)) }
{
    match Value::from_slice(alloc, bytes) {
        Ok(value) => Ok(value),
        Err(fault) if fault.is_memory() => Err(BodyFault::Memory),
        Err(_) => Err(BodyFault::BadBody),
    }
}
