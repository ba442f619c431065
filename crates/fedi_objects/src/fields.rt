//! Setting the fields of objects and activities.

ghost use Rattle.std.specs.Prelude.{◌≡◌, OnOk};

use std::alloc::AllocError;

/// Puts a value in a field and drops the old one.
pub fn set<T: Drop>(field: &mut T, value: T)
    ensures { field.new ≡ value }
{
    *field = value;
}

/// Puts a copy of a value that may be absent in a field. `Option::clone` gives its result case by
/// case; this function says that the two are equal, and a copy of many fields is proved from that.
/// The error is out of memory.
pub(crate) fn copy_option<T: Clone + Drop>(
    field: &mut Option<T>,
    value: &Option<T>,
) -> Result<(), AllocError>
    requires { (x y : T) → T.is_clone x y → y ≡ x }
    ensures { OnOk result (field.new ≡ value.now) }
{
    *field = match value {
        None => None,
        Some(value) => Some(value.clone()?),
    };
    Ok(())
}
