//! The numbers of a member's activities.

ghost use Rattle.std.specs.Prelude.{◌≡◌, ◌+◌, None, Some, nat_lt, if◌then◌else◌};

/// The most activities that a member may have: no further numbers are available.
pub const MOST_ACTIVITIES: u32 = 4_294_967_295;

/// The limit is part of the server's contract, and each journal that it has kept relies on it.
pub fn most_activities_are_fixed()
    ensures { MOST_ACTIVITIES ≡ 4294967295 }
{}

/// The number of the next activity of a member with this many, or `None` if no number is left.
pub fn next_number(count: u32) -> Option<u32>
    ensures { result ≡ (if nat_lt count 4294967295 then Some (count + 1) else None) }
{
    if count < MOST_ACTIVITIES {
        Some(count + 1)
    } else {
        None
    }
}
