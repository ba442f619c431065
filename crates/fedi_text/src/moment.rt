//! Moments.

ghost use Rattle.std.specs.Prelude.{◌≡◌, ◌<◌, ◌≤◌, ◌↔◌, min, IsSome, IfSome, IfOk};

use crate::text::Text;
use arrayvec::ArrayString;
use httpdate::HttpDate;
use jiff::civil::{self, DateTime};
use jiff::fmt::temporal::DateTimePrinter;
use std::alloc::{AllocError, Global};
use std::marker::Model;
use std::time::Duration;

/// The last second of the year 9999.
const LAST: u64 = 253_402_300_799;

/// A moment, in seconds since 1970 without leap seconds, to the end of the year 9999.
#[derive(Clone, Copy)]
pub struct Moment {
    seconds: u64,
}

impl Model for Moment {
    ghost use Rattle.std.specs.Prelude.{ℕ, ◌<◌};

    ghost Value = { ℕ };

    ghost view = { λ a. a.seconds };

    ghost invariant = { λ a. a.seconds < 253_402_300_800 };

    ghost inverse = { λ n. record { seconds = n } };
}

impl Moment {
    ghost use Rattle.fedi_text.specs.Clocks.{IsShownAs};
    ghost use Rattle.fedi_text.specs.Dates.{moment_text, http_date_text, parts_of};

    /// The moment this many seconds after 1970 began. `None` exactly if it is after the year 9999.
    pub fn new(seconds: u64) -> Option<Moment>
        ensures some { IsSome result ↔ (seconds ≤ 253_402_300_799) }
        ensures value { IfSome result (λ moment. moment ≡ seconds) }
    {
        if seconds <= LAST {
            Some(Moment { seconds })
        } else {
            None
        }
    }

    /// The moment this many seconds after 1970 began, or the last second of 9999 if that is
    /// earlier.
    pub fn clamped(seconds: u64) -> Moment
        ensures { result ≡ min seconds 253_402_300_799 }
    {
        Moment {
            seconds: seconds.min(LAST),
        }
    }

    /// The seconds since 1970: at most 253,402,300,799.
    pub fn seconds(self) -> u64
        ensures value { result ≡ self }
        ensures bound { result < 253_402_300_800 }
    {
        self.seconds
    }

    /// The moment as HTTP writes it: `Sun, 06 Nov 1994 08:49:37 GMT` (RFC 9110, section 5.6.7,
    /// IMF-fixdate).
    #[tactic(auto, using(crate::proofs::DateLemmas::date_text_of))]
    pub fn http_date(self) -> [u8; 29]
        ensures { result ≡ http_date_text self }
    {
        match HttpDate::from_unix_secs(self.seconds) {
            Ok(date) => date.to_bytes(),
            Err(_) => unreachable!(),
        }
    }

    /// The moment as RFC 3339 writes it (section 5.6), in UTC: `1994-11-06T08:49:37Z`.
    #[tactic(auto, using(crate::proofs::ClockLemmas::text_length))]
    pub fn text(self) -> [u8; 20]
        ensures { result ≡ moment_text self }
    {
        let mut text = [0; 20];
        text.copy_from_slice(self.printed().as_str().as_bytes());
        text
    }

    /// The text of [`Moment::text`]. The error is out of memory.
    pub fn to_text(self, alloc: Global) -> Result<Text, AllocError>
        ensures { IfOk result (λ text. text ≡ moment_text self) }
    {
        Text::from_text(alloc, self.printed().as_str())
    }

    /// What a clock in UTC shows. A civil time reaches to the end of the year 9999, where `jiff`'s
    /// timestamps end some hours earlier.
    fn shown(self) -> DateTime
        ensures { IsShownAs (parts_of self) result }
    {
        civil::datetime(1970, 1, 1, 0, 0, 0, 0) + Duration::from_secs(self.seconds)
    }

    /// What the clock shows, and that it is one in UTC.
    #[tactic(auto, using(crate::proofs::ClockLemmas::text_is))]
    fn printed(self) -> ArrayString<32>
        ensures { result.bytes ≡ moment_text self }
    {
        let mut text = DateTimePrinter::new().datetime_text(self.shown().to_plain());
        text.push('Z');
        text
    }
}
