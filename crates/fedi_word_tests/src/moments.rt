//! The texts of moments, as other software writes them.

use fedi_rows::expect;
use fedi_text::Moment;
use std::alloc::{AllocError, Global};
use std::test::Fail;

// Seconds since 1970, and the texts that other software writes for them.
const MOMENTS: [(u64, &str, &str); 7] = [
    (0, "1970-01-01T00:00:00Z", "Thu, 01 Jan 1970 00:00:00 GMT"),
    (
        68_169_600,
        "1972-02-29T00:00:00Z",
        "Tue, 29 Feb 1972 00:00:00 GMT",
    ),
    (
        784_111_777,
        "1994-11-06T08:49:37Z",
        "Sun, 06 Nov 1994 08:49:37 GMT",
    ),
    (
        951_868_800,
        "2000-03-01T00:00:00Z",
        "Wed, 01 Mar 2000 00:00:00 GMT",
    ),
    (
        4_107_542_399,
        "2100-02-28T23:59:59Z",
        "Sun, 28 Feb 2100 23:59:59 GMT",
    ),
    (
        4_107_542_400,
        "2100-03-01T00:00:00Z",
        "Mon, 01 Mar 2100 00:00:00 GMT",
    ),
    (
        253_402_300_799,
        "9999-12-31T23:59:59Z",
        "Fri, 31 Dec 9999 23:59:59 GMT",
    ),
];

fn has_texts(alloc: Global, moment: Moment, row: &(u64, &str, &str)) -> Result<bool, AllocError> {
    let text = moment.to_text(alloc)?;
    Ok(text.text() == row.1 && moment.http_date().as_slice() == row.2.as_bytes())
}

#[test]
fn moments_have_the_texts_of_the_calendar(rt: HostRuntime) -> Result<(), Fail> {
    for row in &MOMENTS {
        let moment = Moment::new(row.0).ok_or("past the year 9999")?;
        expect(has_texts(rt.alloc(), moment, row)?, row.1)?;
    }
    Ok(())
}
