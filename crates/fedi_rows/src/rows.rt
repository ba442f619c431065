//! What a row of a table requires.

use std::test::Fail;

/// Fails with the text of the row unless it holds.
pub fn expect(holds: bool, row: &str) -> Result<(), Fail> {
    if holds { Ok(()) } else { Err(Fail::new(row)) }
}

/// The same with a number: that of a row in its table, of a call or of a byte.
pub fn expect_at(holds: bool, row: &str, number: usize) -> Result<(), Fail> {
    if holds {
        Ok(())
    } else {
        Err(Fail::new(format_args!("{row} {number}")))
    }
}
