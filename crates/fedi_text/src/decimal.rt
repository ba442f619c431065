//! Decimal numbers.

ghost use Rattle.std.specs.Prelude.{◌≡◌, ◌↔◌, true, IsTrue, IsSome, IfSome};
ghost use Rattle.std.specs.Char.{is_ascii_digit};
ghost use Rattle.std.specs.List.{list_all};
ghost use Rattle.std.specs.Str.Parse.{digits_value};
ghost use Rattle.fedi_text.specs.Decimals as decimals;
ghost use Rattle.fedi_text.specs.Decimals.{is_decimal};

/// The most digits of a number that is read.
const MOST_DIGITS: usize = 19;

/// The number that these digits write. `None` exactly if the text is not 1 to 19 decimal digits
/// (DIGIT of RFC 5234, appendix B.1). Leading zeros are allowed; signs and blanks are not.
pub fn read_decimal(text: &[u8]) -> Option<u64>
    ensures some { IsSome result ↔ IsTrue (is_decimal text.now) }
    ensures value { IfSome result (λ number. number ≡ digits_value 10 text.now) }
{
    if is_decimal(text) {
        Some(number_of(text))
    } else {
        None
    }
}

/// Whether the text is 1 to 19 digits, and nothing else.
fn is_decimal(text: &[u8]) -> bool
    ensures { result ≡ decimals.is_decimal text.now }
{
    1 <= text.len() && text.len() <= MOST_DIGITS && has_digits_alone(text)
}

/// Whether each byte is a decimal digit.
fn has_digits_alone(text: &[u8]) -> bool
    ensures { result ≡ list_all is_ascii_digit text.now }
{
    text.iter().all(|byte| byte.is_ascii_digit())
}

/// The number that the digits write.
fn number_of(digits: &[u8]) -> u64
    requires { decimals.is_decimal digits.now ≡ true }
    ensures { result ≡ digits_value 10 digits.now }
{
    let mut number = 0;
    for digit in digits {
        number = number * 10 + u64::from(*digit - b'0');
    }
    number
}
