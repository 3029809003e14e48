//! Numbers by their decimal texts.
ghost use Rattle.std.specs.Prelude.{◌≡◌, ◌≢◌, ◌∷◌, get_or};
ghost use Rattle.stow_model.specs.NumberText.{number_of};
ghost use Rattle.stow_commands.specs.Numbers.{IsMagnitude};

/// Digits of the longest number of 64 bits.
const DIGITS_LIMIT: usize = 19;

/// The number of 64 bits whose decimal text this is: without a plus sign, a leading zero, or a sign before 0.
pub(crate) fn number(text: &[u8]) -> Option<i64>
    ensures { result ≡ number_of text.now }
{
    let Some((first, digits)) = text.split_first() else {
        return None;
    };
    if *first == b'-' {
        below_zero(digits)
    } else {
        from_zero(text)
    }
}

/// The number below 0 whose digits these are.
fn below_zero(digits: &[u8]) -> Option<i64>
    ensures { result ≡ number_of (45 ∷ digits.now) }
{
    let n = magnitude(digits)?;
    if n == 0 {
        return None;
    }
    if n - 1 > i64::MAX as u64 {
        return None;
    }
    Some(-1 - (n - 1) as i64)
}

/// The number from 0 on whose text this is.
fn from_zero(text: &[u8]) -> Option<i64>
    requires { get_or text.now 0 0 ≢ 45 }
    ensures { result ≡ number_of text.now }
{
    let n = magnitude(text)?;
    if n > i64::MAX as u64 {
        return None;
    }
    Some(n as i64)
}

/// The number of up to 19 digits whose decimal text this is, without a leading zero.
pub fn magnitude(digits: &[u8]) -> Option<u64>
    ensures { IsMagnitude digits.now result }
{
    if digits.is_empty() || digits.len() > DIGITS_LIMIT {
        return None;
    }
    if digits[0] == b'0' && digits.len() > 1 {
        return None;
    }
    let mut value: u64 = 0;
    for digit in digits {
        if *digit < b'0' || *digit > b'9' {
            return None;
        }
        value = value * 10 + u64::from(*digit - b'0');
    }
    Some(value)
}
