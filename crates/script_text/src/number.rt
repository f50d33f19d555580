//! Decimal numbers as scripts and command lines spell them.
ghost use Rattle.std.specs.Prelude.{◌≡◌};
ghost use Rattle.script_text.specs.Number.{number};

/// The most digits of a number.
const MOST_DIGITS: usize = 20;

/// The number that 1 to 20 decimal digits spell, where it is below 2^64.
pub fn read_number(digits: &[u8]) -> Option<u64>
    ensures { result ≡ number digits.now }
{
    if digits.is_empty() || digits.len() > MOST_DIGITS {
        return None;
    }
    let mut value = 0u64;
    for digit in digits {
        if !digit.is_ascii_digit() {
            return None;
        }
        value = value
            .checked_mul(10)?
            .checked_add(u64::from(*digit - b'0'))?;
    }
    Some(value)
}
