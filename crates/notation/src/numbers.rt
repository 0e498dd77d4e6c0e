// Numbers and booleans, read from the units of a field.
ghost use Rattle.std.specs.Prelude.{◌≡◌, ◌≤◌, true, Ok};
ghost use Rattle.std.specs.Option.{SomeIff};
ghost use Rattle.units.specs.Units.{units};
ghost use Rattle.notation.specs.Numbers.{digit, digits, decimal, unsigned_of, signed_of, positive, negative, boolean_of};

use super::mistakes::Mistake;
use units::{Units, spells};

fn is_digit(unit: u16) -> bool
    ensures { result ≡ digit unit }
{
    matches!(unit, 0x30..=0x39)
}

// One digit or more, and nothing else.
fn is_number(text: &[u8]) -> bool
    ensures { result ≡ digits (units text.now) }
{
    Units::of(text).all(is_digit)
}

// The number that digits spell, if it is below 2^64.
fn value_of_digits(text: &[u8]) -> Option<u64>
    requires { digits (units text.now) ≡ true }
    ensures { SomeIff result (decimal 0 (units text.now) ≤ 18446744073709551615) (decimal 0 (units text.now)) }
{
    let mut n: u64 = 0;
    for unit in Units::of(text) {
        n = n.checked_mul(10)?.checked_add(u64::from(unit - 0x30))?;
    }
    Some(n)
}

// A decimal number from 0 to 2^64 - 1.
pub fn unsigned(text: &[u8]) -> Result<u64, Mistake>
    ensures { result ≡ unsigned_of (units text.now) }
{
    if text.len() < 2 || !is_number(text) {
        return Err(Mistake::NotANumber);
    }
    value_of_digits(text).ok_or(Mistake::NumberOutOfRange)
}

fn above_zero(size: u64) -> Result<i64, Mistake>
    ensures { result ≡ positive (Ok size) }
{
    i64::try_from(size).map_err(|_| Mistake::NumberOutOfRange)
}

fn below_zero(size: u64) -> Result<i64, Mistake>
    ensures { result ≡ negative (Ok size) }
{
    0i64.checked_sub_unsigned(size)
        .ok_or(Mistake::NumberOutOfRange)
}

// A decimal number from -2^63 to 2^63 - 1, with or without a sign.
pub fn signed(text: &[u8]) -> Result<i64, Mistake>
    ensures { result ≡ signed_of (units text.now) }
{
    match text {
        [0, b'-', size @ ..] => below_zero(unsigned(size)?),
        [0, b'+', size @ ..] => above_zero(unsigned(size)?),
        size => above_zero(unsigned(size)?),
    }
}

// true or 1, false or 0, in any case.
// No table as of the value types: four names of two values are asked in no more lines than a table of them and its search take.
pub fn boolean(text: &[u8]) -> Result<bool, Mistake>
    ensures { result ≡ boolean_of (units text.now) }
{
    if spells(text, b"true") || spells(text, b"1") {
        Ok(true)
    } else if spells(text, b"false") || spells(text, b"0") {
        Ok(false)
    } else {
        Err(Mistake::NotABoolean)
    }
}
