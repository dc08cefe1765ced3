//! Numbers in images, and the next byte of one.

ghost use Rattle.std.specs.Prelude.{◌≡◌, ◌<◌, ◌≤◌, IfSome, MatchOption, Ok};
ghost use Rattle.rc_model.specs.Run.Numbers.{greatest_number};
ghost use Rattle.rc_model.specs.Syntax.Faults.{Gives};
ghost use Rattle.rc_spelling.specs.Steps.{first_by, digit_here, number_here, value_from, after_digits};
ghost use Rattle.rc_spelling.specs.Steps.{number_by, count_from, stage_count};

use crate::image_error::ImageError;
use rc_model::limits::{GREATEST_NUMBER, MOST_STAGES};
use rc_model::{ImageFault, InputError};

/// Splits off the first byte.
#[inline(always)]
#[tactic(auto, using(crate::proofs::Digits::firsts))]
pub(crate) fn first(bytes: &[u8]) -> Result<(u8, &[u8]), ImageError>
    ensures { Gives (λ x. (x.0, x.1.now)) result (first_by bytes.now) }
{
    match bytes.split_first() {
        Some((byte, rest)) => Ok((*byte, rest)),
        None => Err(InputError::Fault(ImageFault::BadTag)),
    }
}

/// Whether the bytes begin with a digit.
#[tactic(auto, using(crate::proofs::Digits::numerals))]
fn begins_with_digit(bytes: &[u8]) -> bool
    ensures { result ≡ digit_here bytes.now }
{
    match bytes.split_first() {
        Some((byte, _)) => byte.is_ascii_digit(),
        None => false,
    }
}

/// Whether the bytes begin with digits without a leading zero.
#[tactic(auto, using(crate::proofs::Digits::numerals))]
pub fn begins_number(bytes: &[u8]) -> bool
    ensures { result ≡ number_here bytes.now }
{
    match bytes.split_first() {
        Some((byte, rest)) => {
            byte.is_ascii_digit() && (*byte != b'0' || !begins_with_digit(rest))
        }
        None => false,
    }
}

/// Parses digits that follow others of this value, and returns the value and the rest. None if it is too large. A
/// number without leading zeros has at most ten digits until then.
#[cycle(number)]
#[tactic(auto, using(crate::proofs::Digits::values))]
fn number_from(value: usize, bytes: &[u8]) -> Option<(usize, &[u8])>
    requires { value ≤ greatest_number }
    ensures { MatchOption result (greatest_number < value_from value bytes.now)
        (λ x. (x.0 ≡ value_from value bytes.now)
        × (x.1.now ≡ after_digits bytes.now) × (x.0 ≤ greatest_number)) }
{
    let Some((digit, rest)) = bytes.split_first() else {
        return Some((value, bytes));
    };
    if !digit.is_ascii_digit() {
        return Some((value, bytes));
    }
    let value = value * 10 + (*digit - b'0') as usize;
    if value > GREATEST_NUMBER {
        return None;
    }
    number_from(value, rest)
}

/// Parses digits, and returns their value, if it isn't too large, and the rest.
pub fn number(bytes: &[u8]) -> Option<(usize, &[u8])>
    ensures { MatchOption result (greatest_number < value_from 0 bytes.now)
        (λ x. (x.0 ≡ value_from 0 bytes.now) × (x.1.now ≡ after_digits bytes.now) × (x.0 ≤ greatest_number)) }
{
    number_from(0, bytes)
}

/// Parses a number of one digit and the mark after it.
#[inline(always)]
#[tactic(auto, using(crate::proofs::Plain::digits))]
fn digit_at(mark: u8, bytes: &[u8]) -> Option<(usize, &[u8])>
    ensures { IfSome result (λ x. number_by mark bytes.now ≡ Ok (x.0, x.1.now)) }
{
    let (digit, after) = bytes.split_first()?;
    let (byte, rest) = after.split_first()?;
    if digit.is_ascii_digit() && *byte == mark && !mark.is_ascii_digit() {
        return Some(((*digit - b'0') as usize, rest));
    }
    None
}

/// Parses a number of any length and the mark after it.
#[tactic(auto, using(crate::proofs::Digits::counts))]
#[inline(never)]
fn digits_at(mark: u8, bytes: &[u8]) -> Result<(usize, &[u8]), ImageError>
    ensures { Gives (λ x. (x.0, x.1.now)) result (number_by mark bytes.now) }
{
    if !begins_number(bytes) {
        return Err(InputError::Fault(ImageFault::BadLength));
    }
    let Some((number, rest)) = number(bytes) else {
        return Err(InputError::Fault(ImageFault::BadLength));
    };
    let Some((byte, rest)) = rest.split_first() else {
        return Err(InputError::Fault(ImageFault::BadLength));
    };
    if *byte != mark {
        return Err(InputError::Fault(ImageFault::BadLength));
    }
    Ok((number, rest))
}

/// Parses a number and the mark after it.
#[inline(always)]
pub(crate) fn count_at(mark: u8, bytes: &[u8]) -> Result<(usize, &[u8]), ImageError>
    ensures { Gives (λ x. (x.0, x.1.now)) result (number_by mark bytes.now) }
{
    match digit_at(mark, bytes) {
        Some(found) => Ok(found),
        None => digits_at(mark, bytes),
    }
}

/// Parses the length of a list, if it isn't too short.
#[inline(always)]
#[tactic(auto, unfolding(crate::specs::Steps::count_from))]
pub(crate) fn count_from(least: usize, bytes: &[u8]) -> Result<(usize, &[u8]), ImageError>
    ensures { Gives (λ x. (x.0, x.1.now)) result (count_from least bytes.now) }
{
    let (count, rest) = count_at(b',', bytes)?;
    if count < least {
        return Err(InputError::Fault(ImageFault::BadLength));
    }
    Ok((count, rest))
}

/// Parses the number of stages before the last one.
#[tactic(auto, unfolding(crate::specs::Steps::stage_count))]
pub(crate) fn stage_count(bytes: &[u8]) -> Result<(usize, &[u8]), ImageError>
    ensures { Gives (λ x. (x.0, x.1.now)) result (stage_count bytes.now) }
{
    let (count, rest) = count_from(1, bytes)?;
    if count >= MOST_STAGES {
        return Err(InputError::Fault(ImageFault::BadLength));
    }
    Ok((count, rest))
}
