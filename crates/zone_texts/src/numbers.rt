//! Numbers in the forms that a `$GENERATE` writes them in.
ghost use Rattle.std.specs.Prelude.{◌≡◌, ◌++◌, ◌<◌, ◌≤◌, OnOk};
ghost use Rattle.zone_texts.specs.Patterns.{digit, digits, nibbles, number_text, padded, zeros};

use crate::pattern::Base;
use std::alloc::{AllocError, Global};

/// The most digits of a number but for one.
const MOST_DIGITS: u32 = 63;

/// The most characters that a number is filled up to.
const MOST_WIDTH: u32 = 255;

/// Appends a number in a form, filled up to a width.
#[tactic(auto, unfolding(crate::specs::Patterns::number_text))]
pub(crate) fn push_number(
    alloc: Global,
    line: &mut Vec<u8>,
    base: Base,
    width: u8,
    number: u64,
) -> Result<(), AllocError>
    ensures { OnOk result (line.new.items ≡ line.old.items ++ number_text base width number) }
{
    match base {
        Base::Octal => push_padded(alloc, line, false, 8, width, number),
        Base::Decimal => push_padded(alloc, line, false, 10, width, number),
        Base::Hex(is_capital) => push_padded(alloc, line, is_capital, 16, width, number),
        Base::Nibbles(is_capital) => push_nibbles(line, is_capital, MOST_WIDTH, number, width),
    }
}

/// Appends a number to a base, filled up with zeros before it to a width.
fn push_padded(
    alloc: Global,
    line: &mut Vec<u8>,
    is_capital: bool,
    base: u64,
    width: u8,
    number: u64,
) -> Result<(), AllocError>
    requires above { 0 < base }
    requires most { base ≤ 16 }
    ensures { OnOk result (line.new.items
        ≡ line.old.items ++ padded width (digits is_capital base 63 number)) }
{
    let mut own = Vec::new(alloc);
    push_digits(&mut own, is_capital, base, MOST_DIGITS, number)?;
    push_zeros(line, usize::from(width).saturating_sub(own.len()))?;
    line.extend_from_slice(own.as_slice())
}

/// Appends so many zeros.
#[tactic(auto, using(crate::proofs::Digits::zeros_steps))]
fn push_zeros(line: &mut Vec<u8>, count: usize) -> Result<(), AllocError>
    ensures { OnOk result (line.new.items ≡ line.old.items ++ zeros count) }
{
    if count == 0 {
        return Ok(());
    }
    line.push(b'0')?;
    push_zeros(line, count - 1)
}

/// Appends the digits of a number to a base, one more than so many at most.
#[tactic(auto, using(crate::proofs::Digits::digits_steps))]
fn push_digits(
    line: &mut Vec<u8>,
    is_capital: bool,
    base: u64,
    most: u32,
    number: u64,
) -> Result<(), AllocError>
    requires above { 0 < base }
    requires most { base ≤ 16 }
    ensures { OnOk result (line.new.items ≡ line.old.items ++ digits is_capital base most number) }
{
    if most > 0 && number >= base {
        push_digits(line, is_capital, base, most - 1, number / base)?;
    }
    line.push(digit(is_capital, (number % base) as u8))?;
    Ok(())
}

/// Appends the hex digits of a number, the last one first and a dot between two, filled up with zeros to a width that counts the dots;
/// so many digits at most.
#[tactic(auto, using(crate::proofs::Digits::nibbles_steps))]
fn push_nibbles(
    line: &mut Vec<u8>,
    is_capital: bool,
    most: u32,
    number: u64,
    width: u8,
) -> Result<(), AllocError>
    ensures { OnOk result
        (line.new.items ≡ line.old.items ++ nibbles is_capital most number width) }
{
    if most == 0 {
        return Ok(());
    }
    line.push(digit(is_capital, (number % 16) as u8))?;
    let left = number / 16;
    if left == 0 && width <= 1 {
        return Ok(());
    }
    line.push(b'.')?;
    if left == 0 && width <= 2 {
        return Ok(());
    }
    push_nibbles(line, is_capital, most - 1, left, width.saturating_sub(2))
}

/// A digit of a number to a base of at most 16, as a character.
fn digit(is_capital: bool, value: u8) -> u8
    requires { value < 16 }
    ensures { result ≡ digit is_capital value }
{
    if value < 10 {
        b'0' + value
    } else if is_capital {
        b'A' - 10 + value
    } else {
        b'a' - 10 + value
    }
}
