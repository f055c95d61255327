// Numbers in decimal, without a sign.
ghost use Rattle.std.specs.Prelude.{◌≡◌, ◌+◌, ◌-◌, ◌*◌, ◌^◌, ◌<◌, ◌≤◌, true, false, ◌++◌, length, replicate, decimal, MatchOption, OnOk};
ghost use Rattle.text.specs.Growth.{Added};
ghost use Rattle.text.specs.Decimal.{is_digit, number_of};

use std::alloc::AllocError;
use std::io::Write;

// A number has at most so many digits.
const LONGEST: usize = 20;

// What a digit stands for, 0 to 9.
fn digit(byte: u8) -> Option<u32>
    ensures { MatchOption result (is_digit byte ≡ false) (λ d. (is_digit byte ≡ true) × (d ≡ byte - 48) × (d < 10)) }
{
    char::from(byte).to_digit(10)
}

// A number with one more digit behind it, if that is below 2^64.
fn append(number: u64, digit: u32) -> Option<u64>
    ensures { MatchOption result (2 ^ 64 ≤ number * 10 + digit) (λ n. (n ≡ number * 10 + digit) × (n < 2 ^ 64)) }
{
    number.checked_mul(10)?.checked_add(digit as u64)
}

// The number that a text of 1 to 20 digits writes, if it is below 2^64. Zeros may lead.
#[tactic(auto, using(crate::proofs::Values::number_steps))]
pub fn number(text: &[u8]) -> Option<u64>
    ensures { result ≡ number_of text.now }
{
    if text.is_empty() || text.len() > LONGEST {
        return None;
    }
    let mut number = 0;
    for byte in text {
        number = append(number, digit(*byte)?)?;
    }
    Some(number)
}

// Puts a number's digits behind what is there, which may be any bytes, so it is no String.
pub fn push_number(out: &mut Vec<u8>, number: u64) -> Result<(), AllocError>
    ensures { OnOk result (Added out.old.items out.new.items (decimal number)) }
{
    write!(out, "{number}").map_err(|_| AllocError)
}

// Puts a number behind what is there, on the right of so many columns; a longer one takes what it needs.
#[tactic(auto, using(crate::proofs::Written::right_aligned))]
pub fn push_aligned(out: &mut Vec<u8>, number: u64, width: usize) -> Result<(), AllocError>
    ensures { OnOk result (Added out.old.items out.new.items (replicate (width - length (decimal number)) 32 ++ decimal number)) }
{
    write!(out, "{number:>width$}").map_err(|_| AllocError)
}
