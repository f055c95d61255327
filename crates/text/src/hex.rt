// Bytes in hexadecimal: two digits to a byte, the high one first; the digits are 0 to 9 and a to f.
ghost use Rattle.std.specs.Prelude.{◌≡◌, ◌+◌, ◌*◌, ◌<◌, true, length, MatchResult, OnOk, slice_index};
ghost use Rattle.text.specs.Growth.{Added, Prints};
ghost use Rattle.text.specs.declared.hex.HexFault.TheVariants.{NoMemory};
ghost use Rattle.text.specs.Hex.{hex_value, hex_digit, pair_of, bytes_of, is_hex_text, hex_of, Fails};

use std::alloc::{AllocError, AllocFailed, Global};
use std::fmt;
use thiserror::Error;

// Why a text gives no bytes.
#[derive(Clone, Copy, Debug, PartialEq, Eq, Error)]
pub enum HexFault {
    // an odd number of digits, or what is no digit
    #[error("not hexadecimal")]
    NotHex,
    #[error("out of memory")]
    NoMemory,
}

impl From<AllocError> for HexFault {
    ghost from_gives = { λ _ e. e ≡ NoMemory };

    fn from(_e: AllocError) -> HexFault {
        HexFault::NoMemory
    }
}

impl<T: Drop> From<AllocFailed<T>> for HexFault {
    ghost from_gives = { λ _ e. e ≡ NoMemory };

    fn from(_e: AllocFailed<T>) -> HexFault {
        HexFault::NoMemory
    }
}

// What a digit stands for, 0 to 15; `to_digit` would read capitals too.
pub fn nibble(digit: u8) -> Option<u8>
    ensures { result ≡ hex_value digit }
{
    match digit {
        b'0'..=b'9' => Some(digit - b'0'),
        b'a'..=b'f' => Some(digit - b'a' + 10),
        _ => None,
    }
}

// The digit that stands for a number below 16.
fn digit_of(nibble: u8) -> u8
    requires { nibble < 16 }
    ensures { result ≡ hex_digit nibble }
{
    if nibble < 10 {
        b'0' + nibble
    } else {
        b'a' + (nibble - 10)
    }
}

// The byte that a pair of digits stands for.
fn pair(high: u8, low: u8) -> Option<u8>
    ensures { result ≡ pair_of high low }
{
    Some(16 * nibble(high)? + nibble(low)?)
}

// The bytes whose hexadecimal the text is.
#[tactic(auto, using(crate::proofs::Pairs::none_cond, crate::proofs::Pairs::hex_no, crate::proofs::Pairs::hex_odd, crate::proofs::Pairs::hex_not))]
pub fn unhex(heap: Global, text: &[u8]) -> Result<Vec<u8>, HexFault>
    ensures { MatchResult result (λ v. (is_hex_text text.now ≡ true) × (v.items ≡ bytes_of text.now)) (λ e. Fails text.now e) }
{
    if text.len() % 2 != 0 {
        return Err(HexFault::NotHex);
    }
    let mut bytes = Vec::with_capacity(heap, text.len() / 2)?;
    let mut rest = text;
    while let [high, low, tail @ ..] = rest {
        bytes.push(pair(*high, *low).ok_or(HexFault::NotHex)?)?;
        rest = tail;
    }
    Ok(bytes)
}

// Bytes that are shown in hexadecimal.
#[derive(Clone, Copy)]
pub struct Hex<'a>(pub &'a [u8]);

impl fmt::Display for Hex<'_> {
    ghost use Rattle.std.specs.Prelude.{Some};

    ghost output = { λ h. Some (hex_of h.0.now) };

    fn fmt<W: fmt::Write>(&self, f: &mut fmt::Formatter<W>) -> fmt::Result {
        for &byte in self.0 {
            write!(f, "{byte:02x}")?;
        }
        Ok(())
    }
}

// Puts the hexadecimal of the bytes behind a text, digit by digit: a format for each byte takes four times as long.
pub fn print_hex(out: &mut String, bytes: &[u8]) -> Result<(), AllocError>
    ensures { Prints result out.old out.new (hex_of bytes.now) }
{
    for byte in bytes {
        out.push(char::from(digit_of(*byte / 16)))?;
        out.push(char::from(digit_of(*byte % 16)))?;
    }
    Ok(())
}

// Puts the hexadecimal of the bytes behind what is there, which may be any bytes, so it is no String.
pub fn push_hex(out: &mut Vec<u8>, bytes: &[u8]) -> Result<(), AllocError>
    ensures { OnOk result (Added out.old.items out.new.items (hex_of bytes.now)) }
{
    for byte in bytes {
        out.extend_from_slice(&[digit_of(*byte / 16), digit_of(*byte % 16)])?;
    }
    Ok(())
}
