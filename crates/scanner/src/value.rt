//! What an item stands for: the value of an integer, the bytes of a string.
ghost use Rattle.std.specs.Prelude.{◌≡◌, ℕ, ◌-◌, ◌≤◌, List, length, take, drop};
ghost use Rattle.scanner.specs.Seen.{Small};
ghost use Rattle.std.specs.List.{prefix_len};
ghost use Rattle.symbols.specs.Bytes.{digit_value, letter};
ghost use Rattle.symbols.specs.Items.{IsInteger, IsStringOf, written};
ghost use Rattle.symbols.specs.See.{base_of, base_radix, value_behind, value_of};

use crate::bytes::{Class, run};
use crate::words::base;
use symbols::Base;

/// The largest integer.
pub const MAX_INTEGER: u32 = 32_767;

/// What a digit of any base stands for.
// No `to_digit`: `integer_value` is promised of every byte, also of one that is no digit.
fn digit_value(b: u8) -> u8
    ensures { result ≡ digit_value b }
{
    if b <= b'9' {
        b.saturating_sub(b'0')
    } else {
        b - (b'A' - 10)
    }
}

/// The radix of the base that a word names, or ten.
fn radix(word: &[u8]) -> u32
    ensures is { result ≡ base_radix (base_of word.now) }
    ensures low { 2 ≤ result }
    ensures high { result ≤ 16 }
{
    match base(word) {
        Some(Base::Binary) => 2,
        Some(Base::Octal) => 8,
        Some(Base::Hexadecimal) => 16,
        None => 10,
    }
}

/// The number that the digits write in the base, unless it is too large.
// No `from_str_radix`: it takes small letters and a sign, and refuses bytes of which something is promised here.
fn number(digits: &[u8], base: u32) -> Option<u16>
    requires { (2 ≤ base) × (base ≤ 16) }
    ensures { Small (written base digits.now) result }
{
    let mut value = 0;
    for digit in digits {
        value = value * base + u32::from(digit_value(*digit));
        if value > MAX_INTEGER {
            return None;
        }
    }
    u16::try_from(value).ok()
}

/// The number behind the word of a base and spaces, or of digits alone.
fn number_behind(bytes: &[u8]) -> Option<u16>
    ensures { Small (value_behind (take (prefix_len letter bytes.now) bytes.now) (drop (prefix_len letter bytes.now) bytes.now)) result }
{
    let (word, rest) = bytes.split_at(run(bytes, Class::Letter));
    let spaces = run(rest, Class::Space);
    number(&rest[spaces..], radix(word))
}

/// The value of an integer's bytes, unless it is above 32,767.
pub fn integer_value(bytes: &[u8]) -> Option<u16>
    ensures twin { Small (value_of bytes.now) result }
    ensures rule { (v : ℕ) → IsInteger bytes.now v → Small v result }
{
    match bytes {
        [b'\'', c, ..] => Some(u16::from(*c)),
        _ => number_behind(bytes),
    }
}

/// The bytes of a string: what stands between its quotes.
pub fn string_bytes(bytes: &[u8]) -> &[u8]
    ensures twin { result.now ≡ take (length bytes.now - 2) (drop 1 bytes.now) }
    ensures rule { (cs : List ℕ) → IsStringOf bytes.now cs → result.now ≡ cs }
{
    match bytes {
        [_, inner @ .., _] => inner,
        _ => &[],
    }
}
