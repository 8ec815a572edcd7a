// Bytes as hexadecimal digits, two a byte, the high half first.
ghost use Rattle.std.specs.Prelude.{◌≡◌, ◌*◌, ◌/◌, ◌<◌, ◌≤◌, ◌++◌, length, take, drop, is_some, IfOk, string_bytes};
ghost use Rattle.benchlines.specs.Hex.{digit_value, value_of, all_digits, hex_digit, byte_of, bytes_of, digits_of, is_image, fits, decoded, buffer_after};

use lines::fields::same;
use std::alloc::{AllocError, Global};

// Writes the bytes that a text of digits says to the buffer's front, and answers how many they are.
pub fn decode(text: &[u8], bytes: &mut [u8]) -> usize
    requires { length text.now / 2 ≤ length bytes.old }
    ensures bytes { take result bytes.new ≡ bytes_of text.now }
    ensures within { result ≤ length bytes.new }
    ensures count { result ≡ length text.now / 2 }
    ensures after { bytes.new ≡ bytes_of text.now ++ drop (length text.now / 2) bytes.old }
{
    let (pairs, _) = text.as_chunks::<2>();
    // By index: of bytes written through `iter_mut().zip(..)` a proof knows nothing afterwards.
    for (i, [high, low]) in pairs.iter().enumerate() {
        bytes[i] = byte_of(*high, *low);
    }
    pairs.len()
}

// The same of any text: one that writes no bytes, or too many, is refused.
pub fn decode_any(text: &[u8], bytes: &mut [u8]) -> Option<usize>
    ensures value { result ≡ decoded text.now (length bytes.old) }
    ensures after { bytes.new ≡ buffer_after text.now bytes.old }
{
    if !fits(text, bytes.len()) {
        return None;
    }
    Some(decode(text, bytes))
}

// Whether a text writes bytes for which there is room.
fn fits(text: &[u8], room: usize) -> bool
    ensures { result ≡ fits text.now room }
{
    is_image(text) && text.len() / 2 <= room
}

// Whether a text writes bytes: pairs of digits, or `-` for none.
pub fn is_image(text: &[u8]) -> bool
    ensures { result ≡ is_image text.now }
{
    same(text, b"-") || (text.len() % 2 == 0 && all_digits(text))
}

fn byte_of(high: u8, low: u8) -> u8
    ensures { result ≡ byte_of high low }
{
    value_of(high) * 16 + value_of(low)
}

// The digits of bytes, in lower case.
pub fn encode(heap: Global, bytes: &[u8]) -> Result<String, AllocError>
    ensures { IfOk result (λ s. string_bytes s ≡ digits_of bytes.now) }
{
    let mut text = String::new(heap);
    for byte in bytes {
        text.push(digit(*byte / 16))?;
        text.push(digit(*byte % 16))?;
    }
    Ok(text)
}

fn all_digits(text: &[u8]) -> bool
    ensures { result ≡ all_digits text.now }
{
    text.iter().all(|byte| read_digit(*byte).is_some())
}

// The value of a digit of either case; other bytes have none. `to_digit` would take a char, a radix and a conversion back.
fn read_digit(byte: u8) -> Option<u8>
    ensures { result ≡ digit_value byte }
{
    match byte {
        b'0'..=b'9' => Some(byte - b'0'),
        b'a'..=b'f' => Some(byte - b'a' + 10),
        b'A'..=b'F' => Some(byte - b'A' + 10),
        _ => None,
    }
}

// The value of a digit, and 0 for a byte that is none.
fn value_of(byte: u8) -> u8
    ensures value { result ≡ value_of (digit_value byte) }
    ensures small { result < 16 }
{
    read_digit(byte).unwrap_or(0)
}

// The digit of a value below 16.
fn digit(value: u8) -> char
    requires { value < 16 }
    ensures digit { result ≡ hex_digit value }
    ensures ascii { result < 128 }
{
    if value < 10 {
        (b'0' + value) as char
    } else {
        (b'a' + (value - 10)) as char
    }
}
