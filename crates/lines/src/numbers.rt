// Numbers as they are typed: decimal digits, as many as one likes, up to the largest 32-bit number.
ghost use Rattle.std.specs.Prelude.{◌≡◌, [], ◌∷◌};
ghost use Rattle.lines.specs.Numbers.{number_of, number_after};

use model::fault::LineFault;

// The number that a field writes.
pub fn read_number(field: &[u8]) -> Result<u32, LineFault>
    ensures { result ≡ number_of field.now }
{
    if field.is_empty() {
        return Err(LineFault::Number);
    }
    read_digits(field)
}

// The value of digits; that of none is 0.
#[tactic(auto, using(crate::proofs::Digits::number_stops))]
fn read_digits(digits: &[u8]) -> Result<u32, LineFault>
    ensures { result ≡ number_after 0 digits.now }
{
    let mut value = 0;
    for byte in digits {
        value = with_digit(value, *byte)?;
    }
    Ok(value)
}

// A value with one more digit.
fn with_digit(value: u32, byte: u8) -> Result<u32, LineFault>
    ensures { result ≡ number_after value (byte ∷ []) }
{
    if !byte.is_ascii_digit() {
        return Err(LineFault::Number);
    }
    let tens = value.checked_mul(10).ok_or(LineFault::Number)?;
    let digit = u32::from(byte - b'0');
    tens.checked_add(digit).ok_or(LineFault::Number)
}
