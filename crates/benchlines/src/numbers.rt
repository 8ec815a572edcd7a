// The numbers of a line, by the places of their fields.
ghost use Rattle.std.specs.Prelude.{◌≡◌, ◌+◌, ◌-◌, ◌^◌, ◌<◌, [], slice_index_or};
ghost use Rattle.lines.specs.Fields.{fields};
ghost use Rattle.lines.specs.Numbers.{number_of};
ghost use Rattle.benchlines.specs.Numbers.{number_at, checked, numbers_of};

use lines::fields::field;
use lines::numbers::read_number;
use model::fault::LineFault;

// The number at a place.
pub fn number_read(line: &[u8], place: usize) -> Result<u32, LineFault>
    ensures { result ≡ number_of (slice_index_or (fields line.now) place []) }
{
    read_number(field(line, place))
}

// The same, where a field that is no number counts as 0.
pub fn number_at(line: &[u8], place: usize) -> u32
    ensures { result ≡ number_at (fields line.now) place }
{
    number_read(line, place).unwrap_or(0)
}

// The first field that is no number, from one place up to another, is refused.
pub fn check_numbers(line: &[u8], from: usize, to: usize) -> Result<(), LineFault>
    ensures { result ≡ checked (fields line.now) from (to - from) }
{
    for place in from..to {
        number_read(line, place)?;
    }
    Ok(())
}

// The numbers of so many fields from a place on, or the refusal of the first of them that is no number.
#[tactic(auto, using(crate::proofs::Reading::read_stop, crate::proofs::Reading::read_all))]
pub fn read_numbers<const N: usize>(line: &[u8], from: usize) -> Result<[u32; N], LineFault>
    requires { from + N < 2 ^ 64 }
    ensures { result ≡ numbers_of (fields line.now) from N }
{
    let mut numbers = [0; N];
    for (i, number) in numbers.iter_mut().enumerate() {
        *number = number_read(line, from + i)?;
    }
    Ok(numbers)
}
