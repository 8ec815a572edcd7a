// The fields of a line: its parts between runs of spaces.
ghost use Rattle.std.specs.Prelude.{◌≡◌, [], length, ◌==◌, nat_lt, slice_index_or};
ghost use Rattle.std.specs.List.{slice_get};
ghost use Rattle.std.specs.Option.{option_map};
ghost use Rattle.std.specs.Str.{bytes_eq};
ghost use Rattle.lines.specs.Fields.{fields};

// The field at a place, counted from 0; empty where the line has none there.
#[tactic(auto, using(crate::proofs::Splits::read_field))]
pub fn field(line: &[u8], place: usize) -> &[u8]
    ensures { result.now ≡ slice_index_or (fields line.now) place [] }
{
    part(line, place).unwrap_or(b"")
}

// Whether the line has a field at a place.
pub fn has_field(line: &[u8], place: usize) -> bool
    ensures { result ≡ nat_lt place (length (fields line.now)) }
{
    part(line, place).is_some()
}

// Whether the line has just so many fields.
pub fn has_fields(line: &[u8], count: usize) -> bool
    ensures { result ≡ (length (fields line.now) == count) }
{
    // By its places, so that no byte behind the field after these is looked at.
    (count == 0 || has_field(line, count - 1)) && !has_field(line, count)
}

// How many fields the line has.
pub fn count_fields(line: &[u8]) -> usize
    ensures { result ≡ length (fields line.now) }
{
    line.split(|byte| *byte == b' ')
        .filter(|field| !field.is_empty())
        .count()
}

// Whether two texts have the same bytes. `==` compares no slice with an array, as `b".."` is.
pub fn same(a: &[u8], b: &[u8]) -> bool
    ensures { result ≡ bytes_eq a.now b.now }
{
    a == b
}

// The field at a place, if the line has one there.
fn part(line: &[u8], place: usize) -> Option<&[u8]>
    ensures { option_map (λ x. x.now) result ≡ slice_get (fields line.now) place }
{
    line.split(|byte| *byte == b' ')
        .filter(|part| !part.is_empty())
        .nth(place)
}
