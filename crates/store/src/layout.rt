// Where the parts of an image stand.
ghost use Rattle.std.specs.Prelude.{◌≡◌, ◌≤◌};
ghost use Rattle.store.specs.Header.{image_length};

// The length of an image of so many processors and records, and so where a record after these would begin.
pub(crate) fn image_length(processors: usize, records: usize) -> usize
    requires { (processors ≤ 8) × (records ≤ 65535) }
    ensures { result ≡ image_length processors records }
{
    4 + 2 * processors + 18 * records
}
