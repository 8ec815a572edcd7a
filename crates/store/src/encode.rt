// Headers and records as bytes.
ghost use Rattle.std.specs.Prelude.{◌≡◌};
ghost use Rattle.store.specs.Image.{header_bytes, record_bytes, first};
ghost use Rattle.store.specs.Numbers.{two_bytes};

use model::row::{Kind, Row};

// The form, the processor count and the record count.
pub(crate) fn header(processors: u8, records: u16) -> [u8; 4]
    ensures { result ≡ header_bytes processors records }
{
    let r = records.to_le_bytes();
    [1, processors, r[0], r[1]]
}

// A number as two bytes.
pub(crate) fn two(number: u16) -> [u8; 2]
    ensures { result ≡ two_bytes number }
{
    number.to_le_bytes()
}

// A row and the number of the record that follows it, as a record. Written out: arrays have no `++`, and copies into parts are longer.
pub(crate) fn record(next: u16, row: &Row) -> [u8; 18]
    ensures { result ≡ record_bytes next row.now }
{
    let n = next.to_le_bytes();
    let k = row.key.to_le_bytes();
    let c = row.timing.budget.to_le_bytes();
    let d = row.timing.deadline.to_le_bytes();
    let t = row.timing.period.to_le_bytes();
    let (kind, part) = match row.kind {
        Kind::Whole => (0, 0),
        Kind::Head => (1, 0),
        Kind::Tail(part) => (2, part),
    };
    [
        n[0], n[1], k[0], k[1], kind, part, c[0], c[1], c[2], c[3], d[0], d[1], d[2], d[3], t[0],
        t[1], t[2], t[3],
    ]
}

// The number of the first of so many records that are numbered from `number` on, or 0, which ends a chain in an image.
pub(crate) fn first_of(number: u16, count: usize) -> u16
    ensures { result ≡ first number count }
{
    if count == 0 { 0 } else { number }
}
