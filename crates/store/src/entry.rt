// What a record says of a row, before it is known to be one.
ghost use Rattle.store.specs.Rowed.{Rowed};

use crate::fault::BufferRule;
use model::row::{Kind, Row};
use model::timing::Timing;

#[derive(Clone, Copy)]
pub struct Entry {
    pub key: u16,
    pub kind: u8,
    pub part: u8,
    pub budget: u32,
    pub deadline: u32,
    pub period: u32,
}

impl TryFrom<Entry> for Row {
    type Error = BufferRule;

    // The row of which just this is stored.
    ghost try_from_gives = { Rowed };

    fn try_from(entry: Entry) -> Result<Row, BufferRule> {
        let kind = match entry.kind {
            0 if entry.part == 0 => Kind::Whole,
            1 if entry.part == 0 => Kind::Head,
            2 if (1..=7).contains(&entry.part) && entry.budget == entry.deadline => Kind::Tail(
                entry.part,
            ),
            _ => return Err(BufferRule::Record),
        };
        if entry.key == 0 {
            return Err(BufferRule::Record);
        }
        let timing = Timing::new(entry.budget, entry.deadline, entry.period).map_err(
            |_| BufferRule::Record,
        )?;
        Ok(Row {
            key: entry.key,
            kind,
            timing,
        })
    }
}
