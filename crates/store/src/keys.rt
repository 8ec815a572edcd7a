// The keys of a plan: the rows of each make one reservation.
ghost use Rattle.std.specs.Prelude.{◌≡◌, ◌≤◌, length};
ghost use Rattle.processor.specs.Few.{held};
ghost use Rattle.store.specs.InPlace.{all_held};
ghost use Rattle.store.specs.Answers.{answered};
ghost use Rattle.store.specs.Keys.{of_key, piece, alike, times, once_each, stretch, one_reservation, bad_key, firsts, keys, key_fault};
ghost use Rattle.store.specs.Gathered.{OnlyOne, Gathered, lower_key, lowest_key};
ghost use Rattle.store.specs.Loading.{all_of};
ghost use Rattle.std.specs.List.{AllByRecursion};

use crate::fault::{BufferFault, BufferRule};
use crate::lists::Plan;
use crate::records::filler;
use model::row::{Kind, Row};
use processor::few::Few;

const MOST_KEYS: usize = 64;

// Two rows of a key on one processor.
#[derive(Clone, Copy)]
pub struct Twice;

impl Plan {
    // Refuses the lowest key whose rows are no reservation, and then more than 64 keys.
    pub(crate) fn check_keys(&self) -> Result<(), BufferFault>
        requires { AllByRecursion (λ row. 1 ≤ row.key) (all_of (all_held self.now)) }
        ensures { result ≡ answered (key_fault (all_held self.now)) }
    {
        if let Some(key) = self.lowest_bad() {
            return Err(BufferRule::Key.at(key));
        }
        if self.count_keys() > MOST_KEYS {
            return Err(BufferRule::Keys.anywhere());
        }
        Ok(())
    }

    // The lowest key whose rows are no reservation.
    fn lowest_bad(&self) -> Option<u16>
        ensures { result ≡ lowest_key (all_held self.now) }
    {
        self.as_slice()
            .iter()
            .flat_map(|rows| rows.as_slice())
            .map(|row| row.key)
            .fold(None, |lowest, key| self.lower_bad(lowest, key))
    }

    // The lower of the lowest bad key so far and a key, if that is bad. To ask goes over all rows, so a key is asked only where it would be the lowest.
    fn lower_bad(&self, lowest: Option<u16>, key: u16) -> Option<u16>
        ensures { result ≡ lower_key (bad_key (all_held self.now)) lowest key }
    {
        if lowest.map_or(true, |low| key < low) && self.is_bad(key) {
            Some(key)
        } else {
            lowest
        }
    }

    // How many keys there are.
    fn count_keys(&self) -> usize
        ensures { result ≡ keys (all_held self.now) }
    {
        self.as_slice()
            .iter()
            .map(|rows| count_firsts(rows.as_slice()))
            .sum()
    }

    // The rows of a key make no reservation.
    fn is_bad(&self, key: u16) -> bool
        ensures { result ≡ bad_key (all_held self.now) key }
    {
        !self
            .pieces_of(key)
            .is_ok_and(|found| is_reservation(&found))
    }

    // The rows of a key, if no two of them are on one processor.
    fn pieces_of(&self, key: u16) -> Result<Few<Row, 8>, Twice>
        ensures { Gathered key (all_held self.now) result }
    {
        let mut found = Few::new(filler());
        for rows in self.as_slice() {
            if let Some(row) = piece_of(rows.as_slice(), key)? {
                found.push(*row);
            }
        }
        Ok(found)
    }
}

// The row of a key that these rows have, if there is one. Inlined, its loop is a third slower.
#[inline(never)]
fn piece_of(rows: &[Row], key: u16) -> Result<Option<&Row>, Twice>
    ensures { OnlyOne (of_key key rows.now) result }
{
    let mut found = None;
    for row in rows {
        if row.key == key && found.replace(row).is_some() {
            return Err(Twice);
        }
    }
    Ok(found)
}

// One whole, or a head and its tails.
fn is_reservation(found: &Few<Row, 8>) -> bool
    ensures { result ≡ one_reservation (held found.now) }
{
    let rows = found.as_slice();
    match rows {
        [] => false,
        [row] => row.kind == Kind::Whole,
        [row, ..] => {
            let period = row.timing.period;
            same_period(rows, period) && parts_once(rows) && stretch_of(rows) <= period
        }
    }
}

// None of the rows is whole, and each has this period.
fn same_period(rows: &[Row], period: u32) -> bool
    ensures { result ≡ alike period rows.now }
{
    rows.iter().all(|row| is_piece(row, period))
}

fn is_piece(row: &Row, period: u32) -> bool
    ensures { result ≡ piece period row.now }
{
    row.kind != Kind::Whole && row.timing.period == period
}

// Each part below the number of rows is there once.
fn parts_once(rows: &[Row]) -> bool
    ensures { result ≡ once_each (length rows.now) rows.now }
{
    (0..rows.len()).all(|wanted| count_part(rows, wanted) == 1)
}

// How often a part is there.
fn count_part(rows: &[Row], wanted: usize) -> usize
    ensures { result ≡ times wanted rows.now }
{
    rows.iter()
        .filter(|row| row.kind.part() as usize == wanted)
        .count()
}

// The head's deadline and the tails' budgets.
fn stretch_of(rows: &[Row]) -> u32
    requires { length rows.now ≤ 32 }
    ensures { result ≡ stretch rows.now }
{
    rows.iter().map(|row| row.due()).sum()
}

// How many of the rows are wholes and heads.
fn count_firsts(rows: &[Row]) -> usize
    ensures value { result ≡ firsts rows.now }
    ensures bound { result ≤ length rows.now }
{
    rows.iter().filter(|row| !row.kind.is_tail()).count()
}
