// The rows that an image says, by its format: header, then chains, then records.
ghost use Rattle.std.specs.Prelude.{◌≤◌};
ghost use Rattle.store.specs.Entries.{entries};
ghost use Rattle.store.specs.Unpacked.{Unpacked};

use crate::fault::BufferFault;
use crate::image::Image;
use crate::lists::Plan;

// The rows of each of so many processors.
pub(crate) fn unpack(processors: usize, bytes: &[u8]) -> Result<Plan, BufferFault>
    requires { processors ≤ 8 }
    ensures { Unpacked processors (entries processors bytes.now) result }
{
    let image = Image::read(processors, bytes)?;
    let chains = image.chains()?;
    let rows = image.rows()?;
    Ok(chains.pick(rows.as_slice()))
}
