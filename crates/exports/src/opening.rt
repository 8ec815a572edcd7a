// A board with a stored plan on it.
ghost use Rattle.exports.specs.Boards.{Opened};

use crate::numbers::Setting;
use crate::refusal::Refusal;
use board::board::Board;
use judges::demand::Demand;
use placement::best::Best;
use std::alloc::Global;
use store::load::load;
use wadispoon::sizes::Sizes;

// The board, or the first refusal: the setting's, then the image's. The arguments are those of the C interface.
pub(crate) fn open(
    heap: Global,
    setting: &Setting,
    image: &[u8],
) -> Result<Board<Demand, Best>, Refusal>
    ensures { Opened setting.now image.now result }
{
    let sizes = Sizes::new(setting.processors, setting.steps, setting.refinements)?;
    let mut board = sizes.board(heap, sizes.demand, Best)?;
    load(&mut board, image)?;
    Ok(board)
}
