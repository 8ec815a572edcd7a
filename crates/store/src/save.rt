// Save: the board's plan as bytes.
ghost use Rattle.std.specs.Prelude.{◌≡◌, ◌≤◌, length};
ghost use Rattle.board.specs.Plan.{plan};
ghost use Rattle.store.specs.Image.{row_count, image};
ghost use Rattle.store.specs.Buffer.{overwritten};
ghost use Rattle.store.specs.Save.{saved, buffer_after};

use crate::encode::header;
use crate::fault::{BufferFault, BufferRule};
use crate::layout::image_length;
use crate::writer::Writer;
use board::board::Board;

// Writes the image of the plan to the buffer's front, and answers its length.
pub fn save<J, P>(board: &Board<J, P>, buffer: &mut [u8]) -> Result<usize, BufferFault>
    ensures value { result ≡ saved (plan board.now) buffer.old }
    ensures after { buffer.new ≡ buffer_after (plan board.now) buffer.old }
{
    let length = length_of(board);
    if buffer.len() < length {
        return Err(BufferRule::Room.anywhere());
    }
    put_image(board, buffer);
    Ok(length)
}

fn length_of<J, P>(board: &Board<J, P>) -> usize
    ensures { result ≡ length (image (plan board.now)) }
{
    image_length(board.plan.processors.len(), record_count(board) as usize)
}

fn record_count<J, P>(board: &Board<J, P>) -> u16
    ensures { result ≡ row_count (plan board.now) }
{
    board
        .plan
        .processors
        .iter()
        .map(|processor| processor.rows.len() as u16)
        .sum()
}

// Writes the image to the buffer's front.
fn put_image<J, P>(board: &Board<J, P>, buffer: &mut [u8])
    requires { length (image (plan board.now)) ≤ length buffer.old }
    ensures { buffer.new ≡ overwritten buffer.old 0 (image (plan board.now)) }
{
    let mut writer = Writer { buffer, at: 0 };
    writer.put(&header(board.plan.processors.len() as u8, record_count(board)));
    writer.put_heads(board);
    writer.put_records(board);
}
