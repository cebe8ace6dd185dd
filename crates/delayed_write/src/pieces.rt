ghost use Rattle.std.specs.Prelude.{◌≡◌, ◌<◌, IfOk, OnOk};
ghost use Rattle.cal_base.specs.Limits.{file_blocks};
ghost use Rattle.delayed_write.specs.Delayed.{pieces_below, with_piece};

use cal_base::{FILE_BLOCKS, Oom, Sector};
use file_bytes::block;
use std::alloc::Global;
use token_kind::PieceList;

/// The marked blocks of a file, each with its index. Room is taken for as many as there are.
pub(crate) fn pieces(
    alloc: Global,
    contents: &[u8],
    marks: &[bool; FILE_BLOCKS],
    count: u8,
) -> Result<PieceList, Oom>
    ensures { IfOk result (λ pieces. pieces ≡ pieces_below contents.now marks.now file_blocks) }
{
    let mut pieces = Vec::with_capacity(alloc, usize::from(count))?;
    for index in 0..FILE_BLOCKS as u8 {
        put_piece(&mut pieces, contents, marks, index)?;
    }
    Ok(PieceList::from_vec(pieces))
}

/// Puts the block with this index behind the pieces, if it is marked.
fn put_piece(
    pieces: &mut Vec<(u8, Sector)>,
    contents: &[u8],
    marks: &[bool; FILE_BLOCKS],
    index: u8,
) -> Result<(), Oom>
    requires { index < file_blocks }
    ensures { OnOk result (pieces.new.items ≡ with_piece pieces.old.items contents.now marks.now index) }
{
    let place = usize::from(index);
    if marks[place] {
        pieces.push((index, block(contents, place)))?;
    }
    Ok(())
}
