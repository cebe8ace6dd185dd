ghost use Rattle.std.specs.Prelude.{◌≡◌, ◌≤◌, ◌+◌, length};
ghost use Rattle.cal_base.specs.Limits.{file_blocks, file_size};
ghost use Rattle.cal_base.specs.Blocks.{block_count};
ghost use Rattle.delayed_write.specs.Marks.{marked_by_shrink, marked_by_truncate, marked_by_write, marked_count, with_marks};

use cal_base::{BLOCK_SIZE, FILE_BLOCKS};

/// How many blocks are marked.
pub(crate) fn count(marks: &[bool; FILE_BLOCKS]) -> u8
    ensures value { result ≡ marked_count marks.now }
    ensures limit { result ≤ file_blocks }
{
    marks.iter().filter(|mark| **mark).count() as u8
}

/// Marks the blocks in which the bytes of a write lie.
pub(crate) fn mark_write(marks: &mut [bool; FILE_BLOCKS], offset: usize, count: usize)
    requires { offset + count ≤ file_size }
    ensures { marks.new ≡ marked_by_write marks.old offset count }
{
    if count != 0 {
        set_marks(
            marks,
            offset / BLOCK_SIZE,
            block_count(offset + count),
            true,
        );
    }
}

/// Marks what a truncate marks, and unmarks what it drops.
pub(crate) fn mark_truncate(marks: &mut [bool; FILE_BLOCKS], old: usize, size: usize)
    requires { size ≤ file_size }
    ensures { marks.new ≡ marked_by_truncate marks.old old size }
{
    if size < old {
        mark_shrink(marks, size);
    }
}

/// Unmarks the blocks past the new end, and marks the block that holds it.
fn mark_shrink(marks: &mut [bool; FILE_BLOCKS], size: usize)
    requires { size ≤ file_size }
    ensures { marks.new ≡ marked_by_shrink marks.old size }
{
    let end = block_count(size);
    set_marks(marks, end, FILE_BLOCKS, false);
    set_marks(marks, size / BLOCK_SIZE, end, true);
}

/// Sets the marks from one block to below another.
fn set_marks(marks: &mut [bool; FILE_BLOCKS], from: usize, to: usize, mark: bool)
    requires order { from ≤ to }
    requires within { to ≤ file_blocks }
    ensures { marks.new ≡ with_marks marks.old from to mark }
{
    marks[from..to].fill(mark);
}

/// How many blocks hold so many bytes.
fn block_count(bytes: usize) -> usize
    requires { bytes ≤ file_size }
    ensures { result ≡ block_count bytes }
{
    bytes.div_ceil(BLOCK_SIZE)
}
