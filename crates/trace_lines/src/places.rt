ghost use Rattle.std.specs.Prelude.{◌≡◌};
ghost use Rattle.trace_lines.specs.Places.{number32_of, descriptor_of, clients_of, window_of, view_of, ino_of, new_of, actor_of};

use cal_base::{CLIENTS, Ino, NodeId, View, WINDOW};
use line_words::{OutOfForm, node_of, number_of, number_to};
use script::number_in;

/// A number of 32 bits.
pub(crate) fn number32_of(word: &[u8]) -> Result<u32, OutOfForm>
    ensures { result ≡ number32_of word.now }
{
    let number = number_to(u64::from(u32::MAX), word)?;
    Ok(number as u32)
}

/// A descriptor.
pub(crate) fn descriptor_of(word: &[u8]) -> Result<u8, OutOfForm>
    ensures { result ≡ descriptor_of word.now }
{
    let number = number_to(u64::from(u8::MAX), word)?;
    Ok(number as u8)
}

/// A count of clients, 1 to 16.
pub(crate) fn clients_of(word: &[u8]) -> Result<u8, OutOfForm>
    ensures { result ≡ clients_of word.now }
{
    match number_in(1, u64::from(CLIENTS), word) {
        Ok(number) => Ok(number as u8),
        Err(_) => Err(OutOfForm),
    }
}

/// How many clients a server asks at a time, 1 to 8.
pub(crate) fn window_of(word: &[u8]) -> Result<u8, OutOfForm>
    ensures { result ≡ window_of word.now }
{
    match number_in(1, u64::from(WINDOW), word) {
        Ok(number) => Ok(number as u8),
        Err(_) => Err(OutOfForm),
    }
}

/// A view.
pub(crate) fn view_of(word: &[u8]) -> Result<View, OutOfForm>
    ensures { result ≡ view_of word.now }
{
    let number = number_of(word)?;
    Ok(View(number))
}

/// An inode.
pub(crate) fn ino_of(word: &[u8]) -> Result<Ino, OutOfForm>
    ensures { result ≡ ino_of word.now }
{
    let number = number32_of(word)?;
    Ok(Ino(number))
}

/// The inode that a call made, or `-` for none.
pub(crate) fn new_of(word: &[u8]) -> Result<Option<Ino>, OutOfForm>
    ensures { result ≡ new_of word.now }
{
    if word == b"-".as_slice() {
        return Ok(None);
    }
    let ino = ino_of(word)?;
    Ok(Some(ino))
}

/// Whose step it is: a node's, or `members`.
pub(crate) fn actor_of(word: &[u8]) -> Result<Option<NodeId>, OutOfForm>
    ensures { result ≡ actor_of word.now }
{
    if word == b"members".as_slice() {
        return Ok(None);
    }
    let node = node_of(word)?;
    Ok(Some(node))
}
