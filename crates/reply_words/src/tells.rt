ghost use Rattle.std.specs.Prelude.{◌≡◌};
ghost use Rattle.reply_words.specs.Limits.{told_by};

use tree_law::Call;

/// What a call tells when it is carried out.
#[derive(Clone, Copy, Debug, PartialEq, Eq)]
pub enum Tells {
    Nothing,
    /// The descriptor of an `open`.
    Descriptor,
    /// The bytes of a `read`.
    Contents,
    /// How many bytes a `write` took.
    Length,
    /// What a `stat` ends at.
    Kind,
    /// The names of a `readdir`.
    Listing,
}

/// What a call tells.
pub(crate) fn told_by(call: &Call) -> Tells
    ensures { result ≡ told_by call.now }
{
    match call {
        Call::Create { .. } | Call::Mkdir { .. } | Call::Unlink { .. } | Call::Rmdir { .. } => {
            Tells::Nothing
        }
        Call::Rename { .. } | Call::Close { .. } | Call::Truncate { .. } | Call::Fsync { .. } => {
            Tells::Nothing
        }
        Call::Open { .. } => Tells::Descriptor,
        Call::Read { .. } => Tells::Contents,
        Call::Write { .. } => Tells::Length,
        Call::Stat { .. } => Tells::Kind,
        Call::Readdir { .. } => Tells::Listing,
    }
}
