ghost use Rattle.std.specs.Prelude.{◌≡◌, ◌↔◌, ◌+◌, IsTrue};
ghost use Rattle.history_check.specs.Steps.{CanAnswer, CanStart};
ghost use Rattle.history_check.specs.declared.standing.Progress.TheVariants.{Answered, Entered};

use cal_base::Blob;
use tree_law::Call;

/// How far the last call of a client is.
#[derive(Debug, Drop)]
pub enum Progress {
    /// It is answered, or there was none yet.
    Answered,
    /// It was started.
    Started(Call),
    /// It was carried out, with a reply that is written so.
    Entered(Blob),
}

/// Where the last call of a client stands.
#[derive(Debug, Drop)]
pub struct Standing {
    /// Its number, 0 before the first.
    pub number: u64,
    pub progress: Progress,
}

impl Standing {
    /// Whether the client may start the call of this number.
    pub(crate) fn can_start(&self, number: u64) -> bool
        ensures { IsTrue result ↔ CanStart self.now number }
    {
        self.is_answered() && is_after(number, self.number)
    }

    /// Whether the last call is answered.
    fn is_answered(&self) -> bool
        ensures { IsTrue result ↔ (self.now.progress ≡ Answered) }
    {
        match &self.progress {
            Progress::Answered => true,
            Progress::Started(_) => false,
            Progress::Entered(_) => false,
        }
    }

    /// Whether the call of this number may be answered, with a reply that is written so.
    pub(crate) fn can_answer(&self, number: u64, reply: &Blob) -> bool
        ensures { IsTrue result ↔ CanAnswer self.now number reply.now }
    {
        self.number == number && is_entered(&self.progress, reply)
    }
}

/// Whether a number is the one after another.
fn is_after(number: u64, last: u64) -> bool
    ensures { IsTrue result ↔ (number ≡ last + 1) }
{
    number >= 1 && number - 1 == last
}

/// Whether a call was carried out with a reply that is written so.
fn is_entered(progress: &Progress, reply: &Blob) -> bool
    ensures { IsTrue result ↔ (progress.now ≡ Entered reply.now) }
{
    match progress {
        Progress::Answered => false,
        Progress::Started(_) => false,
        Progress::Entered(text) => is_same(text, reply),
    }
}

/// Whether the bytes are the same.
fn is_same(bytes: &Blob, others: &Blob) -> bool
    ensures { IsTrue result ↔ (bytes.now ≡ others.now) }
{
    bytes == others
}
