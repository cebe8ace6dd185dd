ghost use Rattle.std.specs.Prelude.{◌≡◌};
ghost use Rattle.line_words.specs.declared.read_error.ReadWordsError.TheVariants.{Form, OutOfMemory};

use cal_base::Oom;

/// Words are outside their form.
#[derive(Clone, Copy)]
pub struct OutOfForm;

/// Why words were not read.
#[derive(Clone, Copy, Debug, PartialEq, Eq)]
pub enum ReadWordsError {
    /// They are outside their form.
    Form,
    OutOfMemory,
}

impl From<OutOfForm> for ReadWordsError {
    ghost from_gives = { λ _ e. e ≡ Form };

    fn from(_form: OutOfForm) -> ReadWordsError {
        ReadWordsError::Form
    }
}

impl From<Oom> for ReadWordsError {
    ghost from_gives = { λ _ e. e ≡ OutOfMemory };

    fn from(_error: Oom) -> ReadWordsError {
        ReadWordsError::OutOfMemory
    }
}
