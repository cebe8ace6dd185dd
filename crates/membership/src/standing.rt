/// Where a client stands. It passes from each to the next, and never back.
#[derive(Clone, Copy, Debug, PartialEq, Eq)]
pub enum Standing {
    /// It runs.
    Runs,
    /// It crashed, and may still be waited for.
    Crashed,
    /// It crashed and is declared gone: what it held may be taken from it.
    Gone,
}
