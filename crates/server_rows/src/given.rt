use cal_base::ServerId;
use cluster_law::{ServerHalted, ServerOutput};

/// What a line gives.
#[derive(Drop)]
pub(crate) enum Given {
    /// Nothing is to be printed.
    Nothing,
    /// It can't be done, and all is as it was.
    Refused,
    /// The row ends.
    RowEnd,
    /// A server made a step, and runs.
    Step(ServerOutput),
    /// A server made a step in which it halts.
    Halt(ServerId, ServerHalted),
}
