use cal_base::View;

/// Why a disk refused a call.
#[derive(Clone, Copy, Debug, PartialEq, Eq)]
pub enum DiskRefusal {
    /// The key is another than the caller's view. The disk is as it was.
    Fenced { mine: View, current: View },
    /// The disk failed, and its count of faults rose.
    Failed,
}
