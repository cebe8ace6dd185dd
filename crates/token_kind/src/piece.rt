use crate::reported::Reported;
use cal_base::Items;

/// Reported holds.
pub type ReportedList = Items<Reported>;

/// A piece of a client's report of what it holds.
#[derive(Clone, Debug, Drop, PartialEq, Eq)]
pub struct Piece {
    /// Its place in the report, from 0.
    pub index: u16,
    /// Whether it is the last piece of the report.
    pub last: bool,
    /// At most 32 holds; exactly 32 in each piece but the last.
    pub holds: ReportedList,
}
