use cal_base::Sector;

/// Where a server is to stop.
#[derive(Clone, Copy, Debug)]
pub struct Stop {
    /// How many writes are accepted before it.
    pub after: u32,
    /// What the next write leaves in its sector. Without it that write isn't begun.
    pub torn: Option<Sector>,
}
