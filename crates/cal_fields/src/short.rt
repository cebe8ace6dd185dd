/// Fewer bytes stand than were to be taken. Nothing was taken.
#[derive(Clone, Copy, Debug, PartialEq, Eq)]
pub struct Short;
