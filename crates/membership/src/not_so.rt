/// Why a client could not be marked as crashed or declared gone.
#[derive(Clone, Copy, Debug, PartialEq, Eq)]
pub enum NotSo {
    /// There is no such client.
    NoSuch,
    /// That was done before.
    Dead,
    /// The client has not crashed.
    Alive,
}
