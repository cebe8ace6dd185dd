/// Where a server stands in its view.
#[derive(Clone, Copy, Debug, PartialEq, Eq)]
pub enum Phase {
    /// It collects what clients hold, and lets each request wait for the client that is missing.
    Collecting,
    /// It knows what all clients hold, and takes their requests.
    Admitted,
}
