use tree_law::Reply;

/// What a volume knows of a client's requests.
#[derive(Clone, Debug, Drop, PartialEq, Eq)]
pub struct Slot {
    /// Whether the client was declared gone, and what it held was taken away.
    pub purged: bool,
    /// The number of its last change, from 1; 0 where it made none.
    pub call: u64,
    /// The number of its last flush, from 1; 0 where it made none.
    pub flush: u64,
    /// The reply of its last change: `Done` or a refusal that a change may have. Where it made no
    /// change no reply stands, and this is `Done`.
    pub reply: Reply,
}
