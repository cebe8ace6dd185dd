/// The name of a call on one path.
#[derive(Clone, Copy)]
pub(crate) enum PathCall {
    Creates,
    Makes,
    Unlinks,
    Removes,
    Stats,
    Lists,
}

/// The name of a call on a descriptor alone.
#[derive(Clone, Copy)]
pub(crate) enum FileCall {
    Closes,
    Syncs,
}

/// The name of a call.
#[derive(Clone, Copy)]
pub(crate) enum CallName {
    OnPath(PathCall),
    OnFile(FileCall),
    Renames,
    Opens,
    Reads,
    Writes,
    Fills,
    Truncates,
}
