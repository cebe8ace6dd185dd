use cal_base::{Blob, EntryList};

/// What comes with a grant, so that the client can answer calls under it.
#[derive(Clone, Debug, Drop, PartialEq, Eq)]
pub enum Content {
    /// Nothing: the client had a hold in that class, or the class is Open.
    Nothing,
    /// With Names, the entries of the directory, sorted by name.
    Names(EntryList),
    /// With Data, the bytes of the file, at most 262,144.
    Bytes(Blob),
    /// With Attr, the size of the file in bytes, at most 262,144.
    Size(u32),
}
