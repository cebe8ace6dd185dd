use cal_base::Ino;

/// An inode, or a block of a directory by its index, that an edit alters.
#[derive(Clone, Copy, Debug, PartialEq, Eq)]
pub(crate) enum Home {
    Inode(Ino),
    Block(Ino, u8),
}
