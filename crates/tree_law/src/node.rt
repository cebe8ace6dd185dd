use crate::directory::Directory;
use crate::regular_file::RegularFile;

/// What an inode is.
#[derive(Debug, Drop)]
pub enum Node {
    Directory(Directory),
    Regular(RegularFile),
}
