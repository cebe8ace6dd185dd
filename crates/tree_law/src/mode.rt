/// What a descriptor is open for, as POSIX.1's `O_RDONLY`, `O_WRONLY` and `O_RDWR`.
#[derive(Clone, Copy, Debug, PartialEq, Eq)]
pub enum Mode {
    /// `r`: for reading.
    R,
    /// `w`: for writing.
    W,
    /// `rw`: for both.
    Rw,
}
