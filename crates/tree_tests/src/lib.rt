//! Tests of the layers up to the file tree, of what no clause says: that bytes reach and leave the
//! system through `StdSource` and `StdSink`, of which no contract can speak; numbers, paths and calls
//! as they are written down outside; and that each public call is had with ample memory.
#![tactic(auto)]

#[cfg(test)]
mod bytes;
#[cfg(test)]
mod edges;
#[cfg(test)]
mod tree;
