//! Tests of the script and its run, of what no clause says: lines, scripts and texts as they are written
//! down outside, and that a run is had with ample memory.
#![tactic(auto)]

#[cfg(test)]
mod lines;
#[cfg(test)]
mod runs;
