//! A test of what a client knows and writes by itself, over public calls alone.
#![tactic(auto)]

#[cfg(test)]
mod knowing;
