//! Tests of the disk and of a volume's sectors: worked bytes, each sector read and written once, and a port
//! on a disk that fails. What clauses say is not said again.
#![tactic(auto)]

#[cfg(test)]
mod commits;
#[cfg(test)]
mod directories;
#[cfg(test)]
mod ports;
#[cfg(test)]
mod sectors;
#[cfg(test)]
mod volumes;
