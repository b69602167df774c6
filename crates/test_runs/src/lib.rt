//! Tests of the libraries below, by their public calls alone. So those libraries are proved without
//! tests of their own.
#![tactic(auto)]

#[cfg(test)]
mod cuts;
#[cfg(test)]
mod devices;
#[cfg(test)]
mod documents;
#[cfg(test)]
mod in_memory;
#[cfg(test)]
mod registers;
#[cfg(test)]
mod requests;
#[cfg(test)]
mod sinks;
#[cfg(test)]
mod tables;
