//! The tests of the crates that stand on no file: headers, tags, package files, versions, blocks, command lines,
//! formats and graphs.
//!
//! There is nothing else here. Each of the crates below promises what it does in its contracts; a test shows by
//! values from outside that the promise is the one that was meant, and that a call answers where memory is ample.
#![tactic(auto)]

#[cfg(test)]
mod blocks;
#[cfg(test)]
mod building;
#[cfg(test)]
mod commands;
#[cfg(test)]
mod entries;
#[cfg(test)]
mod fixtures;
#[cfg(test)]
mod formats;
#[cfg(test)]
mod graphs;
#[cfg(test)]
mod headers;
#[cfg(test)]
mod keys;
#[cfg(test)]
mod lists;
#[cfg(test)]
mod misuse;
#[cfg(test)]
mod package_faults;
#[cfg(test)]
mod packages;
#[cfg(test)]
mod printing;
#[cfg(test)]
mod tags;
#[cfg(test)]
mod trees;
#[cfg(test)]
mod values;
#[cfg(test)]
mod versions;
#[cfg(test)]
mod words;
