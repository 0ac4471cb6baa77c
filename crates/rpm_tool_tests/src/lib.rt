//! Tests of the commands that change packages, and of whole command lines, in memory and on real files.
#![tactic(auto)]

#[cfg(test)]
mod changes;
#[cfg(test)]
mod crashes;
#[cfg(test)]
mod edge;
#[cfg(test)]
mod fixtures;
#[cfg(test)]
mod folders;
#[cfg(test)]
mod headers;
#[cfg(test)]
mod runs;
#[cfg(test)]
mod several;
