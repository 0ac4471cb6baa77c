//! Tests of the storage crates, of those over the database and of the objects over real files, through their public calls.
#![tactic(auto)]

#[cfg(test)]
mod beside_tests;
#[cfg(test)]
mod check_tests;
#[cfg(test)]
mod commit_tests;
#[cfg(test)]
mod db_change_tests;
#[cfg(test)]
mod db_crash_tests;
#[cfg(test)]
mod db_tests;
#[cfg(test)]
mod fixtures;
#[cfg(test)]
mod glob_tests;
#[cfg(test)]
mod group_tests;
#[cfg(test)]
mod index_change_tests;
#[cfg(test)]
mod index_fault_tests;
#[cfg(test)]
mod index_tests;
#[cfg(test)]
mod outside_tests;
#[cfg(test)]
mod plain_disk;
#[cfg(test)]
mod real_tests;
#[cfg(test)]
mod select_tests;
#[cfg(test)]
mod store_change_tests;
#[cfg(test)]
mod store_crash_tests;
#[cfg(test)]
mod watched;
