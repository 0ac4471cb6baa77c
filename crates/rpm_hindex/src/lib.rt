//! The index `Hindex.db`: which packages have a key, as a multiset of rows (kind, key, number, place). The layout is
//! this project's own.
//!
//! A unit is 16 bytes; numbers are four bytes, the lowest first. Unit 0 has `RpmH`, version 2, the generation at
//! which the index is sealed, and a count of buckets, which is a power of two; unit 1 the first unit after all
//! records, how many records the chains hold and how many units these have. From unit 2 on stands one word for each
//! bucket, and after them the records: a unit of next, kind × 2^28 + key length, number and place, and then the key,
//! padded with zeros. Next and the buckets' words name the first unit of a record, or are 0. The bucket of a key is
//! the 32-bit FNV-1a hash of its kind's byte and its bytes, modulo the count of buckets.
#![tactic(auto)]

mod chain;
mod change;
mod faults;
mod heads;
mod hits;
mod image;
mod index;
mod kept_rows;
mod parts;
mod patches;
mod piece;
mod plan;
mod prepare;
mod reads;
mod records;
mod row_search;
mod rows;
mod spots;
mod writes;

pub use faults::{FindFault, IndexDiskFault, PrepareFault, RewriteFault};
pub use hits::{Hit, Hits};
pub use index::Hindex;
pub use plan::IndexPlan;
pub use records::index_units;
pub use rows::Rows;
