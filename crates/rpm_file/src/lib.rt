//! Package files and header lists, up to the payload and one header at a time.
//!
//! A package file is a lead of 96 bytes, a signature header, padding, the main header and a payload. A header list is
//! any number of headers. Each header has the eight bytes of `rpm_header::MAGIC` in front. `read_package` gives the
//! main header of a package file with those entries of the signature header after its own that an installed package
//! keeps. `next_header` gives the next header of a list as it stands, unparsed. Both read the open item of a `Shelf`
//! from where it is, and no byte after the header that they give.
#![tactic(auto)]

mod bytes;
mod fault;
mod filling;
mod list;
mod merging;
mod package;

pub use fault::{FileFault, ListFault};
pub use list::{next_header, read_header};
pub use merging::Stamp;
pub use package::{Package, read_package, read_package_with};
pub use rpm_header::HeaderFault;
