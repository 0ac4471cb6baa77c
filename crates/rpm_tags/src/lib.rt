//! What a tag says of a header: names of tags, the values of stored and computed tags, and the keys
//! by which packages are found.
//!
//! The names, their numbers and what each tag holds are rpm's. Nothing here takes memory, and no
//! text is copied: a computed text is handed out in parts that are borrowed from the header.
#![tactic(auto)]

mod digits;
mod dirs;
mod files;
mod joined;
mod key_iter;
mod kind;
mod labels;
mod needed;
pub mod numbers;
mod stored;
mod tag;
mod texts;
mod values;
mod wanted;

pub use files::{FileIter, Files, files_in};
pub use joined::Joined;
pub use key_iter::{Key, KeyIter, keys};
pub use kind::Kind;
pub use needed::{Dependency, DependencyIter, Tags, dependencies};
pub use rpm_header::{PlacesRoom, TextPlaces};
pub use stored::{
    NumberIter, Numbers, TextIter, Texts, first_number, first_text, numbers_in, texts_in,
};
pub use tag::{Tag, name_of, tag_of};
pub use texts::ValueTexts;
pub use values::{Class, TagValue, value};
pub use wanted::has_file;
