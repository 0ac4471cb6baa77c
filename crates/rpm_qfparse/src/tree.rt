//! The tree of a format.

ghost use Rattle.std.specs.Prelude.{◌≡◌, ◌<◌, length, slice_get, Some, false};
ghost use Rattle.rpm_qfparse.specs.Prelude.{IsProper, load, parts_of_tree, Tree, tree_code, weight};

use rpm_tags::Tag;
use std::alloc::Global;
use std::marker::Model;

/// Which of a value's elements a tag prints.
#[derive(Clone, Copy, PartialEq, Eq)]
pub enum Role {
    /// The first element; in a bracket that of the present round.
    Element,
    /// The first element in each round: `=` in front of the name.
    First,
    /// How many elements there are: `#` in front of the name.
    Count,
}

/// How a tag prints an element. The names are rpm's; the first holds where none is given.
#[derive(Clone, Copy, PartialEq, Eq)]
pub enum Show {
    /// `string`: as it is.
    Plain,
    /// `hex`: a number, to the base 16.
    Hex,
    /// `octal`: a number, to the base 8.
    Octal,
    /// `perms`: the mode of a file, as `ls -l` prints it.
    Perms,
    /// `depflags`: the comparison of a dependency.
    Depflags,
    /// `fflags`: the flags of a file, a letter each.
    Fflags,
    /// `fstate`: the state of a file in words.
    Fstate,
    /// `day`: the date of a moment.
    Day,
    /// `date`: the date and the time of a moment.
    Date,
    /// `shescape`: quoted for a shell.
    Shescape,
    /// `base64`: a blob, by that alphabet.
    Base64,
    /// `arraysize`: how many elements the value has.
    Arraysize,
}

/// A tag of a format.
#[derive(Clone, Copy, PartialEq, Eq)]
pub struct TagPart {
    /// Whose value is printed.
    pub tag: Tag,
    /// Which of its elements.
    pub role: Role,
    /// Whether a text shorter than the width stands at the left, with the spaces after it: `-` in
    /// front of the width.
    pub left: bool,
    /// How many bytes are printed at least, 0 to 4,096.
    pub width: u32,
    /// How the element is printed.
    pub show: Show,
}

/// Bytes that are printed as they are. Contracts see them as a list.
#[derive(Drop)]
pub struct Bytes {
    pub(crate) bytes: Vec<u8>,
}

impl Model for Bytes {
    ghost use Rattle.std.specs.Prelude.{ℕ, List};

    ghost Value = { List ℕ };

    ghost view = { λ s. s.bytes.items };
}

impl Bytes {
    /// The bytes, at least one in a format that was read.
    pub fn as_slice(&self) -> &[u8]
        ensures { result.now ≡ self.now }
    {
        &self.bytes
    }
}

/// A part of a format.
#[cycle(parts)]
#[derive(Drop)]
pub enum Part {
    /// Literal bytes: in a format that was read all that stand side by side, so that no two texts do.
    Text(Bytes),
    /// The value of a tag.
    Tag(TagPart),
    /// Parts that are printed once for each element of their tags.
    Bracket(Parts),
    /// The parts that are printed where the header has the tag, and those where it has not: none
    /// where the format has no second branch.
    Condition(Tag, Parts, Parts),
}

/// Parts, one after the other. Contracts see them as a `Tree`, and by `parts_of_tree` as a list.
#[cycle(parts)]
#[derive(Drop)]
pub struct Parts {
    pub(crate) items: Vec<Part>,
}

impl Model for Parts {
    ghost use Rattle.rpm_qfparse.specs.Tree.{Tree};
    ghost use Rattle.rpm_qfparse.specs.inner.Coding.{tree_code};

    ghost Value = { Tree };

    ghost coded = { tree_code };

    ghost use Rattle.rpm_qfparse.specs.Tree.{weight};
    ghost use Rattle.rpm_qfparse.specs.Shape.{tree_of};

    ghost view = { λ s. tree_of s.items.items };

    ghost size = { weight };

    ghost use Rattle.rpm_qfparse.specs.laws.Falls.{tree_falls};
    ghost use Rattle.std.proofs.Common.{arith};

    ghost size_decreases = { λ a h. omega (arith, tree_falls a.items.items) };
}

impl Parts {
    ghost use Rattle.rpm_qfparse.specs.Tree.{End};

    pub(crate) fn new(alloc: Global) -> Parts
        ensures { result ≡ End }
    {
        Parts {
            items: Vec::new(alloc),
        }
    }

    /// How many parts there are, without those in them.
    pub fn len(&self) -> usize
        ensures { result ≡ length (parts_of_tree self.now) }
    {
        self.items.len()
    }

    /// The part at a place, from 0.
    pub fn at(&self, i: usize) -> &Part
        requires { i < length (parts_of_tree self.now) }
        ensures value { slice_get (parts_of_tree self.now) i ≡ Some result.now }
        ensures lighter { load result.now < weight self.now }
    {
        &self.items[i]
    }
}

/// A format that was read. Contracts see it as the tree of its parts, which is proper.
#[derive(Drop)]
pub struct Format {
    parts: Parts,
}

impl Model for Format {
    ghost Value = { Tree };

    ghost coded = { tree_code };

    ghost view = { λ s. s.parts };

    ghost invariant = { λ s. IsProper false 0 s.parts };
}

impl Format {
    pub(crate) fn new(parts: Parts) -> Format
        requires { IsProper false 0 parts }
        ensures { result ≡ parts }
    {
        Format { parts }
    }

    /// Its parts, in the order of the text.
    pub fn parts(&self) -> &Parts
        ensures value { result.now ≡ self.now }
        ensures proper { IsProper false 0 result.now }
    {
        &self.parts
    }
}
