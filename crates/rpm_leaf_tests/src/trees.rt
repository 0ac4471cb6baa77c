//! The trees of formats.

use rpm_qfparse::{Part, Parts, Role, Show, TagPart, parse};
use rpm_tags::Tag;
use std::alloc::Global;

const NAME: Tag = Tag::Stored(1000);

const EPOCH: Tag = Tag::Stored(1003);

/// Whether a part is a text of these bytes.
pub fn is_text(parts: &Parts, i: usize, text: &[u8]) -> bool {
    i < parts.len() && matches!(parts.at(i), Part::Text(bytes) if bytes.as_slice() == text)
}

/// Whether a part is this tag.
fn is_tag(parts: &Parts, i: usize, tag: TagPart) -> bool {
    i < parts.len() && matches!(parts.at(i), Part::Tag(part) if *part == tag)
}

/// A tag as it is printed where nothing else is said.
fn plain(tag: Tag, role: Role) -> TagPart {
    TagPart {
        tag,
        role,
        left: false,
        width: 0,
        show: Show::Plain,
    }
}

// Formats of one tag, with its role, whether it stands at the left, its width and its formatter.
const TAGS: &[(&[u8], Tag, Role, bool, u32, Show)] = &[
    (b"%{NAME}", NAME, Role::Element, false, 0, Show::Plain),
    (
        b"%{rpmtag_Epoch}",
        EPOCH,
        Role::Element,
        false,
        0,
        Show::Plain,
    ),
    (
        b"%{NEVRA}",
        Tag::Nevra,
        Role::Element,
        false,
        0,
        Show::Plain,
    ),
    (b"%{=NAME}", NAME, Role::First, false, 0, Show::Plain),
    (b"%{#NAME}", NAME, Role::Count, false, 0, Show::Plain),
    (b"%-6{NAME}", NAME, Role::Element, true, 6, Show::Plain),
    (b"%0005{NAME}", NAME, Role::Element, false, 5, Show::Plain),
    (
        b"%4096{NAME}",
        NAME,
        Role::Element,
        false,
        4096,
        Show::Plain,
    ),
    (b"%-{NAME}", NAME, Role::Element, true, 0, Show::Plain),
    (
        b"%{NAME:string}",
        NAME,
        Role::Element,
        false,
        0,
        Show::Plain,
    ),
    (b"%{NAME:hex}", NAME, Role::Element, false, 0, Show::Hex),
    (b"%{NAME:octal}", NAME, Role::Element, false, 0, Show::Octal),
    (b"%{NAME:perms}", NAME, Role::Element, false, 0, Show::Perms),
    (
        b"%{NAME:depflags}",
        NAME,
        Role::Element,
        false,
        0,
        Show::Depflags,
    ),
    (
        b"%{NAME:fflags}",
        NAME,
        Role::Element,
        false,
        0,
        Show::Fflags,
    ),
    (
        b"%{NAME:fstate}",
        NAME,
        Role::Element,
        false,
        0,
        Show::Fstate,
    ),
    (b"%{NAME:day}", NAME, Role::Element, false, 0, Show::Day),
    (b"%{NAME:date}", NAME, Role::Element, false, 0, Show::Date),
    (
        b"%{NAME:shescape}",
        NAME,
        Role::Element,
        false,
        0,
        Show::Shescape,
    ),
    (
        b"%{NAME:base64}",
        NAME,
        Role::Element,
        false,
        0,
        Show::Base64,
    ),
    (
        b"%{NAME:arraysize}",
        NAME,
        Role::Element,
        false,
        0,
        Show::Arraysize,
    ),
];

/// Whether a format is this tag alone.
fn is_one_tag(alloc: Global, text: &[u8], want: TagPart) -> bool {
    match parse(alloc, text) {
        Ok(format) => format.parts().len() == 1 && is_tag(format.parts(), 0, want),
        Err(_) => false,
    }
}

/// A condition with nothing in it.
fn is_empty_condition(part: &Part) -> bool {
    matches!(part, Part::Condition(tag, first, second) if *tag == EPOCH && first.len() == 0 && second.len() == 0)
}

/// A space, the first name and a condition.
fn is_bracket(part: &Part) -> bool {
    match part {
        Part::Bracket(inner) => {
            inner.len() == 3
                && is_text(inner, 0, b" ")
                && is_tag(inner, 1, plain(NAME, Role::First))
                && is_empty_condition(inner.at(2))
        }
        _ => false,
    }
}

/// A bracket around this text.
fn is_bracket_of(part: &Part, text: &[u8]) -> bool {
    matches!(part, Part::Bracket(inner) if inner.len() == 1 && is_text(inner, 0, text))
}

/// A bracket where there is an epoch, and else a text and the epoch.
fn is_condition(part: &Part) -> bool {
    match part {
        Part::Condition(tag, first, second) => {
            *tag == EPOCH
                && first.len() == 1
                && is_bracket_of(first.at(0), b"x")
                && second.len() == 2
                && is_text(second, 0, b"y")
                && is_tag(second, 1, plain(EPOCH, Role::Element))
        }
        _ => false,
    }
}

const NESTED: &[u8] = b"%{NAME}-%%\\n[ %{=NAME}%|EPOCH?{}|]a%|EPOCH?{[x]}:{y%{EPOCH}}|b";

/// Whether the parts are those of the nested format.
fn are_nested(parts: &Parts) -> bool {
    parts.len() == 6
        && is_tag(parts, 0, plain(NAME, Role::Element))
        && is_text(parts, 1, b"-%\n")
        && is_bracket(parts.at(2))
        && is_text(parts, 3, b"a")
        && is_condition(parts.at(4))
        && is_text(parts, 5, b"b")
}

fn is_nested(alloc: Global) -> bool {
    match parse(alloc, NESTED) {
        Ok(format) => are_nested(format.parts()),
        Err(_) => false,
    }
}

fn unlike_tag(alloc: Global) -> Option<&'static [u8]> {
    for &(text, tag, role, left, width, show) in TAGS {
        let want = TagPart {
            tag,
            role,
            left,
            width,
            show,
        };
        if !is_one_tag(alloc, text, want) {
            return Some(text);
        }
    }
    None
}

#[test]
fn formats_are_trees(rt: HostRuntime) {
    let tag = unlike_tag(rt.alloc());
    let nested = is_nested(rt.alloc());
    assert!(rt; tag.is_none() && nested, "{tag:?} {nested}");
}
