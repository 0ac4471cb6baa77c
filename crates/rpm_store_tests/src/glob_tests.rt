//! Globs.

use rpm_select::glob;

// A glob, a text, and whether it matches the whole text.
const GLOBS: &[(&[u8], &[u8], bool)] = &[
    (b"", b"", true),
    (b"", b"a", false),
    (b"*", b"", true),
    (b"*", b"abc", true),
    (b"a*", b"a", true),
    (b"*a", b"ba", true),
    (b"*a", b"ab", false),
    (b"a?c", b"abc", true),
    (b"a?c", b"ac", false),
    (b"?", b"", false),
    (b"*ab*ba", b"abba", true),
    (b"*ab*ba", b"aba", false),
    (b"*a*a*a*b", b"aaaaaaaaaaaaaaaaaaaaaaaaaaaaaaaaaaaa", false),
    (b"[]a]", b"]", true),
    (b"[]a]", b"a", true),
    (b"[]a]", b"b", false),
    (b"[!a]", b"b", true),
    (b"[!a]", b"a", false),
    (b"[^a]", b"a", false),
    (b"[!]a]", b"]", false),
    (b"[a-]", b"-", true),
    (b"[a-]", b"b", false),
    (b"[-a]", b"-", true),
    (b"[a-c]", b"b", true),
    (b"[z-a]", b"m", false),
    (b"[a", b"[a", true),
    (b"[]", b"[]", true),
    (b"[!]", b"[!]", true),
    (b"\\", b"\\", true),
    (b"\\*", b"*", true),
    (b"\\*", b"a", false),
    (b"[\\]", b"\\", true),
    (b"[\\]]", b"\\]", true),
    (b"*[[[b", b"a[[[[b", true),
    (b"*[[[b", b"[[[[c", false),
    (b"[a][b", b"a[b", true),
    (b"*[a]*[", b"[aa[", true),
    (b"lib*-[0-9]*.x86_64", b"libx-1.0-2.x86_64", true),
];

// The first row that is matched otherwise.
fn other_glob() -> Option<usize> {
    for (row, &(pattern, text, expected)) in GLOBS.iter().enumerate() {
        if glob(pattern, text) != expected {
            return Some(row);
        }
    }
    None
}

#[test]
fn globs_match_whole_texts(rt: HostRuntime) {
    assert_eq!(rt; other_glob(), None);
}
