//! Command lines that break a rule.

use crate::words::line;
use rpm_words::{WordsFault, WordsKind, read};
use std::alloc::{AllocError, Global};

// Lines with the first rule that each breaks, and the word that breaks it.
const BROKEN: &[(&str, WordsKind, u32)] = &[
    ("", WordsKind::NoMode, 0),
    ("rpmx|-qa", WordsKind::NoMode, 0),
    ("rpm", WordsKind::NoMode, 1),
    ("rpm|a|b", WordsKind::NoMode, 3),
    ("rpm|-qz|bash", WordsKind::UnknownOption, 1),
    ("rpm|-q|--list=x|a", WordsKind::UnknownOption, 2),
    ("rpm|-q5|a", WordsKind::UnknownOption, 1),
    ("rpmdb|-q", WordsKind::UnknownOption, 1),
    ("rpm|-q", WordsKind::MissingArgument, 2),
    ("rpm|-qa|--qf", WordsKind::MissingArgument, 3),
    ("rpm|--replacepkg|1", WordsKind::MissingArgument, 3),
    ("rpm|-qa|-f|x", WordsKind::TwoModes, 2),
    ("rpm|-qaf", WordsKind::TwoModes, 1),
    ("rpm|-q|--addpkg|a", WordsKind::TwoModes, 2),
    ("rpm|--after|5|--erasepkg|1", WordsKind::Misplaced, 1),
    ("rpm|--erasepkg|-l|1", WordsKind::Misplaced, 2),
    ("rpm|--replacepkg|1|a|b", WordsKind::ExtraArgument, 4),
    ("rpmdb|--initdb|a|b", WordsKind::ExtraArgument, 2),
    ("rpm|-q|--after|x|a", WordsKind::BadNumber, 3),
    ("rpm|-q|--after=|a", WordsKind::BadNumber, 2),
    ("rpm|-q|--after=4294967296|a", WordsKind::BadNumber, 2),
    ("rpmdb|--exercise|0", WordsKind::BadNumber, 2),
    ("rpmdb|--exercise|100001", WordsKind::BadNumber, 2),
    ("rpm|--erasepkg|1|a", WordsKind::BadNumber, 3),
    ("rpm|--replacepkg|a|1", WordsKind::BadNumber, 2),
    ("rpm|-q|--querybynumber|-", WordsKind::BadNumber, 3),
    ("rpm|-q|--whatrequires|libc <", WordsKind::BadCapability, 3),
    ("rpm|-q|--whatprovides|", WordsKind::BadCapability, 3),
    ("rpm|-q|--whatobsoletes|a| ", WordsKind::BadCapability, 4),
    ("rpm|-q|--tid|x", WordsKind::BadNumber, 3),
    ("rpm|-q|--whatrecommends|a <", WordsKind::BadCapability, 3),
    // Packages are verified with both options, and with no other.
    ("rpm|-Va", WordsKind::MissingArgument, 2),
    ("rpm|-V", WordsKind::MissingArgument, 2),
    ("rpm|-V|--nofiles", WordsKind::MissingArgument, 3),
    ("rpm|-Va|x", WordsKind::MissingArgument, 3),
    ("rpm|-Va|--noindex", WordsKind::Misplaced, 2),
    ("rpm|--nofiles", WordsKind::NoMode, 2),
    ("rpmdb|--checkfiles|x", WordsKind::ExtraArgument, 2),
    ("rpm|-qa|--nofiles", WordsKind::Misplaced, 2),
    ("rpm|-Va|--nofiles|x", WordsKind::ExtraArgument, 3),
    ("rpm|-Va|--nofiles|--qf|x", WordsKind::Misplaced, 3),
    ("rpm|--verify|-f|x", WordsKind::Misplaced, 2),
    ("rpm|--erasepkg|1|-a", WordsKind::Misplaced, 3),
    ("rpmdb|--order|x", WordsKind::ExtraArgument, 2),
    ("rpmdb|--order|--checkfiles", WordsKind::TwoModes, 2),
    // The texts on the program have no argument, and no option but the folder.
    ("rpm|--version|x", WordsKind::ExtraArgument, 2),
    ("rpmdb|x|--help", WordsKind::ExtraArgument, 1),
    ("rpm|--help|--version", WordsKind::TwoModes, 2),
    ("rpm|-q|--help|a", WordsKind::TwoModes, 2),
    ("rpm|--help|-a", WordsKind::Misplaced, 2),
    ("rpm|--version|-l|x", WordsKind::Misplaced, 2),
    ("rpmdb|--version|--dbpath", WordsKind::MissingArgument, 3),
    ("rpm|--help=x", WordsKind::UnknownOption, 1),
    ("rpm|-?", WordsKind::UnknownOption, 1),
    // An earlier word in front of a later one, whatever their faults.
    ("rpm|-qa|-f|-z", WordsKind::TwoModes, 2),
    ("rpm|-qa|--after=x|-f", WordsKind::BadNumber, 2),
    ("rpm|-qa|-z|-f", WordsKind::UnknownOption, 2),
    // One word with several faults.
    ("rpm|-q|-a|-fz", WordsKind::UnknownOption, 3),
    ("rpmdb|--initdb|--exercise=x", WordsKind::TwoModes, 2),
    // What a word has wrong by itself in front of what is missing, and that in front of the rest.
    ("rpmdb|--initdb|--exercise", WordsKind::TwoModes, 2),
    ("rpm|a|--qf", WordsKind::MissingArgument, 3),
    ("rpm|-l", WordsKind::NoMode, 2),
    ("rpm|--replacepkg|-l", WordsKind::Misplaced, 2),
    ("rpm|--replacepkg|a", WordsKind::MissingArgument, 3),
    ("rpm|--replacepkg|a|b|c", WordsKind::ExtraArgument, 4),
    ("rpm|-q|--after|-z", WordsKind::BadNumber, 3),
    // Of two rules that are broken one is told.
    ("rpm|-z", WordsKind::UnknownOption, 1),
    ("rpm|-q|-z", WordsKind::UnknownOption, 2),
    ("rpmdb|--initdb|a|-z", WordsKind::UnknownOption, 3),
    ("rpm|--erasepkg|-l|-z|1", WordsKind::UnknownOption, 3),
    ("rpm|-q|--after=x|-z|a", WordsKind::BadNumber, 2),
    ("rpm|-q|--whatrequires|a <|-z", WordsKind::UnknownOption, 4),
    ("rpm|-a|-f", WordsKind::TwoModes, 2),
    ("rpmdb|--initdb|--rebuilddb|a", WordsKind::TwoModes, 2),
    ("rpm|--erasepkg|-l|--addpkg|1", WordsKind::TwoModes, 3),
    ("rpm|-q|--whatrequires|a <|-f", WordsKind::TwoModes, 4),
    ("rpm|--after|x", WordsKind::BadNumber, 2),
    (
        "rpm|--replacepkg|1|a|b|--dbpath",
        WordsKind::MissingArgument,
        6,
    ),
    (
        "rpm|-q|--whatrequires|a <|--qf",
        WordsKind::MissingArgument,
        5,
    ),
    ("rpm|--replacepkg|-l|1|a|b", WordsKind::Misplaced, 2),
    ("rpm|--erasepkg|-l|x", WordsKind::Misplaced, 2),
    (
        "rpm|-q|--after|x|--whatrequires|a <",
        WordsKind::BadNumber,
        3,
    ),
];

/// The rule that a line breaks, if it breaks one.
fn fault_of(alloc: Global, text: &str) -> Result<Option<WordsFault>, AllocError> {
    let words = line(alloc, text)?;
    Ok(read(alloc, &words).err())
}

fn unlike_fault(alloc: Global) -> Option<&'static str> {
    for &(text, kind, word) in BROKEN {
        if fault_of(alloc, text) != Ok(Some(WordsFault { kind, word })) {
            return Some(text);
        }
    }
    None
}

#[test]
fn the_first_broken_rule_is_told(rt: HostRuntime) {
    let line = unlike_fault(rt.alloc());
    assert!(rt; line.is_none(), "{line:?}");
}
