//! Command lines that are read. The words of a line are parted by bars.

use crate::words::line;
use rpm_words::{Ask, Chosen, Mode, Span, read};
use std::alloc::{AllocError, Global};

// Lines with their mode, their selection, whether files are listed, the word and the byte at which a format begins,
// and the words that are arguments.
const COMMANDS: &[(&str, Mode, Chosen, bool, Option<(u32, u32)>, &[u32])] = &[
    ("rpm|-qa", Mode::Query, Chosen::All, false, None, &[]),
    (
        "rpm|-qa|--|-f|--",
        Mode::Query,
        Chosen::All,
        false,
        None,
        &[3, 4],
    ),
    (
        "rpm|--query|-q|-|| ",
        Mode::Query,
        Chosen::Label,
        false,
        None,
        &[3, 4, 5],
    ),
    ("rpm|a|-qf|-f", Mode::Query, Chosen::Path, false, None, &[1]),
    (
        "rpm|--qf|-z|-lq|a",
        Mode::Query,
        Chosen::Label,
        true,
        None,
        &[4],
    ),
    (
        "rpm|-qal|--qf=b|--qf|--",
        Mode::Query,
        Chosen::All,
        false,
        Some((4, 0)),
        &[],
    ),
    (
        "rpm|--queryformat=x|-q|--whatprovides|a = 1",
        Mode::Query,
        Chosen::Provides,
        false,
        Some((1, 14)),
        &[4],
    ),
    (
        "rpm|--replacepkg|1|a",
        Mode::Replacepkg,
        Chosen::Label,
        false,
        None,
        &[2, 3],
    ),
    (
        "rpmdb|--exercise|1|--exercise=100000",
        Mode::Exercise(100_000),
        Chosen::Label,
        false,
        None,
        &[],
    ),
    (
        "rpm|-q|--whatdir|/usr/bin/",
        Mode::Query,
        Chosen::Directory,
        false,
        None,
        &[3],
    ),
    (
        "rpm|--tid|6|-q",
        Mode::Query,
        Chosen::Tid,
        false,
        None,
        &[2],
    ),
    (
        "rpm|-q|--whatrecommends|a = 1",
        Mode::Query,
        Chosen::Recommends,
        false,
        None,
        &[3],
    ),
    (
        "rpm|-Va|--nofiles",
        Mode::Verify,
        Chosen::All,
        false,
        None,
        &[],
    ),
    (
        "rpm|--verify|--nofiles|--all",
        Mode::Verify,
        Chosen::All,
        false,
        None,
        &[],
    ),
    (
        "rpmdb|--order",
        Mode::Order,
        Chosen::Label,
        false,
        None,
        &[],
    ),
    (
        "rpmdb|--checkfiles",
        Mode::Checkfiles,
        Chosen::Label,
        false,
        None,
        &[],
    ),
    (
        "rpmdb|--importdb",
        Mode::Importdb,
        Chosen::Label,
        false,
        None,
        &[],
    ),
    (
        "rpm|--version|--dbpath|d",
        Mode::Version,
        Chosen::Label,
        false,
        None,
        &[],
    ),
    (
        "rpmdb|--help|--help",
        Mode::Help,
        Chosen::Label,
        false,
        None,
        &[],
    ),
];

fn has_arguments(ask: &Ask, arguments: &[u32]) -> bool {
    if ask.arguments() as usize != arguments.len() {
        return false;
    }
    for k in 0..ask.arguments() {
        if arguments.get(k as usize).copied() != Some(ask.argument(k)) {
            return false;
        }
    }
    true
}

fn is_at(format: Option<Span>, at: Option<(u32, u32)>) -> bool {
    match (format, at) {
        (Some(span), Some((word, from))) => span.word == word && span.from == from,
        (format, at) => format.is_none() && at.is_none(),
    }
}

/// Whether a command is this one.
fn is_like(
    ask: &Ask,
    mode: Mode,
    chosen: Chosen,
    lists: bool,
    format: Option<(u32, u32)>,
    arguments: &[u32],
) -> bool {
    ask.mode() == mode
        && ask.chosen() == chosen
        && ask.lists() == lists
        && is_at(ask.format(), format)
        && has_arguments(ask, arguments)
}

/// The command that a line is read as, if it is one.
fn asked(alloc: Global, text: &str) -> Result<Option<Ask>, AllocError> {
    let words = line(alloc, text)?;
    Ok(read(alloc, &words).ok())
}

// Lines with the number that packages come after, and whether the index is left alone.
const AFTER: &[(&str, u32, bool)] = &[
    ("rpm|-q|a", 0, false),
    ("rpm|-q|--after=5|a", 5, false),
    ("rpm|-q|--after|05|a|--noindex", 5, true),
    (
        "rpm|-q|--after|7|--after|4294967295|a",
        4_294_967_295,
        false,
    ),
    ("rpm|--noindex|--noindex|-qa|--after=1|--after=0", 0, true),
];

/// Whether a line has this number, and leaves the index alone or not.
fn has_after(alloc: Global, text: &str, after: u32, noindex: bool) -> Result<bool, AllocError> {
    match asked(alloc, text)? {
        Some(ask) => Ok(ask.after() == after && ask.noindex() == noindex),
        None => Ok(false),
    }
}

fn unlike_command(alloc: Global) -> Option<&'static str> {
    for &(text, mode, chosen, lists, format, arguments) in COMMANDS {
        let is_same = match asked(alloc, text) {
            Ok(Some(ask)) => is_like(&ask, mode, chosen, lists, format, arguments),
            _ => false,
        };
        if !is_same {
            return Some(text);
        }
    }
    None
}

fn unlike_after(alloc: Global) -> Option<&'static str> {
    for &(text, after, noindex) in AFTER {
        if has_after(alloc, text, after, noindex) != Ok(true) {
            return Some(text);
        }
    }
    None
}

#[test]
fn commands_are_read(rt: HostRuntime) {
    let command = unlike_command(rt.alloc());
    let after = unlike_after(rt.alloc());
    assert!(rt;
        command.is_none() && after.is_none(),
        "{command:?} {after:?}"
    );
}
