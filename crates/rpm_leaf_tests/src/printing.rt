//! What formats print of headers.

use crate::fixtures::{LIBRARY, SHELL, SNAPSHOT, bytes_of};
use rpm_header::View;
use rpm_outside::MemSink;
use rpm_qfeval::{EvalFault, print};
use rpm_qfparse::parse;
use std::alloc::{AllocError, Global};

const LIST: &[u8] = b"%|FILENAMES?{[%{FILENAMES}\\n]}:{(contains no files)\\n}|";

// Two blobs, states, modes, times in 64 bits, and flags, of a package that is called `it's`.
const ODD: &str = "00000008 00000064
    00000105 00000007 00000000 00000003
    000003e8 00000006 00000003 00000001
    000003ec 00000007 00000008 00000002
    00000405 00000002 0000000a 00000006
    00000406 00000003 00000010 00000004
    0000040a 00000005 00000018 00000007
    0000040d 00000004 00000050 00000002
    00000418 00000004 00000058 00000003
    01020369 74277300 cafe0001 02030405 89ed43ff e0004580 00000000
    00000000 00000000 04102f80 00000000 38bb0c00 00000000 f4d2ce00
    00000000 f4d41f80 00000000 ffffffff 00000001 00000000 00001051
    ffffffff 0000000c 00000002 00000000";

// Headers with a format, and what it prints.
const PRINTED: &[(&str, &[u8], &[u8])] = &[
    (
        SHELL,
        b"[%{=NAME} %{REQUIRENAME}\\n]",
        b"bash libc\nbash libtinfo\n",
    ),
    (
        LIBRARY,
        b"%|EPOCH?{%{EPOCH}:}|%{VERSION}\\n",
        b"1:1.0~rc1\n",
    ),
    (
        SNAPSHOT,
        b"%|EPOCH?{%{EPOCH}:}|%{VERSION}\\n",
        b"1.0^git1\n",
    ),
    (
        SHELL,
        b"%-6{NAME}|%6{NAME}|%2{NAME}|%8{EPOCH}\\n",
        b"bash  |  bash|bash|  (none)\n",
    ),
    (SHELL, LIST, b"/usr/bin/bash\n/usr/bin/sh\n"),
    (SNAPSHOT, LIST, b"(contains no files)\n"),
    (
        LIBRARY,
        b"%6{EPOCH}|%{FILEMODES}|%{DIRINDEXES}\\n",
        b"     1|(none)|(none)\n",
    ),
    (
        SHELL,
        b"%6{EPOCH}|%{FILEMODES}|%{DIRINDEXES}\\n",
        b"(none)|33261|0\n",
    ),
    // Without a bracket that is the first element.
    (SHELL, b"%{REQUIRENAME}%{#REQUIRENAME}", b"libc2"),
    (SHELL, b"[%{#REQUIRENAME}%{FILEMODES}]", b"233261241471"),
    // A bracket without a tag that counts is printed once.
    (
        SHELL,
        b"[%{EPOCH}][x][%{=NAME}]",
        b"(none)\n(none)\n(none)\n",
    ),
    // A tag that is missing doesn't count, nor does one in a condition.
    (
        SHELL,
        b"[%{EPOCH} %{BASENAMES}%|NAME?{ %{NAME}}|\\n]",
        b"(none) bash bash\n(none) sh (none)\n",
    ),
    (SNAPSHOT, b"[%{NAME} %{PROVIDENAME}]", b"libx libx"),
    (SHELL, b"%{DBINSTANCE} %-4{DBINSTANCE}|", b"7 7   |"),
    (SHELL, b"%-8{EPOCH}|", b"(none)  |"),
    (SHELL, b"%|EPOCH?{x}|%|NAME?{y}:{z}|%|EPOCH?{x}:{z}|", b"yz"),
    (SHELL, b"", b""),
    // Formatters.
    (
        SHELL,
        b"[%{FILEMODES:perms} %{BASENAMES}\n]%{NAME:perms}\n",
        b"-rwxr-xr-x bash\nlrwxrwxrwx sh\n(not a number)\n",
    ),
    (
        ODD,
        b"[%{FILEMODES:perms}|]",
        b"-rwsr-xr-x|drwxrwxrwt|?---------|drw---S---|",
    ),
    (ODD, b"%{FILEMODES:hex} %{FILEMODES:octal}", b"89ed 104755"),
    (
        ODD,
        b"[%{FILEMODES:arraysize}]%{#FILEMTIMES:octal}",
        b"44447",
    ),
    (ODD, b"[%{FILEFLAGS:fflags}|]", b"cnga|dcsmnglra|"),
    (ODD, b"[%{REQUIREFLAGS:depflags}|]", b">=|<||"),
    (
        ODD,
        b"[%{FILESTATES:fstate}|]",
        b"normal|replaced|not installed|net shared|wrong color|(unknown)|",
    ),
    (
        ODD,
        b"%{FILEFLAGS:shescape} %{FILEFLAGS:base64}",
        b"4177 (not a blob)",
    ),
    (
        ODD,
        b"[%{FILEMTIMES:date}\n]",
        b"Thu Jan  1 00:00:00 1970\nTue Feb 29 00:00:00 1972\nTue Feb 29 00:00:00 2000\n\
Sun Feb 28 00:00:00 2100\nMon Mar  1 00:00:00 2100\nSun Feb  7 06:28:15 2106\n(not a date)\n",
    ),
    (
        ODD,
        b"[%{FILEMTIMES:day}\n]",
        b"Thu Jan 01 1970\nTue Feb 29 1972\nTue Feb 29 2000\nSun Feb 28 2100\n\
Mon Mar 01 2100\nSun Feb 07 2106\n(not a date)\n",
    ),
    (
        ODD,
        b"%{NAME:shescape}|%12{NAME:shescape}|%-12{NAME:shescape}|",
        b"'it'\\''s'|   'it'\\''s'|'it'\\''s'   |",
    ),
    (
        ODD,
        b"%{NAME:base64} %{NAME:arraysize} %{NAME:date}",
        b"(not a blob) 1 (not a number)",
    ),
    (
        ODD,
        b"%{SIGMD5} %{SIGMD5:base64} %{SUMMARY:base64}",
        b"010203 AQID yv4=",
    ),
    (
        ODD,
        b"%{SIGMD5:shescape} %9{SIGMD5:shescape}",
        b"'010203'  '010203'",
    ),
    (
        ODD,
        b"%{SUMMARY:hex} %{SUMMARY:arraysize} %6{SUMMARY}",
        b"(not a number) 1   cafe",
    ),
    (
        ODD,
        b"[%{SIGMD5}]%{EPOCH:perms}%{#EPOCH}",
        b"010203(none)(none)",
    ),
];

// Formats of brackets whose tags have different counts, and the two counts.
const DIFFERENT: &[(&[u8], u32, u32)] = &[
    (b"x[%{NAME} %{REQUIRENAME}\\n]", 1, 2),
    (
        b"[%{EPOCH}%{BASENAMES}%{#NAME}%{=NAME}%{FILEMODES}%{DIRNAMES}%{NAME}]",
        2,
        1,
    ),
    (b"[%{NAME}][%{BASENAMES}%{NAME}][%{NAME}%{BASENAMES}]", 2, 1),
    (
        b"%|EPOCH?{[%{NAME}%{BASENAMES}]}:{[%{BASENAMES}%{NAME}]}|",
        2,
        1,
    ),
];

/// What printing a header of number 7 into a sink answers, where header and format can be read.
fn printed(
    alloc: Global,
    hex: &str,
    text: &[u8],
    sink: &mut MemSink,
) -> Result<Option<Result<(), EvalFault>>, AllocError> {
    let blob = bytes_of(alloc, hex)?;
    let Ok(view) = View::parse(&blob) else {
        return Ok(None);
    };
    match parse(alloc, text) {
        Ok(format) => Ok(Some(print(alloc, &format, &view, 7, sink))),
        Err(_) => Ok(None),
    }
}

/// Whether a format of a header has this answer and prints these bytes, into a sink that takes so many.
fn prints(
    alloc: Global,
    hex: &str,
    text: &[u8],
    room: u64,
    answer: Result<(), EvalFault>,
    want: &[u8],
) -> Result<bool, AllocError> {
    let mut sink = MemSink::new(alloc);
    sink.fail_after(room);
    let answered = printed(alloc, hex, text, &mut sink)?;
    Ok(answered == Some(answer) && sink.bytes() == want)
}

fn unlike_print(alloc: Global) -> Option<&'static [u8]> {
    for &(hex, text, want) in PRINTED {
        if prints(alloc, hex, text, 1000, Ok(()), want) != Ok(true) {
            return Some(text);
        }
    }
    None
}

/// The first format of the table whose counts aren't told before a byte is written.
fn unlike_counts(alloc: Global) -> Option<&'static [u8]> {
    for &(text, first, second) in DIFFERENT {
        let fault = EvalFault::SizesDiffer { first, second };
        if prints(alloc, SHELL, text, 1000, Err(fault), b"") != Ok(true) {
            return Some(text);
        }
    }
    None
}

#[test]
fn formats_are_printed(rt: HostRuntime) {
    let alloc = rt.alloc();
    let print = unlike_print(alloc);
    let counts = unlike_counts(alloc);
    // A sink that fails has the first bytes.
    let fault = Err(EvalFault::OutFault);
    let cut = prints(alloc, SHELL, LIST, 16, fault, b"/usr/bin/bash\n/u");
    assert!(rt;
        print.is_none() && counts.is_none() && cut == Ok(true),
        "{print:?} {counts:?} {cut:?}"
    );
}
