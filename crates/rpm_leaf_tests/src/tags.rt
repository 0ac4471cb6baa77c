//! Names of tags, and kinds of keys.

use rpm_tags::{Kind, Tag, name_of, tag_of};

// rpm's names of stored tags, in runs of numbers that follow each other.
const RUNS: &[(u32, &[&str])] = &[
    (257, &["SIGSIZE"]),
    (261, &["SIGMD5"]),
    (269, &["SHA1HEADER"]),
    (273, &["SHA256HEADER"]),
    (
        1000,
        &[
            "NAME",
            "VERSION",
            "RELEASE",
            "EPOCH",
            "SUMMARY",
            "DESCRIPTION",
            "BUILDTIME",
            "BUILDHOST",
            "INSTALLTIME",
            "SIZE",
            "DISTRIBUTION",
            "VENDOR",
        ],
    ),
    (1014, &["LICENSE", "PACKAGER", "GROUP"]),
    (
        1018,
        &[
            "SOURCE", "PATCH", "URL", "OS", "ARCH", "PREIN", "POSTIN", "PREUN", "POSTUN",
        ],
    ),
    (1028, &["FILESIZES", "FILESTATES", "FILEMODES"]),
    (
        1033,
        &[
            "FILERDEVS",
            "FILEMTIMES",
            "FILEDIGESTS",
            "FILELINKTOS",
            "FILEFLAGS",
        ],
    ),
    (1039, &["FILEUSERNAME", "FILEGROUPNAME"]),
    (
        1044,
        &[
            "SOURCERPM",
            "FILEVERIFYFLAGS",
            "ARCHIVESIZE",
            "PROVIDENAME",
            "REQUIREFLAGS",
            "REQUIRENAME",
            "REQUIREVERSION",
        ],
    ),
    (1053, &["CONFLICTFLAGS", "CONFLICTNAME", "CONFLICTVERSION"]),
    (
        1064,
        &[
            "RPMVERSION",
            "TRIGGERSCRIPTS",
            "TRIGGERNAME",
            "TRIGGERVERSION",
            "TRIGGERFLAGS",
            "TRIGGERINDEX",
        ],
    ),
    (1080, &["CHANGELOGTIME", "CHANGELOGNAME", "CHANGELOGTEXT"]),
    (
        1085,
        &["PREINPROG", "POSTINPROG", "PREUNPROG", "POSTUNPROG"],
    ),
    (1090, &["OBSOLETENAME"]),
    (1095, &["FILEDEVICES", "FILEINODES", "FILELANGS"]),
    (
        1112,
        &[
            "PROVIDEFLAGS",
            "PROVIDEVERSION",
            "OBSOLETEFLAGS",
            "OBSOLETEVERSION",
            "DIRINDEXES",
            "BASENAMES",
            "DIRNAMES",
        ],
    ),
    (
        1122,
        &[
            "OPTFLAGS",
            "DISTURL",
            "PAYLOADFORMAT",
            "PAYLOADCOMPRESSOR",
            "PAYLOADFLAGS",
        ],
    ),
    (1128, &["INSTALLTID"]),
    (1132, &["PLATFORM"]),
    (
        5046,
        &["RECOMMENDNAME", "RECOMMENDVERSION", "RECOMMENDFLAGS"],
    ),
];

const COMPUTED: &[(Tag, &str)] = &[
    (Tag::Nvra, "NVRA"),
    (Tag::Nevra, "NEVRA"),
    (Tag::Evr, "EVR"),
    (Tag::Nvr, "NVR"),
    (Tag::Epochnum, "EPOCHNUM"),
    (Tag::Filenames, "FILENAMES"),
    (Tag::Dbinstance, "DBINSTANCE"),
];

/// Whether a tag has this name, and is read by it.
fn is_named(tag: Tag, name: &str) -> bool {
    tag_of(name.as_bytes()) == Some(tag) && name_of(tag) == Some(name)
}

/// Whether the tags from this number on have these names, and the next one none: no run ends where another begins.
fn is_run(first: u32, names: &[&str]) -> bool {
    let mut number = first;
    for &name in names {
        if !is_named(Tag::Stored(number), name) {
            return false;
        }
        number = number.wrapping_add(1);
    }
    name_of(Tag::Stored(number)).is_none()
}

const NAME: Option<Tag> = Some(Tag::Stored(1000));

// Spellings and what they stand for: NAME in any case, and with one prefix at most.
const SPELLINGS: &[(&str, Option<Tag>)] = &[
    ("NAME", NAME),
    ("name", NAME),
    ("RPMTAG_NAME", NAME),
    ("rpmtag_name", NAME),
    ("RpmTag_nAmE", NAME),
    ("", None),
    ("RPMTAG_", None),
    ("RPMTAG_RPMTAG_NAME", None),
    ("RPMTAGNAME", None),
    ("NAME ", None),
    ("NAM", None),
    ("NAMES", None),
];

const CODES: &[(Kind, u8)] = &[
    (Kind::Name, 1),
    (Kind::Basenames, 2),
    (Kind::Group, 3),
    (Kind::Providename, 4),
    (Kind::Requirename, 5),
    (Kind::Conflictname, 6),
    (Kind::Obsoletename, 7),
    (Kind::Triggername, 8),
    (Kind::Dirnames, 9),
    (Kind::Installtid, 10),
    (Kind::Recommendname, 11),
];

/// The first number of a run whose names are others.
fn unlike_run() -> Option<u32> {
    for &(first, names) in RUNS {
        if !is_run(first, names) {
            return Some(first);
        }
    }
    None
}

fn unlike_computed() -> Option<&'static str> {
    for &(tag, name) in COMPUTED {
        if !is_named(tag, name) {
            return Some(name);
        }
    }
    None
}

fn unlike_spelling() -> Option<&'static str> {
    for &(text, tag) in SPELLINGS {
        if tag_of(text.as_bytes()) != tag {
            return Some(text);
        }
    }
    None
}

fn unlike_code() -> Option<u8> {
    for &(kind, code) in CODES {
        if kind.code() != code {
            return Some(code);
        }
    }
    None
}

#[test]
fn names_and_codes_are_those_of_rpm(rt: HostRuntime) {
    let run = unlike_run();
    let computed = unlike_computed();
    let spelling = unlike_spelling();
    let code = unlike_code();
    assert!(rt;
        run.is_none() && computed.is_none() && spelling.is_none() && code.is_none(),
        "{run:?} {computed:?} {spelling:?} {code:?}"
    );
}
