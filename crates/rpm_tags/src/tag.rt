//! Tags and their names.

ghost use Rattle.std.specs.Prelude.{◌≡◌, Some, IfSome};
ghost use Rattle.rpm_tags.specs.Prelude.{as_table, is_tag, name_in, name_of, option_copied, plain, str_eq_ignore_ascii_case, tag_in, tag_of};

/// What a value of a header is asked for by: a number that entries of the header bear, or one of
/// rpm's computed tags, whose values are put together from several entries.
#[derive(Clone, Copy, PartialEq, Eq)]
pub enum Tag {
    /// The tag of this number, which need not have a name.
    Stored(u32),
    /// Name, version, release and architecture: `N-V-R.A`.
    Nvra,
    /// The same with the epoch: `N-E:V-R.A`.
    Nevra,
    /// Epoch, version and release: `E:V-R`.
    Evr,
    /// Name, version and release: `N-V-R`.
    Nvr,
    /// The epoch as a number, 0 where the package has none.
    Epochnum,
    /// The whole path of each file.
    Filenames,
    /// The number of the package in the database.
    Dbinstance,
}

// A tag and its name.
struct Row(Tag, &'static str);

// The names by rising number, then those of the computed tags.
const TABLE: [Row; 89] = [
    Row(Tag::Stored(257), "SIGSIZE"),
    Row(Tag::Stored(261), "SIGMD5"),
    Row(Tag::Stored(269), "SHA1HEADER"),
    Row(Tag::Stored(273), "SHA256HEADER"),
    Row(Tag::Stored(1000), "NAME"),
    Row(Tag::Stored(1001), "VERSION"),
    Row(Tag::Stored(1002), "RELEASE"),
    Row(Tag::Stored(1003), "EPOCH"),
    Row(Tag::Stored(1004), "SUMMARY"),
    Row(Tag::Stored(1005), "DESCRIPTION"),
    Row(Tag::Stored(1006), "BUILDTIME"),
    Row(Tag::Stored(1007), "BUILDHOST"),
    Row(Tag::Stored(1008), "INSTALLTIME"),
    Row(Tag::Stored(1009), "SIZE"),
    Row(Tag::Stored(1010), "DISTRIBUTION"),
    Row(Tag::Stored(1011), "VENDOR"),
    Row(Tag::Stored(1014), "LICENSE"),
    Row(Tag::Stored(1015), "PACKAGER"),
    Row(Tag::Stored(1016), "GROUP"),
    Row(Tag::Stored(1018), "SOURCE"),
    Row(Tag::Stored(1019), "PATCH"),
    Row(Tag::Stored(1020), "URL"),
    Row(Tag::Stored(1021), "OS"),
    Row(Tag::Stored(1022), "ARCH"),
    Row(Tag::Stored(1023), "PREIN"),
    Row(Tag::Stored(1024), "POSTIN"),
    Row(Tag::Stored(1025), "PREUN"),
    Row(Tag::Stored(1026), "POSTUN"),
    Row(Tag::Stored(1028), "FILESIZES"),
    Row(Tag::Stored(1029), "FILESTATES"),
    Row(Tag::Stored(1030), "FILEMODES"),
    Row(Tag::Stored(1033), "FILERDEVS"),
    Row(Tag::Stored(1034), "FILEMTIMES"),
    Row(Tag::Stored(1035), "FILEDIGESTS"),
    Row(Tag::Stored(1036), "FILELINKTOS"),
    Row(Tag::Stored(1037), "FILEFLAGS"),
    Row(Tag::Stored(1039), "FILEUSERNAME"),
    Row(Tag::Stored(1040), "FILEGROUPNAME"),
    Row(Tag::Stored(1044), "SOURCERPM"),
    Row(Tag::Stored(1045), "FILEVERIFYFLAGS"),
    Row(Tag::Stored(1046), "ARCHIVESIZE"),
    Row(Tag::Stored(1047), "PROVIDENAME"),
    Row(Tag::Stored(1048), "REQUIREFLAGS"),
    Row(Tag::Stored(1049), "REQUIRENAME"),
    Row(Tag::Stored(1050), "REQUIREVERSION"),
    Row(Tag::Stored(1053), "CONFLICTFLAGS"),
    Row(Tag::Stored(1054), "CONFLICTNAME"),
    Row(Tag::Stored(1055), "CONFLICTVERSION"),
    Row(Tag::Stored(1064), "RPMVERSION"),
    Row(Tag::Stored(1065), "TRIGGERSCRIPTS"),
    Row(Tag::Stored(1066), "TRIGGERNAME"),
    Row(Tag::Stored(1067), "TRIGGERVERSION"),
    Row(Tag::Stored(1068), "TRIGGERFLAGS"),
    Row(Tag::Stored(1069), "TRIGGERINDEX"),
    Row(Tag::Stored(1080), "CHANGELOGTIME"),
    Row(Tag::Stored(1081), "CHANGELOGNAME"),
    Row(Tag::Stored(1082), "CHANGELOGTEXT"),
    Row(Tag::Stored(1085), "PREINPROG"),
    Row(Tag::Stored(1086), "POSTINPROG"),
    Row(Tag::Stored(1087), "PREUNPROG"),
    Row(Tag::Stored(1088), "POSTUNPROG"),
    Row(Tag::Stored(1090), "OBSOLETENAME"),
    Row(Tag::Stored(1095), "FILEDEVICES"),
    Row(Tag::Stored(1096), "FILEINODES"),
    Row(Tag::Stored(1097), "FILELANGS"),
    Row(Tag::Stored(1112), "PROVIDEFLAGS"),
    Row(Tag::Stored(1113), "PROVIDEVERSION"),
    Row(Tag::Stored(1114), "OBSOLETEFLAGS"),
    Row(Tag::Stored(1115), "OBSOLETEVERSION"),
    Row(Tag::Stored(1116), "DIRINDEXES"),
    Row(Tag::Stored(1117), "BASENAMES"),
    Row(Tag::Stored(1118), "DIRNAMES"),
    Row(Tag::Stored(1122), "OPTFLAGS"),
    Row(Tag::Stored(1123), "DISTURL"),
    Row(Tag::Stored(1124), "PAYLOADFORMAT"),
    Row(Tag::Stored(1125), "PAYLOADCOMPRESSOR"),
    Row(Tag::Stored(1126), "PAYLOADFLAGS"),
    Row(Tag::Stored(1128), "INSTALLTID"),
    Row(Tag::Stored(1132), "PLATFORM"),
    Row(Tag::Stored(5046), "RECOMMENDNAME"),
    Row(Tag::Stored(5047), "RECOMMENDVERSION"),
    Row(Tag::Stored(5048), "RECOMMENDFLAGS"),
    Row(Tag::Nvr, "NVR"),
    Row(Tag::Nvra, "NVRA"),
    Row(Tag::Evr, "EVR"),
    Row(Tag::Nevra, "NEVRA"),
    Row(Tag::Epochnum, "EPOCHNUM"),
    Row(Tag::Filenames, "FILENAMES"),
    Row(Tag::Dbinstance, "DBINSTANCE"),
];

fn is_same(a: &[u8], b: &[u8]) -> bool
    ensures { result ≡ str_eq_ignore_ascii_case a.now b.now }
{
    a.eq_ignore_ascii_case(b)
}

/// A name without the prefix `RPMTAG_`, in capitals or not. A second prefix stays.
fn plain(name: &[u8]) -> &[u8]
    ensures { result.now ≡ plain name.now }
{
    if name.len() >= 7 && is_same(&name[..7], b"RPMTAG_") {
        &name[7..]
    } else {
        name
    }
}

fn has_name(row: &Row, name: &[u8]) -> bool
    ensures { result ≡ str_eq_ignore_ascii_case name.now row.now.1.now }
{
    is_same(name, row.1.as_bytes())
}

fn tag_in(rows: &[Row], name: &[u8]) -> Option<Tag>
    ensures { result ≡ tag_in (as_table rows.now) name.now }
{
    for row in rows {
        if has_name(row, name) {
            return Some(row.0);
        }
    }
    None
}

fn is_tag(a: Tag, b: Tag) -> bool
    ensures { result ≡ is_tag a b }
{
    a == b
}

fn name_in(rows: &[Row], tag: Tag) -> Option<&'static str>
    ensures { option_copied result ≡ name_in (as_table rows.now) tag }
{
    for row in rows {
        if is_tag(row.0, tag) {
            return Some(row.1);
        }
    }
    None
}

/// The tag of a name: ASCII letters are the same in capitals or not, and `RPMTAG_` may stand in
/// front, once. None exactly where the table of names has it not. Compares the name with each of
/// the table's in turn, and takes no memory.
///
/// The names and numbers are rpm's.
pub fn tag_of(name: &[u8]) -> Option<Tag>
    ensures { result ≡ tag_of name.now }
{
    tag_in(&TABLE, plain(name))
}

/// The name of a tag, in capitals and without a prefix: the first that the table has, and None
/// exactly where it has none. `tag_of` gives the tag of it again. Goes over the table once.
pub fn name_of(tag: Tag) -> Option<&'static str>
    ensures value { option_copied result ≡ name_of tag }
    ensures again { IfSome result (λ name. tag_of name.now ≡ Some tag) }
{
    name_in(&TABLE, tag)
}
