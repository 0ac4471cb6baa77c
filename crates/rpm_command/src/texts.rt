//! What the program says of itself.

/// The text of `--help`, at most 24 lines of at most 80 columns.
pub(crate) const HELP: &[u8] = b"\
Usage: rpm MODE [OPTION ..] [ARGUMENT ..]
       rpmdb MODE [--dbpath DIR]
Modes of rpm:
  -q, --query                print the packages that the arguments pick
  -V, --verify -a --nofiles  print the requirements that no package meets
  --addpkg FILE ..           add package files
  --replacepkg NUMBER FILE   put a package file in the place of a package
  --erasepkg NUMBER ..       erase packages
Modes of rpmdb: --initdb, --rebuilddb, --importdb, --exportdb, --verifydb,
  --checkfiles, --order, --exercise NUMBER
Modes of both: --help, --version
A query is by labels, as bash or bash-5.1-2, or by a selection: -a, --all;
  -f, --file; -g, --group; -p, --package; --whatprovides, --whatrequires,
  --whatconflicts, --whatobsoletes, --whatrecommends; --triggeredby;
  --whatdir; --tid; --querybynumber
Options of a query:
  -l, --list                 print the files of each package
  --qf, --queryformat TEXT   print by a format: text with tags, as '%{NAME}\\n'
  --after NUMBER             pass over the packages up to this number
  --noindex                  look at each package, and write nothing
The database is in the folder of --dbpath DIR, without it in /var/lib/rpm.
Status: 0 done; 1 to 250 so many arguments failed; 251 the words or a format;
  252 the database; 253 input or output; 254 memory
Pages: man rpm-q, man rpmdb
";

/// The text of `--version`, which is the newest one of docs/CHANGELOG.md.
pub(crate) const VERSION: &[u8] = b"juzkarg 1.7.0\n";
