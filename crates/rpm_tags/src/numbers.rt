//! The numbers of the tags that are read by number.

pub const NAME: u32 = 1000;

pub const VERSION: u32 = 1001;

pub const RELEASE: u32 = 1002;

pub const EPOCH: u32 = 1003;

pub const GROUP: u32 = 1016;

pub const ARCH: u32 = 1022;

pub const PROVIDENAME: u32 = 1047;

pub const REQUIREFLAGS: u32 = 1048;

pub const REQUIRENAME: u32 = 1049;

pub const REQUIREVERSION: u32 = 1050;

pub const CONFLICTFLAGS: u32 = 1053;

pub const CONFLICTNAME: u32 = 1054;

pub const CONFLICTVERSION: u32 = 1055;

pub const TRIGGERNAME: u32 = 1066;

pub const OBSOLETENAME: u32 = 1090;

pub const PROVIDEFLAGS: u32 = 1112;

pub const PROVIDEVERSION: u32 = 1113;

pub const OBSOLETEFLAGS: u32 = 1114;

pub const OBSOLETEVERSION: u32 = 1115;

pub const DIRINDEXES: u32 = 1116;

pub const BASENAMES: u32 = 1117;

pub const DIRNAMES: u32 = 1118;

pub const INSTALLTID: u32 = 1128;

pub const RECOMMENDNAME: u32 = 5046;

pub const RECOMMENDVERSION: u32 = 5047;

pub const RECOMMENDFLAGS: u32 = 5048;
