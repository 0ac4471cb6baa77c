//! The modes and the states of files.

ghost use Rattle.std.specs.Prelude.{◌≡◌, ◌≤◌};
ghost use Rattle.rpm_qfeval.specs.Prelude.{fstate, has, kind_letter, letter_if, perms, third_letter};

/// Whether a number has a bit.
pub fn has(number: u64, bit: u64) -> bool
    ensures { result ≡ has bit number }
{
    number & bit != 0
}

fn kind_letter(kind: u64) -> u8
    ensures { result ≡ kind_letter kind }
{
    match kind {
        8 => b'-',
        4 => b'd',
        10 => b'l',
        1 => b'p',
        12 => b's',
        2 => b'c',
        6 => b'b',
        _ => b'?',
    }
}

fn letter_if(set: bool, letter: u8) -> u8
    ensures { result ≡ letter_if set letter }
{
    if set { letter } else { b'-' }
}

fn third_letter(special: bool, x: bool, small: u8) -> u8
    requires { 97 ≤ small }
    ensures { result ≡ third_letter special x small }
{
    if special {
        if x { small } else { small - 32 }
    } else {
        letter_if(x, b'x')
    }
}

/// The mode of a file, as `ls -l` prints it. The low sixteen bits alone count.
pub fn perms(number: u64) -> [u8; 10]
    ensures { result ≡ perms number }
{
    let mode = number % 65_536;
    [
        kind_letter(mode / 4_096),
        letter_if(has(mode, 0o400), b'r'),
        letter_if(has(mode, 0o200), b'w'),
        third_letter(has(mode, 0o4000), has(mode, 0o100), b's'),
        letter_if(has(mode, 0o040), b'r'),
        letter_if(has(mode, 0o020), b'w'),
        third_letter(has(mode, 0o2000), has(mode, 0o010), b's'),
        letter_if(has(mode, 0o004), b'r'),
        letter_if(has(mode, 0o002), b'w'),
        third_letter(has(mode, 0o1000), has(mode, 0o001), b't'),
    ]
}

/// The state of a file in words.
pub fn fstate(number: u64) -> &'static [u8]
    ensures { result.now ≡ fstate number }
{
    match number {
        0 => b"normal",
        1 => b"replaced",
        2 => b"not installed",
        3 => b"net shared",
        4 => b"wrong color",
        _ => b"(unknown)",
    }
}
