//! Globs.

ghost use Rattle.std.specs.Prelude.{◌≡◌};
ghost use Rattle.rpm_select.specs.Prelude.{glob, IsUnclosed, LeavesUnclosed, MoveIs};

use crate::piece::{Piece, next_piece, takes, unclosed_len};

// What a glob and a text come to, one piece further.
enum Move<'a> {
    // Both are at their end.
    Done,
    // A star, and the glob after it.
    Starred(&'a [u8]),
    // A piece took a byte: what is left of both.
    Taken(&'a [u8], &'a [u8]),
    // The text is at its end, and a piece that takes a byte isn't.
    Short,
    // The glob is at its end and the text isn't, or the piece doesn't take the byte.
    Stuck,
}

fn step<'a>(glob: &'a [u8], unclosed: usize, text: &'a [u8]) -> Move<'a>
    requires { IsUnclosed unclosed glob.now }
    ensures step { MoveIs glob.now text.now result }
    ensures unclosed { LeavesUnclosed unclosed result }
{
    match (next_piece(glob, unclosed), text) {
        (None, []) => Move::Done,
        (None, _) => Move::Stuck,
        (Some((Piece::Star, behind)), _) => Move::Starred(behind),
        (Some(_), []) => Move::Short,
        (Some((piece, behind)), [byte, rest @ ..]) => {
            if takes(piece, *byte) {
                Move::Taken(behind, rest)
            } else {
                Move::Stuck
            }
        }
    }
}

/// Whether a glob matches the whole of a text: `*` stands for any bytes, `?` for one byte, `[set]` for one byte of
/// the set, and `\` takes the next byte for itself.
///
/// Takes no memory. From the last star on the text is tried at one place after the other, and earlier stars are never
/// tried again. So it takes at most as many steps as the pattern has bytes for each byte of the text and once more.
#[tactic(auto, unfolding(crate::specs::Glob::glob))]
pub fn glob(pattern: &[u8], text: &[u8]) -> bool
    ensures { result ≡ glob pattern.now text.now }
{
    let unclosed = unclosed_len(pattern);
    let mut behind = pattern;
    let mut left = text;
    let mut back: Option<(&[u8], &[u8])> = None;
    loop {
        match step(behind, unclosed, left) {
            Move::Done => return true,
            Move::Short => return false,
            Move::Starred(rest) => {
                behind = rest;
                back = Some((rest, left));
            }
            Move::Taken(rest, more) => {
                behind = rest;
                left = more;
            }
            Move::Stuck => match back {
                None => return false,
                Some((rest, tail)) => {
                    if tail.is_empty() {
                        return false;
                    }
                    behind = rest;
                    left = &tail[1..];
                    back = Some((rest, left));
                }
            },
        }
    }
}
