//! The pieces of a glob.

ghost use Rattle.std.specs.Prelude.{◌≡◌, ◌+◌, ◌≤◌, ◌<◌, ◌∷◌, [], MatchOption, IfSome, length};
ghost use Rattle.rpm_select.specs.Prelude.{bracketed_set, first_has, first_len, is_close, is_member, is_member_range, is_turned, IsUnclosed, member_count, piece_at, piece_in, pieces, position_or_len, takes_byte, written_in};

/// What a part of a glob stands for.
#[derive(Clone, Copy)]
pub enum Piece<'a> {
    /// Any bytes.
    Star,
    /// Any one byte.
    Question,
    /// This byte.
    Byte(u8),
    /// One byte of the members, or (true) one that is none of them.
    Set(bool, &'a [u8]),
}

/// A piece, and how many bytes of the glob it is written in.
#[derive(Clone, Copy)]
struct Written<'a> {
    piece: Piece<'a>,
    size: usize,
}

/// Whether the members of a set begin with a range.
fn is_range(members: &[u8]) -> bool
    ensures { result ≡ is_member_range members.now }
{
    members.len() > 2 && members[1] == b'-'
}

/// Whether the first member is or has a byte.
fn first_has(byte: u8, members: &[u8]) -> bool
    requires { 0 < length members.now }
    ensures { result ≡ first_has byte members.now }
{
    if is_range(members) {
        members[0] <= byte && byte <= members[2]
    } else {
        byte == members[0]
    }
}

/// How many bytes the first member is written in.
fn first_len(members: &[u8]) -> usize
    requires { 0 < length members.now }
    ensures value { result ≡ first_len members.now }
    ensures within { result ≤ length members.now }
    ensures some { 0 < result }
{
    if is_range(members) { 3 } else { 1 }
}

/// Whether a byte is one of the members of a set.
fn is_member(byte: u8, members: &[u8]) -> bool
    ensures { result ≡ is_member byte members.now }
{
    let mut rest = members;
    while !rest.is_empty() {
        if first_has(byte, rest) {
            return true;
        }
        rest = &rest[first_len(rest)..];
    }
    false
}

/// Whether a piece stands for a byte.
pub fn takes(piece: Piece<'_>, byte: u8) -> bool
    ensures { result ≡ takes_byte (piece_in piece.entry) byte }
{
    match piece {
        Piece::Star => false,
        Piece::Question => true,
        Piece::Byte(other) => byte == other,
        Piece::Set(true, members) => !is_member(byte, members),
        Piece::Set(false, members) => is_member(byte, members),
    }
}

fn is_turned(rest: &[u8]) -> bool
    ensures { result ≡ is_turned rest.now }
{
    match rest {
        [b'!' | b'^', ..] => true,
        _ => false,
    }
}

/// How many bytes follow the last `]`: all of them where there is none. Goes over the glob once.
pub fn unclosed_len(glob: &[u8]) -> usize
    ensures { IsUnclosed result glob.now }
{
    let mut closed = 0;
    for (i, byte) in glob.iter().enumerate() {
        if *byte == b']' {
            closed = i + 1;
        }
    }
    glob.len() - closed
}

/// The place of the first `]`, or the length where there is none.
#[tactic(auto, using(crate::proofs::Unclosed::none_close))]
fn close_place(rest: &[u8], unclosed: usize) -> usize
    requires { IsUnclosed unclosed rest.now }
    ensures value { result ≡ position_or_len is_close rest.now }
    ensures within { result ≤ length rest.now }
{
    // After the glob's last `]` none is looked for, so that each `[` there costs one step.
    if rest.len() <= unclosed {
        return rest.len();
    }
    rest.iter().take_while(|byte| **byte != b']').count()
}

/// How many members a set has, where it has an end.
#[tactic(auto, using(crate::proofs::Unclosed::unclosed_behind))]
fn member_count(members: &[u8], unclosed: usize) -> Option<usize>
    requires { IsUnclosed unclosed members.now }
    ensures value { result ≡ member_count members.now }
    ensures within { MatchOption result (members.now ≡ members.now) (λ n. n < length members.now) }
{
    if members.is_empty() {
        return None;
    }
    let rest = &members[1..];
    let place = close_place(rest, unclosed);
    if place < rest.len() {
        Some(place + 1)
    } else {
        None
    }
}

/// The piece that a bracket begins, given what follows it.
#[tactic(auto, using(crate::proofs::Unclosed::unclosed_behind))]
fn bracketed(rest: &[u8], unclosed: usize) -> Written<'_>
    requires { IsUnclosed unclosed rest.now }
    ensures value { written_in result ≡ bracketed_set rest.now }
    ensures within { result.size ≤ length rest.now + 1 }
    ensures some { 0 < result.size }
{
    let turned = is_turned(rest);
    let members = if turned { &rest[1..] } else { rest };
    match member_count(members, unclosed) {
        None => Written {
            piece: Piece::Byte(b'['),
            size: 1,
        },
        Some(count) => Written {
            piece: Piece::Set(turned, &members[..count]),
            size: if turned { count + 3 } else { count + 2 },
        },
    }
}

/// The piece that a byte begins, given what follows it.
#[tactic(auto, unfolding(crate::specs::Glob::piece_at))]
fn piece_at(byte: u8, rest: &[u8], unclosed: usize) -> Written<'_>
    requires { IsUnclosed unclosed rest.now }
    ensures value { written_in result ≡ piece_at byte rest.now }
    ensures within { result.size ≤ length rest.now + 1 }
    ensures some { 0 < result.size }
{
    match byte {
        b'*' => Written {
            piece: Piece::Star,
            size: 1,
        },
        b'?' => Written {
            piece: Piece::Question,
            size: 1,
        },
        b'\\' => match rest {
            [] => Written {
                piece: Piece::Byte(b'\\'),
                size: 1,
            },
            [next, ..] => Written {
                piece: Piece::Byte(*next),
                size: 2,
            },
        },
        b'[' => bracketed(rest, unclosed),
        _ => Written {
            piece: Piece::Byte(byte),
            size: 1,
        },
    }
}

/// The first piece of a glob, and the glob after it. Takes as many steps as the piece has bytes.
#[tactic(auto, using(crate::proofs::Unclosed::unclosed_behind))]
pub fn next_piece(glob: &[u8], unclosed: usize) -> Option<(Piece<'_>, &[u8])>
    requires { IsUnclosed unclosed glob.now }
    ensures value { MatchOption result (pieces glob.now ≡ []) (λ cut. pieces glob.now ≡ piece_in cut.0 ∷ pieces cut.1.now) }
    ensures less { MatchOption result (glob.now ≡ []) (λ cut. length cut.1.now < length glob.now) }
    ensures unclosed { IfSome result (λ cut. IsUnclosed unclosed cut.1.now) }
{
    if glob.is_empty() {
        return None;
    }
    let first = piece_at(glob[0], &glob[1..], unclosed);
    Some((first.piece, &glob[first.size..]))
}
