//! The line that closes a command on standard error.

ghost use Rattle.std.specs.Prelude.{◌≡◌, []};
ghost use Rattle.rpm_print.specs.Prelude.{closing, fault_text, fixed_line, inner, number_line, reason_text, rule_text, word_at, usage_line, word_told, Writes};

use itoa::Buffer;
use rpm_db::{Damage, Reason};
use rpm_effects::{Why, put_pieces};
use rpm_outside::{Buffered, Failed, Sink, put_all};
use rpm_qfparse::{FormatFault, FormatKind};
use rpm_words::{Words, WordsFault, WordsKind};

#[tactic(auto, unfolding(crate::specs::Closing::reason_text))]
fn reason_text(reason: Reason) -> &'static [u8]
    ensures { result.now ≡ reason_text reason }
{
    match reason {
        Reason::BadMagic => b"file magic",
        Reason::BadVersion => b"version",
        Reason::BadPages => b"slot pages",
        Reason::BadSlot => b"slot magic",
        Reason::BadNumber => b"package number",
        Reason::BadRange => b"block range",
        Reason::SameNumber => b"number used twice",
        Reason::Overlap => b"blocks overlap",
    }
}

/// Writes the line of a text and a number.
fn put_number<E: Sink>(err: &mut E, text: &[u8], number: u128) -> Result<(), Failed>
    ensures { Writes E.Sink err.old err.new (number_line text.now number) result }
{
    let mut digits = Buffer::new();
    put_pieces(err, &[text, digits.format(number).as_bytes(), b"\n"])
}

/// Writes where `Packages.db` is damaged, and how.
fn put_damage<E: Sink>(err: &mut E, damage: Damage) -> Result<(), Failed>
    ensures { Writes E.Sink err.old err.new (closing [] (Why.Damaged damage)) result }
{
    let mut digits = Buffer::new();
    let offset = digits.format(damage.offset).as_bytes();
    let reason = reason_text(damage.reason);
    put_pieces(
        err,
        &[
            b"rpm: Packages.db is damaged at byte ",
            offset,
            b": ",
            reason,
            b"\n",
        ],
    )
}

/// What is told of a rule that the words break.
#[tactic(auto, unfolding(crate::specs::Closing::rule_text))]
fn rule_text(kind: WordsKind) -> &'static [u8]
    ensures { result.now ≡ rule_text kind }
{
    match kind {
        WordsKind::UnknownOption => b"rpm: unknown option: ",
        WordsKind::TwoModes => b"rpm: more than one command: ",
        WordsKind::NoMode => b"rpm: no command given",
        WordsKind::MissingArgument => b"rpm: argument missing",
        WordsKind::ExtraArgument => b"rpm: unexpected argument: ",
        WordsKind::Misplaced => b"rpm: option not valid here: ",
        WordsKind::BadNumber => b"rpm: not a number: ",
        WordsKind::BadCapability => b"rpm: not a capability: ",
        WordsKind::NoMemory => b"rpm: out of memory",
    }
}

/// The word that is told: the one that breaks the rule, and none where something is missing.
fn word_told(words: &Words, fault: WordsFault) -> &[u8]
    ensures { result.now ≡ word_told fault.kind (word_at words.now fault.word) }
{
    match fault.kind {
        WordsKind::NoMode | WordsKind::MissingArgument | WordsKind::NoMemory => b"",
        _ => words.text_at(fault.word).as_bytes(),
    }
}

/// Writes which rule the words break, and the word that breaks it.
#[tactic(auto, unfolding(crate::specs::Closing::usage_line))]
fn put_usage<'a, E: Sink>(err: &mut E, words: &'a Words, fault: WordsFault) -> Result<(), Failed>
    ensures { Writes E.Sink err.old err.new (usage_line words.now fault) result }
{
    // One lifetime for both, as the elements of an array have it.
    let rule: &'a [u8] = rule_text(fault.kind);
    let word = word_told(words, fault);
    put_pieces(err, &[rule, word, b"\n"])
}

/// What is told of a fault of a format.
#[tactic(auto, unfolding(crate::specs::Closing::fault_text))]
fn fault_text(kind: FormatKind) -> &'static [u8]
    ensures { result.now ≡ fault_text kind }
{
    match kind {
        FormatKind::TooLong => b"format too long",
        FormatKind::MissingOpen => b"{ expected after %",
        FormatKind::MissingClose => b"} expected",
        FormatKind::EmptyTag => b"empty tag name",
        FormatKind::UnknownTag => b"unknown tag",
        FormatKind::UnknownFormatter => b"unknown formatter",
        FormatKind::WidthTooLarge => b"width too large",
        FormatKind::BracketExpected => b"] expected",
        FormatKind::UnexpectedBracket => b"unexpected ]",
        FormatKind::UnexpectedBrace => b"unexpected }",
        FormatKind::NestedBracket => b"nested [",
        FormatKind::QuestionExpected => b"? expected",
        FormatKind::BraceExpected => b"{ expected",
        FormatKind::BarExpected => b"| expected",
        FormatKind::TooDeep => b"conditions too deep",
        FormatKind::NoMemory => b"out of memory",
    }
}

/// Writes what is wrong with the format, and at which byte of it.
fn put_fault<E: Sink>(err: &mut E, fault: FormatFault) -> Result<(), Failed>
    ensures { Writes E.Sink err.old err.new (closing [] (Why.BadFormat fault)) result }
{
    let mut digits = Buffer::new();
    let at = digits.format(fault.at).as_bytes();
    let text = fault_text(fault.kind);
    put_pieces(
        err,
        &[b"error: incorrect format: ", text, b" at byte ", at, b"\n"],
    )
}

/// The line of an ending of which there is one text alone, or none.
#[tactic(auto, unfolding(crate::specs::Closing::fixed_line))]
fn fixed_line(why: Why) -> &'static [u8]
    ensures { result.now ≡ fixed_line why }
{
    match why {
        Why::NumbersSpent => b"rpm: no package number is left\n",
        Why::GenerationSpent => b"rpm: no generation is left\n",
        Why::StoreFull => b"rpm: Packages.db is full\n",
        Why::IndexFull { .. } => b"rpm: Hindex.db is full\n",
        Why::LogFull { .. } => b"rpm: Hlog.db is full\n",
        Why::DiskFault => b"rpm: the database could not be read or written\n",
        Why::ShelfFault => b"rpm: input could not be read\n",
        Why::OutFault => b"rpm: output could not be written\n",
        Why::NoMemory => b"rpm: out of memory\n",
        _ => b"",
    }
}

/// Writes the line that closes an ending, or nothing where it has none. It takes no memory.
#[tactic(auto, unfolding(crate::specs::Closing::closing))]
fn put_line<E: Sink>(err: &mut E, words: &Words, why: Why) -> Result<(), Failed>
    ensures { Writes E.Sink err.old err.new (closing words.now why) result }
{
    match why {
        Why::Usage(fault) => put_usage(err, words, fault),
        Why::BadFormat(fault) => put_fault(err, fault),
        Why::Damaged(damage) => put_damage(err, damage),
        Why::BadLog { unit } => put_number(
            err,
            b"rpm: Hlog.db is damaged at byte ",
            16 * unit as u128,
        ),
        Why::BadIndex { unit } => put_number(
            err,
            b"rpm: Hindex.db is damaged at byte ",
            16 * unit as u128,
        ),
        Why::NotEmpty(held) => put_number(
            err,
            b"rpm: the database is not empty: package ",
            held as u128,
        ),
        Why::Done
        | Why::Failed(_)
        | Why::NumbersSpent
        | Why::GenerationSpent
        | Why::StoreFull
        | Why::IndexFull { .. }
        | Why::LogFull { .. }
        | Why::DiskFault
        | Why::ShelfFault
        | Why::OutFault
        | Why::ErrFault
        | Why::NoMemory => put_all(err, fixed_line(why)),
    }
}

/// Writes that line, and gives the sink behind the buffer all of it. What the buffer held is let go.
pub fn put_closing<E: Sink + Drop>(
    err: &mut Buffered<E>,
    words: &Words,
    why: Why,
) -> Result<(), Failed>
    ensures { Writes E.Sink (inner err.old) (inner err.new) (closing words.now why) result }
{
    err.clear();
    put_line(err, words, why)?;
    err.flush()
}
