//! The headers that the exercise makes.

ghost use Rattle.std.specs.Prelude.{◌≡◌, ◌++◌, ◌∷◌, [], ◌<◌, ◌≤◌, ◌%◌, ◌+◌, length, codes, false, IfOk, OnOk, Ok};
ghost use Rattle.rpm_exercise.specs.Prelude.{data_of, file_items, generated_items, header, identity_items, IsText, laid_out, max_data, max_entries, numbered_word, provided_items, required_items, version};

use itoa::Buffer;
use rpm_header::{BuildFault, Builder, Form, TextList};
use std::alloc::{AllocError, Global};

/// A word and a number.
#[tactic(auto, using(crate::proofs::Texts::numbered_text))]
fn numbered(alloc: Global, word: &[u8], n: u32) -> Result<Vec<u8>, AllocError>
    requires { IsText word.now }
    ensures value { IfOk result (λ text. text.items ≡ numbered_word word.now n) }
    ensures text { IfOk result (λ text. IsText text.items) }
{
    let mut digits = Buffer::new();
    let mut text = Vec::new(alloc);
    text.extend_from_slice(word)?;
    text.extend_from_slice(digits.format(n).as_bytes())?;
    Ok(text)
}

/// The version of package `i`.
#[tactic(auto, using(crate::proofs::Texts::version_text))]
fn version(alloc: Global, i: u32, m: u32) -> Result<Vec<u8>, AllocError>
    ensures value { IfOk result (λ text. text.items ≡ version i m) }
    ensures text { IfOk result (λ text. IsText text.items) }
{
    let mut digits = Buffer::new();
    let mut text = Vec::new(alloc);
    text.extend_from_slice(digits.format(m).as_bytes())?;
    text.extend_from_slice(b".")?;
    text.extend_from_slice(digits.format(i % 10).as_bytes())?;
    Ok(text)
}

/// Adds its name, its version, its release and its architecture.
fn push_identity(builder: &mut Builder, name: &[u8], version: &[u8]) -> Result<(), AllocError>
    requires name { IsText name.now }
    requires version { IsText version.now }
    ensures { OnOk result (builder.new ≡ builder.old ++ identity_items name.now version.now) }
{
    builder.push_text(1000, name)?;
    builder.push_text(1001, version)?;
    builder.push_text(1002, b"1")?;
    builder.push_text(1022, b"noarch")?;
    Ok(())
}

/// A list of one text.
fn one_text(alloc: Global, text: &[u8]) -> Result<TextList, AllocError>
    requires { IsText text.now }
    ensures { IfOk result (λ texts. texts ≡ text.now ∷ []) }
{
    let mut texts = TextList::new(alloc);
    texts.add(text)?;
    Ok(texts)
}

/// A list of two texts.
fn two_texts(alloc: Global, first: &[u8], second: &[u8]) -> Result<TextList, AllocError>
    requires first { IsText first.now }
    requires second { IsText second.now }
    ensures { IfOk result (λ texts. texts ≡ first.now ∷ second.now ∷ []) }
{
    let mut texts = TextList::new(alloc);
    texts.add(first)?;
    texts.add(second)?;
    Ok(texts)
}

/// The versions of what it provides: its own with its release, and 1.
fn provided_versions(alloc: Global, version: &[u8]) -> Result<TextList, AllocError>
    requires { IsText version.now }
    ensures { IfOk result (λ texts. texts ≡ (version.now ++ codes "-1") ∷ codes "1" ∷ []) }
{
    let mut full = Vec::new(alloc);
    full.extend_from_slice(version)?;
    full.extend_from_slice(b"-1")?;
    two_texts(alloc, &full, b"1")
}

/// Adds what it provides: itself, and a capability.
fn push_provided(
    alloc: Global,
    builder: &mut Builder,
    name: &[u8],
    capability: &[u8],
    version: &[u8],
) -> Result<(), AllocError>
    requires name { IsText name.now }
    requires capability { IsText capability.now }
    requires version { IsText version.now }
    ensures { OnOk result (builder.new ≡ builder.old ++ provided_items name.now capability.now version.now) }
{
    let names = two_texts(alloc, name, capability)?;
    let versions = provided_versions(alloc, version)?;
    builder.push_texts(1047, Form::Texts, &names)?;
    builder.push_numbers(1112, Form::Int32, &[8, 8])?;
    builder.push_texts(1113, Form::Texts, &versions)
}

/// Adds what it requires: a capability, in any version.
fn push_required(alloc: Global, builder: &mut Builder, capability: &[u8]) -> Result<(), AllocError>
    requires { IsText capability.now }
    ensures { OnOk result (builder.new ≡ builder.old ++ required_items capability.now) }
{
    let names = one_text(alloc, capability)?;
    let versions = one_text(alloc, b"")?;
    builder.push_texts(1049, Form::Texts, &names)?;
    builder.push_numbers(1048, Form::Int32, &[0])?;
    builder.push_texts(1050, Form::Texts, &versions)
}

/// Adds its one file.
fn push_file(alloc: Global, builder: &mut Builder, name: &[u8]) -> Result<(), AllocError>
    requires { IsText name.now }
    ensures { OnOk result (builder.new ≡ builder.old ++ file_items name.now) }
{
    let names = one_text(alloc, name)?;
    let directories = one_text(alloc, b"/opt/")?;
    builder.push_texts(1117, Form::Texts, &names)?;
    builder.push_numbers(1116, Form::Int32, &[0])?;
    builder.push_texts(1118, Form::Texts, &directories)
}

/// The entries of package `i` with the leading number `m`.
fn entries(alloc: Global, i: u32, m: u32) -> Result<Builder, AllocError>
    requires { i < 4294967295 }
    ensures { IfOk result (λ builder. builder ≡ generated_items i m) }
{
    let name = numbered(alloc, b"pkg", i)?;
    let version = version(alloc, i, m)?;
    let provided = numbered(alloc, b"cap", i % 7)?;
    let required = numbered(alloc, b"cap", (i + 1) % 7)?;
    let file = numbered(alloc, b"f", i)?;
    let mut builder = Builder::new(alloc);
    push_identity(&mut builder, &name, &version)?;
    push_provided(alloc, &mut builder, &name, &provided, &version)?;
    push_required(alloc, &mut builder, &required)?;
    push_file(alloc, &mut builder, &file)?;
    Ok(builder)
}

/// Lays entries out that pass no limit.
fn lay_out(alloc: Global, builder: &Builder) -> Result<Vec<u8>, AllocError>
    requires entries { length builder.now ≤ max_entries }
    requires section { length (data_of false builder.now) ≤ max_data }
    ensures laid { IfOk result (λ blob. blob.items ≡ laid_out false builder.now) }
    ensures again { IfOk result (λ blob. header blob.items ≡ Ok (record { blob = blob.items; entries = builder.now })) }
{
    match builder.finish(alloc, false) {
        Ok(blob) => Ok(blob),
        Err(BuildFault::NoMemory) => Err(AllocError),
        Err(BuildFault::TooManyEntries | BuildFault::TooMuchData) => unreachable!(),
    }
}

/// The header `i` of the exercise with the leading number `m`, laid out without a region: it is named `pkgI`, has the
/// version `m.(i mod 10)`, provides itself and one of seven capabilities, requires the next of these, and has one file.
/// Read again it has exactly these entries. Takes a few small buffers, and one of the header's length, which is below
/// 512 bytes.
///
/// # Errors
///
/// `AllocError` where no memory is found.
#[tactic(auto, using(crate::proofs::Bounds::generated_within))]
pub fn generated(alloc: Global, i: u32, m: u32) -> Result<Vec<u8>, AllocError>
    requires { i < 4294967295 }
    ensures laid { IfOk result (λ blob. blob.items ≡ laid_out false (generated_items i m)) }
    ensures again { IfOk result (λ blob. header blob.items ≡ Ok (record { blob = blob.items; entries = generated_items i m })) }
{
    let builder = entries(alloc, i, m)?;
    lay_out(alloc, &builder)
}
