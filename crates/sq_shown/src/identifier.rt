//! The identifiers that written files give to names of SQL.

ghost use Rattle.std.specs.Prelude.{◌≡◌, ◌++◌, ◌∷◌, ◌<◌, ◌≤◌, ◌+◌, ◌^◌, length, IfOk, OnOk, map, flat_map, nat_eq, bytes_eq, count_by, codes, IsUtf8};
ghost use Rattle.std.specs.List.{list_any, ends_with};
ghost use Rattle.sq_shown.specs.Identifiers.{constant_name, ended, ends_with_any, freed, in_schema, is_keyword, is_taken, keyword_freed, last_after, last_part, lowered, model_identifier, numbered, package_name, pascal, pascal_word, raised, singular, with_letter, with_number, without_last, word_byte, words};

use sq_base::{List, Name};
use std::alloc::{AllocError, Global};

/// The keywords of Go.
const GO_KEYWORDS: [&str; 25] = [
    "break",
    "case",
    "chan",
    "const",
    "continue",
    "default",
    "defer",
    "else",
    "fallthrough",
    "for",
    "func",
    "go",
    "goto",
    "if",
    "import",
    "interface",
    "map",
    "package",
    "range",
    "return",
    "select",
    "struct",
    "switch",
    "type",
    "var",
];

/// What the written methods name themselves.
const NAMES_IN_USE: [&str; 32] = [
    "ctx", "q", "db", "err", "row", "rows", "items", "i", "result", "arg", "sql", "context",
    "time", "json", "uuid", "pq", "pqtype", "driver", "fmt", "string", "int16", "int32", "int64",
    "float32", "float64", "bool", "byte", "error", "nil", "append", "true", "false",
];

// Puts a word that ends to the words, where it has a byte.
fn push_ended(all: &mut List<List<u8>>, word: List<u8>) -> Result<(), AllocError>
    ensures { OnOk result (all.new ≡ all.old ++ ended word) }
{
    if word.as_slice().is_empty() {
        return Ok(());
    }
    all.push(word)
}

// The words of a name.
fn words(alloc: Global, name: &[u8]) -> Result<List<List<u8>>, AllocError>
    ensures { IfOk result (λ all. all ≡ words name.now) }
{
    let mut all = List::new(alloc);
    let mut word = List::new(alloc);
    for byte in name {
        if byte.is_ascii_alphanumeric() {
            word.push(*byte)?;
        } else {
            push_ended(&mut all, word)?;
            word = List::new(alloc);
        }
    }
    push_ended(&mut all, word)?;
    Ok(all)
}

// Appends a text with its first byte raised.
fn push_raised(out: &mut List<u8>, text: &[u8]) -> Result<(), AllocError>
    ensures { OnOk result (out.new ≡ out.old ++ raised text.now) }
{
    let Some((first, rest)) = text.split_first() else {
        return Ok(());
    };
    out.push(first.to_ascii_uppercase())?;
    out.extend_from_slice(rest)
}

// Appends a text with its first byte lowered.
fn push_lowered(out: &mut List<u8>, text: &[u8]) -> Result<(), AllocError>
    ensures { OnOk result (out.new ≡ out.old ++ lowered text.now) }
{
    let Some((first, rest)) = text.split_first() else {
        return Ok(());
    };
    out.push(first.to_ascii_lowercase())?;
    out.extend_from_slice(rest)
}

// Appends a word of an identifier.
fn push_pascal_word(out: &mut List<u8>, word: &[u8]) -> Result<(), AllocError>
    ensures { OnOk result (out.new ≡ out.old ++ pascal_word word.now) }
{
    if word == b"id".as_slice() {
        return out.extend_from_slice(b"ID");
    }
    push_raised(out, word)
}

// Appends the words of an identifier.
fn push_pascal_words(out: &mut List<u8>, words: &[List<u8>]) -> Result<(), AllocError>
    ensures { OnOk result (out.new ≡ out.old ++ flat_map pascal_word words.now) }
{
    for word in words {
        push_pascal_word(out, word.as_slice())?;
    }
    Ok(())
}

// The text with this letter before it, where it is empty or begins with a digit.
fn with_letter(alloc: Global, letter: u8, text: List<u8>) -> Result<List<u8>, AllocError>
    ensures { IfOk result (λ name. name ≡ with_letter letter text) }
{
    match text.as_slice().first() {
        Some(first) if !first.is_ascii_digit() => Ok(text),
        _ => {
            let mut name = List::new(alloc);
            name.push(letter)?;
            name.extend_from_slice(text.as_slice())?;
            Ok(name)
        }
    }
}

// The bytes of an identifier.
#[tactic(auto, unfolding(crate::specs::Identifiers::pascal))]
fn pascal_bytes(alloc: Global, name: &[u8]) -> Result<List<u8>, AllocError>
    ensures { IfOk result (λ identifier. identifier ≡ pascal name.now) }
{
    let words = words(alloc, name)?;
    let mut joined = List::new(alloc);
    push_pascal_words(&mut joined, words.as_slice())?;
    with_letter(alloc, b'X', joined)
}

// The name with these bytes, where they are UTF-8.
fn name_of(alloc: Global, bytes: List<u8>) -> Result<Name, AllocError>
    ensures { IfOk result (λ name. IsUtf8 bytes → name ≡ bytes) }
{
    let text = String::from_utf8_lossy(alloc, bytes.as_slice())?;
    Ok(Name::from_string(text))
}

/// The identifier of a field, a model or an enumeration.
pub fn pascal(alloc: Global, name: &[u8]) -> Result<Name, AllocError>
    ensures { IfOk result (λ identifier. identifier ≡ pascal name.now) }
{
    let identifier = pascal_bytes(alloc, name)?;
    name_of(alloc, identifier)
}

// The text without its last bytes.
fn without_last(text: &[u8], count: usize) -> &[u8]
    ensures { result.now ≡ without_last count text.now }
{
    &text[..text.len().saturating_sub(count)]
}

// Whether a text ends with one of these.
fn ends_with_any(text: &[u8], ends: &[&[u8]]) -> bool
    ensures { result ≡ ends_with_any (map (λ end. end.now) ends.now) text.now }
{
    for end in ends {
        if text.ends_with(*end) {
            return true;
        }
    }
    false
}

// The singular of a table's name.
fn singular(alloc: Global, name: &[u8]) -> Result<List<u8>, AllocError>
    ensures { IfOk result (λ one. one ≡ singular name.now) }
{
    if name.ends_with(b"ies") && 4 < name.len() {
        let mut one = List::from_slice(alloc, without_last(name, 3))?;
        one.push(b'y')?;
        return Ok(one);
    }
    if ends_with_any(name, &[b"sses", b"shes", b"ches", b"xes"]) {
        return List::from_slice(alloc, without_last(name, 2));
    }
    if ends_with_any(name, &[b"ss", b"us", b"is"]) {
        return List::from_slice(alloc, name);
    }
    if name.ends_with(b"s") {
        return List::from_slice(alloc, without_last(name, 1));
    }
    List::from_slice(alloc, name)
}

// The name behind its schema's name, where that is not `public`.
fn in_schema(alloc: Global, schema: &[u8], name: List<u8>) -> Result<List<u8>, AllocError>
    ensures { IfOk result (λ full. full ≡ in_schema schema.now name) }
{
    if schema == b"public".as_slice() {
        return Ok(name);
    }
    let mut full = List::from_slice(alloc, schema)?;
    full.push(b'_')?;
    full.extend_from_slice(name.as_slice())?;
    Ok(full)
}

/// The identifier of a table's model.
#[tactic(auto, unfolding(crate::specs::Identifiers::model_identifier))]
pub fn model_identifier(alloc: Global, schema: &Name, name: &Name) -> Result<Name, AllocError>
    ensures { IfOk result (λ identifier. identifier ≡ model_identifier schema.now name.now) }
{
    let one = singular(alloc, name.as_bytes())?;
    let full = in_schema(alloc, schema.as_bytes(), one)?;
    pascal(alloc, full.as_slice())
}

// How many of these names are equal to this one.
fn count_of(names: &[Name], name: &Name) -> usize
    ensures count { result ≡ count_by (λ other. bytes_eq other name.now) names.now }
    ensures within { result ≤ length names.now }
{
    let mut count = 0;
    for other in names {
        if other.as_bytes() == name.as_bytes() {
            count += 1;
        }
    }
    count
}

// The identifier with its number, where so many equal ones stand before it.
fn with_number(alloc: Global, identifier: &Name, earlier: u64) -> Result<Name, AllocError>
    requires { earlier + 1 < 2 ^ 64 }
    ensures { IfOk result (λ name. name ≡ with_number identifier.now earlier) }
{
    if earlier == 0 {
        return identifier.copy(alloc);
    }
    let number = (earlier + 1).to_string(alloc)?;
    let mut text = String::from_str(alloc, identifier.as_str())?;
    text.push_str("_")?;
    text.push_str(number.as_str())?;
    Ok(Name::from_string(text))
}

/// The identifier of a field that stands after fields with these identifiers. It looks at each of
/// them, of which there are at most as many as a table has columns.
#[tactic(auto, unfolding(crate::specs::Identifiers::numbered))]
pub fn numbered(alloc: Global, earlier: &[Name], identifier: &Name) -> Result<Name, AllocError>
    ensures { IfOk result (λ name. name ≡ numbered earlier.now identifier.now) }
{
    with_number(alloc, identifier, count_of(earlier, identifier) as u64)
}

// Whether a name is one of these.
fn is_one_of(name: &[u8], names: &[&str]) -> bool
    ensures { result ≡ list_any (bytes_eq name.now) (map (λ other. other.now) names.now) }
{
    for other in names {
        if name == other.as_bytes() {
            return true;
        }
    }
    false
}

// Whether a name is a keyword of Go.
fn is_keyword(name: &[u8]) -> bool
    ensures { result ≡ is_keyword name.now }
{
    is_one_of(name, &GO_KEYWORDS)
}

// Whether a parameter or a constant may not have this name.
fn is_taken(name: &[u8]) -> bool
    ensures { result ≡ is_taken name.now }
{
    is_keyword(name) || is_one_of(name, &NAMES_IN_USE)
}

// A name that is taken gets a last `_`.
fn freed(mut name: List<u8>) -> Result<List<u8>, AllocError>
    ensures { IfOk result (λ free. free ≡ freed name) }
{
    if is_taken(name.as_slice()) {
        name.push(b'_')?;
    }
    Ok(name)
}

/// The name of the constant that holds a query's text.
#[tactic(auto, unfolding(crate::specs::Identifiers::constant_name))]
pub fn constant_name(alloc: Global, query: &Name) -> Result<List<u8>, AllocError>
    ensures { IfOk result (λ name. name ≡ constant_name query.now) }
{
    let mut name = List::new(alloc);
    push_lowered(&mut name, query.as_bytes())?;
    freed(name)
}

// The part that has ended, or the one before it where this one has no byte.
fn last_of(before: List<u8>, part: List<u8>) -> List<u8>
    ensures { result ≡ last_after before (ended part) }
{
    if part.as_slice().is_empty() {
        before
    } else {
        part
    }
}

// The last part of a text between slashes that isn't empty.
fn last_part(alloc: Global, text: &[u8]) -> Result<List<u8>, AllocError>
    ensures { IfOk result (λ part. part ≡ last_part text.now) }
{
    let mut last = List::new(alloc);
    let mut part = List::new(alloc);
    for byte in text {
        if *byte == b'/' {
            last = last_of(last, part);
            part = List::new(alloc);
        } else {
            part.push(*byte)?;
        }
    }
    Ok(last_of(last, part))
}

// The byte, where it may stand in a word, else `_`.
fn word_byte(byte: u8) -> u8
    ensures { result ≡ word_byte byte }
{
    if byte.is_ascii_alphanumeric() || byte == b'_' {
        byte
    } else {
        b'_'
    }
}

// The text with `_` for each byte that may not stand in a word.
fn word_bytes(alloc: Global, text: &[u8]) -> Result<List<u8>, AllocError>
    ensures { IfOk result (λ word. word ≡ map word_byte text.now) }
{
    let mut word = List::new(alloc);
    for byte in text {
        word.push(word_byte(*byte))?;
    }
    Ok(word)
}

// A name that is a keyword gets a last `_`.
fn keyword_freed(mut name: List<u8>) -> Result<List<u8>, AllocError>
    ensures { IfOk result (λ free. free ≡ keyword_freed name) }
{
    if is_keyword(name.as_slice()) {
        name.push(b'_')?;
    }
    Ok(name)
}

// The bytes of the name of a package.
#[tactic(auto, unfolding(crate::specs::Identifiers::package_name))]
fn package_bytes(alloc: Global, out: &[u8]) -> Result<List<u8>, AllocError>
    ensures { IfOk result (λ name. name ≡ package_name out.now) }
{
    let part = last_part(alloc, out)?;
    let word = word_bytes(alloc, part.as_slice())?;
    let begun = with_letter(alloc, b'_', word)?;
    keyword_freed(begun)
}

/// The name of the Go package whose files stand in the folder `out`, which is taken as the
/// configuration has it: `./gen/my-db/` gives `my_db`, `1a` gives `_1a`, `go` gives `go_`, and `.`
/// gives `_`.
pub fn package_name(alloc: Global, out: &str) -> Result<Name, AllocError>
    ensures { IfOk result (λ name. name ≡ package_name out.now) }
{
    let name = package_bytes(alloc, out.as_bytes())?;
    name_of(alloc, name)
}
