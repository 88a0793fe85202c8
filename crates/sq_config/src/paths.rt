ghost use Rattle.std.specs.Prelude.{◌≡◌, ◌++◌, ◌==◌, [], ◌∷◌, map, IfOk, OnOk, string_bytes};
ghost use Rattle.std.specs.List.{slice_split, list_any, join_with_byte};
ghost use Rattle.sq_config.specs.Paths;

use sq_base::Name;
use std::alloc::{AllocError, Global};

/// Whether no path holds this byte: a control byte, or one that stands for other names in patterns.
fn is_forbidden(byte: u8) -> bool
    ensures { result ≡ Paths.is_forbidden byte }
{
    byte < 0x20 || byte == 0x7F || byte == b'*' || byte == b'?' || byte == b'['
}

/// Whether some byte of a text stands in no path.
fn has_forbidden(text: &[u8]) -> bool
    ensures { result ≡ list_any Paths.is_forbidden text.now }
{
    text.iter().any(|byte| is_forbidden(*byte))
}

/// Whether a part is kept: the empty part and `.` lead nowhere.
fn is_kept(part: &str) -> bool
    ensures { result ≡ Paths.is_kept part.now }
{
    !(part == "" || part == ".")
}

/// Whether a part leads to the folder above.
fn is_above(part: &str) -> bool
    ensures { result ≡ Paths.is_above part.now }
{
    part == ".."
}

/// The parts of a path, between its slashes.
fn parts<'a>(alloc: Global, path: &'a str) -> Result<Vec<&'a str>, AllocError>
    ensures { IfOk result (λ parts. map (λ p. p.now) parts.items ≡ Paths.parts path.now) }
{
    path.split('/').collect(alloc)
}

/// The parts of a path that are kept.
fn kept_parts<'a>(alloc: Global, path: &'a str) -> Result<Vec<&'a str>, AllocError>
    ensures { IfOk result (λ kept. map (λ p. p.now) kept.items ≡ Paths.kept_parts path.now) }
{
    let parts = parts(alloc, path)?;
    let mut kept = Vec::new(alloc);
    for part in parts.as_slice() {
        if is_kept(part) {
            kept.push(*part)?;
        }
    }
    Ok(kept)
}

/// Whether some part leads to the folder above.
fn has_above(parts: &[&str]) -> bool
    ensures { result ≡ list_any Paths.is_above (map (λ p. p.now) parts.now) }
{
    for part in parts {
        if is_above(part) {
            return true;
        }
    }
    false
}

/// Whether `..` stands only before every other part.
fn goes_up_first(parts: &[&str]) -> bool
    ensures { result ≡ Paths.goes_up_first (map (λ p. p.now) parts.now) }
{
    let mut rest = parts;
    while let [part, behind @ ..] = rest {
        if !is_above(part) {
            return !has_above(behind);
        }
        rest = behind;
    }
    true
}

/// Whether a path may stand in a configuration: it is not empty, holds no control byte and none of `*`,
/// `?` and `[`, and its parts `..` stand before every other part.
pub fn is_accepted_path(alloc: Global, path: &str) -> Result<bool, AllocError>
    ensures { IfOk result (λ accepted. accepted ≡ Paths.is_accepted_path path.now) }
{
    if path.is_empty() || has_forbidden(path.as_bytes()) {
        return Ok(false);
    }
    let kept = kept_parts(alloc, path)?;
    Ok(goes_up_first(kept.as_slice()))
}

/// The folder in which a file lies: its path up to and with the last slash, and empty where there is none.
pub fn folder_of(path: &str) -> &str
    ensures { result.now ≡ Paths.folder_of path.now }
{
    match path.rfind('/') {
        Some(last) => path.split_at(last + 1).0,
        None => "",
    }
}

/// Whether a path begins with a slash.
fn is_absolute(path: &str) -> bool
    ensures { result ≡ Paths.is_absolute path.now }
{
    path.as_bytes().first() == Some(&b'/')
}

/// A path without a slash at its end.
fn without_slash(folder: &str) -> &str
    ensures { result.now ≡ Paths.without_slash folder.now }
{
    match folder.strip_suffix("/") {
        Some(rest) => rest,
        None => folder,
    }
}

/// The path of a folder itself.
fn folder_itself(folder: &str) -> &str
    ensures { result.now ≡ Paths.folder_itself folder.now }
{
    match folder {
        "" => ".",
        "/" => "/.",
        _ => without_slash(folder),
    }
}

/// A folder's path, and behind it parts with slashes between them.
#[tactic(auto, using(crate::proofs::Folders::starts_joined))]
fn with_slashes(alloc: Global, folder: &str, first: &str, rest: &[&str]) -> Result<Name, AllocError>
    ensures { IfOk result (λ path. path ≡ folder.now ++ join_with_byte 47 (first.now ∷ map (λ p. p.now) rest.now)) }
{
    let mut path = String::from_str(alloc, folder)?;
    path.push_str(first)?;
    for part in rest {
        path.push('/')?;
        path.push_str(part)?;
    }
    Ok(Name::from_string(path))
}

/// These parts in a folder.
fn in_folder(alloc: Global, folder: &str, parts: &[&str]) -> Result<Name, AllocError>
    ensures { IfOk result (λ path. path ≡ Paths.in_folder folder.now (map (λ p. p.now) parts.now)) }
{
    match parts.split_first() {
        Some((first, rest)) => with_slashes(alloc, folder, first, rest),
        None => Name::new(alloc, folder_itself(folder)),
    }
}

/// Where a path leads from a folder, which is empty or ends with a slash: its empty parts and parts `.` are
/// left out, and it is joined to the folder unless it begins with a slash. Where nothing remains, it is the
/// folder without its last slash, `.` for the empty folder, and `/.` for the root.
pub fn joined_path(alloc: Global, folder: &str, path: &str) -> Result<Name, AllocError>
    ensures { IfOk result (λ joined. joined ≡ Paths.joined_path folder.now path.now) }
{
    let kept = kept_parts(alloc, path)?;
    let start = if is_absolute(path) { "/" } else { folder };
    in_folder(alloc, start, kept.as_slice())
}
