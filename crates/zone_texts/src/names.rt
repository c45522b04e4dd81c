//! The names of files that are named within others.
ghost use Rattle.std.specs.Prelude.{◌≡◌, map, IfOk, OnOk, string_bytes};
ghost use Rattle.std.specs.List.{fold};
ghost use Rattle.zone_texts.specs.FileNames.{begin, ends_with_own, entered, joined, leaves, name_beside, parts, path_of, stays};

use std::alloc::{AllocError, Global};

/// The name of a file that another one names: one that doesn't begin with `/` is relative to the folder of that. Dots are resolved by
/// the names alone, so that a file that includes itself is known by its name, however that is written: `.` stays where it is, and `..`
/// leaves the folder before it. No folder is opened: where a folder is a link, `..` behind it leads back to where the link stands.
/// Fails only for lack of memory.
#[tactic(auto, unfolding(crate::specs::FileNames::name_beside))]
pub fn name_beside(alloc: Global, file: &str, named: &str) -> Result<String, AllocError>
    ensures { IfOk result (λ name. string_bytes name ≡ name_beside file.now named.now) }
{
    let path = resolved(alloc, file, named)?;
    let mut name = path_of(alloc, path.as_slice())?;
    if named.ends_with('/') && !name.as_str().ends_with('/') {
        name.push_str("/")?;
    }
    Ok(name)
}

/// The parts of that name.
fn resolved<'n>(alloc: Global, file: &'n str, named: &'n str) -> Result<Vec<&'n str>, AllocError>
    ensures { IfOk result (λ path. map (λ part. part.now) path.items
        ≡ fold entered (begin file.now named.now) (parts named.now)) }
{
    let mut path = begin(alloc, file, named)?;
    let named = parts(alloc, named)?;
    for part in named.as_slice() {
        enter(&mut path, part)?;
    }
    Ok(path)
}

/// The folder in which a name begins that stands in a file.
fn begin<'n>(alloc: Global, file: &'n str, named: &str) -> Result<Vec<&'n str>, AllocError>
    ensures { IfOk result
        (λ path. map (λ part. part.now) path.items ≡ begin file.now named.now) }
{
    if named.starts_with('/') {
        let mut path = Vec::new(alloc);
        path.push("")?;
        return Ok(path);
    }
    let mut path = parts(alloc, file)?;
    path.pop();
    Ok(path)
}

/// The parts of a path, between its slashes.
fn parts<'n>(alloc: Global, path: &'n str) -> Result<Vec<&'n str>, AllocError>
    ensures { IfOk result (λ found. map (λ part. part.now) found.items ≡ parts path.now) }
{
    path.split('/').collect(alloc)
}

/// Enters a part of a path behind others.
fn enter<'n>(path: &mut Vec<&'n str>, part: &'n str) -> Result<(), AllocError>
    ensures { OnOk result (map (λ part. part.now) path.new.items
        ≡ entered (map (λ part. part.now) path.old.items) part.now) }
{
    if stays(part) {
        return Ok(());
    }
    if leaves(part) && ends_with_own(path.as_slice()) {
        path.pop();
        return Ok(());
    }
    path.push(part)?;
    Ok(())
}

/// Whether a part stands for the folder where it is.
fn stays(part: &str) -> bool
    ensures { result ≡ stays part.now }
{
    part.is_empty() || part == "."
}

/// Whether a part leaves the folder where it is.
fn leaves(part: &str) -> bool
    ensures { result ≡ leaves part.now }
{
    part == ".."
}

/// Whether the last of these parts is a folder by a name of its own, which `..` leaves.
fn ends_with_own(path: &[&str]) -> bool
    ensures { result ≡ ends_with_own (map (λ part. part.now) path.now) }
{
    match path.last() {
        Some(part) => !(stays(part) || leaves(part)),
        None => false,
    }
}

/// The path of these parts, of which the first is empty where it begins with `/`; the folder where the program runs, if there are none.
fn path_of(alloc: Global, path: &[&str]) -> Result<String, AllocError>
    ensures { IfOk result
        (λ name. string_bytes name ≡ path_of (map (λ part. part.now) path.now)) }
{
    if path.is_empty() {
        return String::from_str(alloc, ".");
    }
    let path = joined(alloc, path)?;
    if path.is_empty() {
        return String::from_str(alloc, "/");
    }
    Ok(path)
}

/// These parts with slashes between them.
#[tactic(auto, using(crate::proofs::FileNames::joined_so))]
fn joined(alloc: Global, path: &[&str]) -> Result<String, AllocError>
    ensures { IfOk result
        (λ name. string_bytes name ≡ joined (map (λ part. part.now) path.now)) }
{
    path.join(alloc, "/")
}
