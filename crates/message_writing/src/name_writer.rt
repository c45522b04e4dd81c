//! Names written into a message, with compression (RFC 1035 section 4.1.4).
ghost use Rattle.std.specs.Prelude.{◌≡◌, ◌≤◌, ◌++◌, ◌∷◌, [], drop, length, IsTrue, OnOk};
ghost use Rattle.message_writing.specs.KnownNames.{IsCut, IsRest, IsShort, cut_text, ending, labels_text};
ghost use Rattle.zone_proto.specs.Names.{IsName, wire_form, wire_length};

use crate::fingerprints::Fingerprint;
use crate::hints::{Hint, Hints};
use crate::known_names::{find, is_known, may_stand_at};
use crate::numbers::{push_label, push_pointer};
use std::alloc::AllocError;
use zone_proto::Labels;

/// How a name is written: so many of its labels, and then a pointer to where the rest stands, or its end.
#[derive(Clone, Copy, PartialEq, Eq, Debug)]
pub(crate) struct Cut {
    pub(crate) labels: usize,
    pub(crate) pointer: Option<u16>,
    /// The fingerprint of the whole name, where labels of it are written.
    pub(crate) fingerprint: Fingerprint,
}

/// How many ends of a name are compared with the one that names mostly end with. Mostly the first is it that may be; of a name of many
/// labels that are alike each may be.
const MAX_COMPARED: usize = 4;

/// Where a name is cut: before its longest end that is at one of the hinted offsets. However many labels it has, few ends are
/// compared label by label: those with the fingerprint of a hint, and up to `MAX_COMPARED` with the name that names mostly end with, so
/// that of a name that has it only the labels before it are gone through for longer ends.
pub(crate) fn cut_of(out: &[u8], hints: &Hints, name: Labels<'_>) -> Cut
    requires { IsName name }
    ensures { IsCut out.now result.labels result.pointer name.entry }
{
    let end = hints.end();
    let mut fingerprint = Fingerprint::OF_ROOT;
    let mut left = name.clone();
    let mut labels = 0usize;
    let mut compared = 0usize;
    loop {
        let here = left.clone();
        let Some(first) = left.next() else {
            break;
        };
        if compared < MAX_COMPARED && may_stand_at(out, end.offset, first) {
            compared += 1;
            if is_known(out, end.offset, here) {
                let whole = fingerprint.followed_by(end.fingerprint);
                return cut_before(out, hints.as_slice(), whole, name, labels, Some(end.offset));
            }
        }
        fingerprint = fingerprint.with(first);
        labels += 1;
    }
    cut_before(out, hints.as_slice(), fingerprint, name, labels, None)
}

/// Where a name of a fingerprint is cut that can be cut behind so many of its labels, since a pointer or nothing stands for its
/// rest: there, or before a longer end that is at one of the hinted offsets.
fn cut_before(
    out: &[u8],
    hints: &[Hint],
    fingerprint: Fingerprint,
    name: Labels<'_>,
    most: usize,
    pointer: Option<u16>,
) -> Cut
    requires most { most ≤ length name }
    requires rest { IsRest out.now pointer (drop most name) }
    ensures { IsCut out.now result.labels result.pointer name.entry }
{
    let mut left = name;
    let mut of_left = fingerprint;
    for labels in 0..most {
        if labels > 0 {
            of_left = without_first(&mut left, of_left);
        }
        if let Some(offset) = find(out, hints, of_left, &left) {
            return Cut {
                labels,
                pointer: Some(offset),
                fingerprint,
            };
        }
    }
    Cut {
        labels: most,
        pointer,
        fingerprint,
    }
}

/// Takes the first label off, if there is one, and gives the fingerprint of the rest.
fn without_first(left: &mut Labels<'_>, fingerprint: Fingerprint) -> Fingerprint
    ensures { left.new ≡ drop 1 left.old }
{
    match left.next() {
        Some(first) => fingerprint.without(first),
        None => fingerprint,
    }
}

/// Appends a name as it is cut.
#[tactic(auto, using(crate::proofs::CutTexts::cut_put))]
pub(crate) fn push_cut(out: &mut Vec<u8>, cut: Cut, name: Labels<'_>) -> Result<(), AllocError>
    requires name { IsName name }
    requires pointer { IsShort cut.pointer }
    ensures { OnOk result (out.new.items
        ≡ out.old.items ++ cut_text cut.labels cut.pointer name.entry) }
{
    push_labels(out, cut.labels, name)?;
    push_ending(out, cut.pointer)
}

/// Appends so many labels of a name, each behind its length.
pub(crate) fn push_labels(
    out: &mut Vec<u8>,
    count: usize,
    name: Labels<'_>,
) -> Result<(), AllocError>
    requires { IsName name }
    ensures { OnOk result (out.new.items ≡ out.old.items ++ labels_text count name.entry) }
{
    let mut left = name;
    for _ in 0..count {
        match left.next() {
            Some(label) => push_label(out, label)?,
            None => {}
        }
    }
    Ok(())
}

/// Whether labels are the same, the case of letters included.
pub(crate) fn same_labels(labels: Labels<'_>, others: Labels<'_>) -> bool
    ensures { IsTrue result → labels.entry ≡ others.entry }
{
    let mut left = others;
    for label in labels {
        match left.next() {
            Some(other) => {
                if label != other {
                    return false;
                }
            }
            None => return false,
        }
    }
    left.next().is_none()
}

/// Appends a pointer, or the end of a name.
fn push_ending(out: &mut Vec<u8>, pointer: Option<u16>) -> Result<(), AllocError>
    requires { IsShort pointer }
    ensures { OnOk result (out.new.items ≡ out.old.items ++ ending pointer) }
{
    match pointer {
        None => {
            out.push(0)?;
            Ok(())
        }
        Some(offset) => push_pointer(out, offset),
    }
}

/// Appends a name without pointers.
pub(crate) fn push_wire(out: &mut Vec<u8>, name: Labels<'_>) -> Result<(), AllocError>
    requires { IsName name }
    ensures { OnOk result (out.new.items ≡ out.old.items ++ wire_form name.entry) }
{
    for label in name {
        push_label(out, label)?;
    }
    out.push(0)?;
    Ok(())
}

/// How many octets a name takes without pointers.
pub(crate) fn wire_length(name: Labels<'_>) -> usize
    requires { IsName name }
    ensures length { result ≡ wire_length name.entry }
    ensures short { result ≤ 255 }
{
    let mut octets = 1usize;
    for label in name {
        octets += label.len() + 1;
    }
    octets
}
