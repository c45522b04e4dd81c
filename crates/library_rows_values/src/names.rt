//! Makes the calls on names.

use crate::iterators::{write_labels, write_suffixes};
use crate::write::Answer;
use library_rows_arguments::Arguments;
use std::cmp::Ordering;
use zone_proto::{Labels, LowerName, Name, RrKey};

/// Makes a call on names; those whose verb begins with `lower` are on names in lower case.
pub fn make_name_call(out: &mut Answer, verb: &str, arguments: &mut Arguments<'_>) {
    match verb.strip_prefix("lower ") {
        Some(verb) => make_lower_call(out, verb, arguments),
        None => make_mixed_call(out, verb, arguments),
    }
}

fn make_mixed_call(out: &mut Answer, verb: &str, arguments: &mut Arguments<'_>) {
    match verb {
        "parse" => out.give(Name::parse(arguments.alloc, arguments.text)),
        "labels" => out.give(Name::from_labels(arguments.take_labels())),
        "read wire" => read_wire(out, arguments),
        "copy key" => copy_key(out, arguments),
        "keys" => compare_keys(out, arguments),
        "holds" | "order" | "same" | "exactly" => compare(out, verb, arguments),
        verb => make_on_name(out, verb, arguments.take_name(), arguments),
    }
}

fn read_wire(out: &mut Answer, arguments: &mut Arguments<'_>) {
    let octets = arguments.take_octets();
    out.give(Name::from_wire(arguments.alloc, octets.as_slice()));
}

/// Writes whether a copy of a key is equal to it, and whether a key is the same as itself.
fn copy_key(out: &mut Answer, arguments: &mut Arguments<'_>) {
    let key = arguments.take_key();
    out.compare(&key, key.clone());
    if !key.same_as(&key) {
        out.say(", and not the same");
    }
}

fn compare_keys(out: &mut Answer, arguments: &mut Arguments<'_>) {
    let second = arguments.take_key();
    let first = arguments.take_key();
    out.order(first.cmp(&second));
}

/// Writes how two names stand to each other.
fn compare(out: &mut Answer, verb: &str, arguments: &mut Arguments<'_>) {
    let (second, first) = (arguments.take_name(), arguments.take_name());
    match verb {
        "holds" => out.hold(first.zone_of(&second)),
        "order" => out.order(first.cmp(&second)),
        "same" => write_sameness(out, first == second, first.partial_cmp(&second)),
        _ => out.hold(LowerName::from(first).is_exactly(&second)),
    }
}

fn compare_lower(out: &mut Answer, verb: &str, first: &LowerName, second: &LowerName) {
    match verb {
        "holds" => out.hold(first.zone_of(second)),
        "order" => out.order(first.cmp(second)),
        "shared" => out.put(&first.shared_labels(second)),
        _ => write_sameness(out, first == second, first.partial_cmp(second)),
    }
}

/// Writes whether two names are the same, and their order.
pub fn write_sameness(out: &mut Answer, are_same: bool, order: Option<Ordering>) {
    out.hold(are_same);
    out.say(", ");
    out.order(order.unwrap_or(Ordering::Less));
}

fn make_on_name(out: &mut Answer, verb: &str, name: Name, arguments: &mut Arguments<'_>) {
    match verb {
        "into_wildcard" => out.value(name.into_wildcard()),
        "converted" => out.value(Name::from(LowerName::from(name))),
        "shorten" => shorten(out, LowerName::from(name)),
        verb => look_at(out, verb, &name, arguments),
    }
}

fn shorten(out: &mut Answer, mut name: LowerName) {
    name.shorten();
    out.value(name);
}

fn look_at(out: &mut Answer, verb: &str, name: &Name, arguments: &mut Arguments<'_>) {
    match verb {
        "describe" => {
            write_kind(out, name.is_root(), name.is_wildcard());
            write_all_labels(out, name.num_labels(), name.labels());
        }
        "base" => out.give(name.base_name()),
        "prepend" => out.give(name.prepend_label(arguments.take_octets().as_slice())),
        "wire" => out.octets(name.wire_lower()),
        "copy name" => out.give(name.clone()),
        "suffixes" => {
            write_suffixes(out, name.suffixes());
            out.hold(Name::root(name.alloc()).is_root());
        }
        _ => out.give(LowerName::new(name)),
    }
}

fn make_lower_call(out: &mut Answer, verb: &str, arguments: &mut Arguments<'_>) {
    match verb {
        "parse" => out.give(LowerName::parse(arguments.alloc, arguments.text)),
        "labels" => out.give(LowerName::from_labels(arguments.take_labels())),
        "into_wildcard" => out.value(arguments.take_lower().into_wildcard()),
        "holds" | "order" | "same" | "shared" => {
            let second = arguments.take_lower();
            compare_lower(out, verb, &arguments.take_lower(), &second);
        }
        verb => make_on_lower(out, verb, &arguments.take_lower(), arguments),
    }
}

fn make_on_lower(out: &mut Answer, verb: &str, name: &LowerName, arguments: &mut Arguments<'_>) {
    match verb {
        "describe" => {
            write_kind(out, name.is_root(), name.is_wildcard());
            write_all_labels(out, name.num_labels(), name.labels());
        }
        "base" => out.give(name.base_name()),
        "prepend" => out.give(name.prepend_label(arguments.take_octets().as_slice())),
        "wire" => out.octets(name.wire_lower()),
        "ancestor" => out.give(name.ancestor(usize::try_from(arguments.take_number()).unwrap_or(
            usize::MAX,
        ))),
        "suffixes" => {
            write_suffixes(out, name.suffixes());
            out.hold(LowerName::root(name.alloc()).is_root());
        }
        _ => out.give(name.clone()),
    }
}

/// Writes whether a name is the root, and whether it is a wildcard.
fn write_kind(out: &mut Answer, is_root: bool, is_wildcard: bool) {
    if is_root {
        out.say("root, ");
    }
    if is_wildcard {
        out.say("wildcard, ");
    }
}

fn write_all_labels(out: &mut Answer, count: usize, labels: Labels<'_>) {
    out.put(&count);
    out.say(" labels");
    write_labels(out, labels);
}
