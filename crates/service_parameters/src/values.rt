//! The values of service parameters, by their keys.
ghost use Rattle.std.specs.Prelude.{◌≡◌, ◌++◌, ◌==◌, ◌≤◌, Some, None, IfOk, OnOk, if◌then◌else◌, option_map, length, nat_le};
ghost use Rattle.std.specs.List.{flat_map, list_any, prefix_len};
ghost use Rattle.line_text.specs.Numbers.{number_within};
ghost use Rattle.service_parameters.specs.Items.{all_octets};
ghost use Rattle.service_parameters.specs.Values.{is_list, item_octets, list_value, mandatory_value, named_value, no_value, protocol_of, short, value_of, with_key, with_number};

use crate::items::{Item, read_items};
use crate::keys::{Key, read_key};
use line_text::read_u16;
use std::alloc::{AllocError, Global};
use zone_tokens::{read_base64, read_ipv4_word, read_ipv6_word};

/// The value of a key, as data have it, from the octets of its text (RFC 9460 sections 7 and 8). None if it isn't of the form
/// of the key.
#[tactic(auto, unfolding(crate::specs::Values::value_of))]
pub(crate) fn read_value(
    alloc: Global,
    key: Key,
    octets: &[u8],
) -> Result<Option<Vec<u8>>, AllocError>
    ensures { IfOk result (λ value. option_map (λ v. v.items) value ≡ value_of key octets.now) }
{
    match key {
        Key::Named(number) => read_named_value(alloc, number, octets),
        Key::Numbered(_) => Ok(Some(Vec::from_slice(alloc, octets)?)),
    }
}

/// The same, of a key that is written by its name.
fn read_named_value(alloc: Global, key: u16, octets: &[u8]) -> Result<Option<Vec<u8>>, AllocError>
    ensures { IfOk result (λ value. option_map (λ v. v.items) value ≡ named_value key octets.now) }
{
    if is_list(key) {
        return match read_items(alloc, octets)? {
            Some(items) => read_list(alloc, key, items.as_slice()),
            None => Ok(None),
        };
    }
    match key {
        2 | 8 => Ok(no_value(alloc, octets)),
        3 => read_port(alloc, octets),
        5 => read_base64(alloc, octets),
        _ => Ok(Some(Vec::from_slice(alloc, octets)?)),
    }
}

/// Whether the value of a key is a list.
fn is_list(key: u16) -> bool
    ensures { result ≡ is_list key }
{
    key == 0 || key == 1 || key == 4 || key == 6
}

/// The value of a key that has none.
fn no_value(alloc: Global, octets: &[u8]) -> Option<Vec<u8>>
    ensures { option_map (λ v. v.items) result ≡ no_value octets.now }
{
    match octets {
        [] => Some(Vec::new(alloc)),
        [_, ..] => None,
    }
}

/// The number of a port.
fn read_port(alloc: Global, octets: &[u8]) -> Result<Option<Vec<u8>>, AllocError>
    ensures { IfOk result (λ value. option_map (λ v. v.items) value
        ≡ option_map short (number_within 10 65535 octets.now)) }
{
    let Some(port) = read_u16(octets) else {
        return Ok(None);
    };
    let mut value = Vec::new(alloc);
    push_short(port, &mut value)?;
    Ok(Some(value))
}

/// Appends a number of 16 bits, the high octet first.
pub(crate) fn push_short(number: u16, out: &mut Vec<u8>) -> Result<(), AllocError>
    ensures { OnOk result (out.new.items ≡ out.old.items ++ short number) }
{
    out.push((number / 256) as u8)?;
    out.push((number % 256) as u8)?;
    Ok(())
}

/// The value that the items of a list write.
fn read_list(alloc: Global, key: u16, items: &[Item]) -> Result<Option<Vec<u8>>, AllocError>
    ensures { IfOk result (λ value. option_map (λ v. v.items) value ≡ list_value key items.now) }
{
    if key == 0 {
        return read_mandatory(alloc, items);
    }
    read_items_of(alloc, key, items)
}

/// The octets of the items of a list that isn't one of keys.
#[tactic(auto, using(crate::proofs::ValueFacts::item_read, crate::proofs::ValueFacts::item_not))]
fn read_items_of(alloc: Global, key: u16, items: &[Item]) -> Result<Option<Vec<u8>>, AllocError>
    ensures { IfOk result
        (λ value. option_map (λ v. v.items) value ≡ all_octets (item_octets key) items.now) }
{
    let mut value = Vec::new(alloc);
    for item in items {
        let Some(octets) = read_item(alloc, key, item.octets())? else {
            return Ok(None);
        };
        value.extend_from_slice(octets.as_slice())?;
    }
    Ok(Some(value))
}

/// The octets of an item; none if it isn't one of its key.
#[tactic(auto, unfolding(crate::specs::Values::item_octets))]
fn read_item(alloc: Global, key: u16, item: &[u8]) -> Result<Option<Vec<u8>>, AllocError>
    ensures { IfOk result (λ octets. option_map (λ o. o.items) octets ≡ item_octets key item.now) }
{
    match key {
        1 => read_protocol(alloc, item),
        4 => match read_ipv4_word(item) {
            Some(address) => Ok(Some(Vec::from_slice(alloc, &address)?)),
            None => Ok(None),
        },
        _ => match read_ipv6_word(alloc, item)? {
            Some(address) => Ok(Some(Vec::from_slice(alloc, &address)?)),
            None => Ok(None),
        },
    }
}

/// The identifier of a protocol behind its length; none if it hasn't 1 to 255 octets.
fn read_protocol(alloc: Global, item: &[u8]) -> Result<Option<Vec<u8>>, AllocError>
    ensures { IfOk result (λ octets. option_map (λ o. o.items) octets ≡ protocol_of item.now) }
{
    if item.is_empty() || item.len() > 255 {
        return Ok(None);
    }
    let mut octets = Vec::new(alloc);
    octets.push(item.len() as u8)?;
    octets.extend_from_slice(item)?;
    Ok(Some(octets))
}

/// The keys that are mandatory, in ascending order.
fn read_mandatory(alloc: Global, items: &[Item]) -> Result<Option<Vec<u8>>, AllocError>
    ensures { IfOk result (λ value. option_map (λ v. v.items) value ≡ mandatory_value items.now) }
{
    let mut keys = Vec::new(alloc);
    for item in items {
        if !add_key(read_key(item.octets()), &mut keys)? {
            return Ok(None);
        }
    }
    let mut value = Vec::new(alloc);
    push_shorts(keys.as_slice(), &mut value)?;
    Ok(Some(value))
}

/// Appends numbers of 16 bits.
fn push_shorts(numbers: &[u16], out: &mut Vec<u8>) -> Result<(), AllocError>
    ensures { OnOk result (out.new.items ≡ out.old.items ++ flat_map short numbers.now) }
{
    for number in numbers {
        push_short(*number, out)?;
    }
    Ok(())
}

/// Adds a key to those that are mandatory, and gives whether it can be: `mandatory` itself can't, and none twice.
fn add_key(key: Option<Key>, keys: &mut Vec<u16>) -> Result<bool, AllocError>
    ensures { IfOk result (λ is. (if is then Some keys.new.items else None)
        ≡ with_key key keys.old.items) }
{
    match key {
        Some(key) => add_number(key.number(), keys),
        None => Ok(false),
    }
}

/// The same, of a key by its number.
fn add_number(number: u16, keys: &mut Vec<u16>) -> Result<bool, AllocError>
    ensures { IfOk result (λ is. (if is then Some keys.new.items else None)
        ≡ with_number number keys.old.items) }
{
    if number == 0 {
        return Ok(false);
    }
    if has(keys.as_slice(), number) {
        return Ok(false);
    }
    let at = place_of(number, keys.as_slice());
    keys.insert(at, number)?;
    Ok(true)
}

/// Whether a number is among others.
fn has(numbers: &[u16], number: u16) -> bool
    ensures { result ≡ list_any (λ n. n == number) numbers.now }
{
    numbers.iter().any(|other| *other == number)
}

/// How many numbers stand before the first that is greater.
fn place_of(number: u16, numbers: &[u16]) -> usize
    ensures value { result ≡ prefix_len (λ m. nat_le m number) numbers.now }
    ensures within { result ≤ length numbers.now }
{
    numbers.iter().take_while(|other| **other <= number).count()
}
