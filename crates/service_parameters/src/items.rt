//! Lists with commas between their items.
ghost use Rattle.std.specs.Prelude.{◌≡◌, IfOk, option_map};
ghost use Rattle.service_parameters.specs.Items.{items_of};

use std::alloc::{AllocError, Global};
use std::marker::Model;

/// An item of a list. Contracts see it as its octets.
#[derive(Drop)]
pub(crate) struct Item {
    octets: Vec<u8>,
}

impl Model for Item {
    ghost use Rattle.std.specs.Prelude.{ℕ, List};

    ghost Value = { List ℕ };

    ghost view = { λ i. i.octets.items };
}

impl Item {
    /// The octets of the item.
    pub(crate) fn octets(&self) -> &[u8]
        ensures { result.now ≡ self.now }
    {
        self.octets.as_slice()
    }
}

/// Cuts octets at their commas, and takes the backslash from those commas and backslashes that have one in front (RFC 9460
/// appendix A.1). None if a backslash stands before another octet or at the end.
#[tactic(auto, using(crate::proofs::ItemFacts::octet_more, crate::proofs::ItemFacts::item_more, crate::proofs::ItemFacts::begins, crate::proofs::ItemFacts::ends))]
pub(crate) fn read_items(alloc: Global, octets: &[u8]) -> Result<Option<Vec<Item>>, AllocError>
    ensures { IfOk result (λ items. option_map (λ i. i.items) items ≡ items_of octets.now) }
{
    let mut items = Vec::new(alloc);
    let mut item = Vec::new(alloc);
    let mut is_escaped = false;
    for octet in octets {
        if is_escaped {
            if *octet != b',' && *octet != b'\\' {
                return Ok(None);
            }
            item.push(*octet)?;
            is_escaped = false;
        } else if *octet == b'\\' {
            is_escaped = true;
        } else if *octet == b',' {
            items.push(Item { octets: item })?;
            item = Vec::new(alloc);
        } else {
            item.push(*octet)?;
        }
    }
    if is_escaped {
        return Ok(None);
    }
    items.push(Item { octets: item })?;
    Ok(Some(items))
}
