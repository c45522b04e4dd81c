//! The additional section of a referral, with DNSSEC and without.
ghost use Rattle.std.specs.Prelude.{◌≡◌, map, IfOk, IfSome};
ghost use Rattle.zone_response.specs.Sections.{sent_set};
ghost use Rattle.ready_referrals.specs.Referrals.{additional_for, IsAdditional};

use crate::kept_sets::{are_unsigned, keep_sets, keep_unsigned};
use message_writing::KeptRecords;
use std::alloc::Global;
use zone_proto::{LowerName, ProtoError};
use zone_response::Sent;

/// What is kept of the additional section.
#[derive(Drop)]
pub(crate) struct Additional {
    /// The sets with DNSSEC.
    pub(crate) signed: Vec<KeptRecords>,
    /// Those without, if these are others.
    pub(crate) plain: Option<Vec<KeptRecords>>,
}

impl Additional {
    /// The sets, with DNSSEC or without.
    pub(crate) fn sets(&self, signed: bool) -> &[KeptRecords]
        ensures { result.now ≡ additional_for signed self.now }
    {
        match &self.plain {
            Some(plain) if !signed => plain.as_slice(),
            _ => self.signed.as_slice(),
        }
    }
}

/// Keeps the sets of an additional section, below a name. None if no octets are the data of a record. Its only error is `Memory`.
pub(crate) fn keep_additional(
    alloc: Global,
    cut: &LowerName,
    sets: &[Sent<'_>],
) -> Result<Option<Additional>, ProtoError>
    ensures { IfOk result (λ kept. IfSome kept
        (IsAdditional cut.now (map sent_set sets.now))) }
{
    let Some(signed) = keep_sets(alloc, cut, sets)? else {
        return Ok(None);
    };
    if are_unsigned(sets) {
        return Ok(Some(Additional {
            signed,
            plain: None,
        }));
    }
    let Some(plain) = keep_unsigned(alloc, cut, sets)? else {
        return Ok(None);
    };
    Ok(Some(Additional {
        signed,
        plain: Some(plain),
    }))
}
