//! What is told of a zone that is to be published.
ghost use Rattle.std.specs.Prelude.{◌≡◌, IfSome};
ghost use Rattle.std.specs.List.{list_all};
ghost use Rattle.zone_publication.specs.declared.finding.Finding.{Finding as FindingValue};
ghost use Rattle.zone_publication.specs.Findings.{findings};
ghost use Rattle.zone_publication.specs.Warnings.{is_allowed};
ghost use Rattle.zone_check.specs.Publications.{is_ready};

use crate::digests::tell_digests;
use crate::reporting::{Warning, tell_more};
use crate::wanted::Wanted;
use host_texts::{tell, tell_at};
use std::alloc::Global;
use std::io::Write;
use zone_builder::Loaded;
use zone_publication::{Finding, check};
use zone_texts::Sources;

/// Tells what is found of a zone at a moment, if one is given, and gives whether it is ready to be published: nothing that is found is
/// a fault, and its ZONEMD records are right. None if that can't be told, and why.
pub fn tell_publication<E: Write>(
    alloc: Global,
    wanted: &Wanted<'_>,
    sources: &Sources,
    loaded: &Loaded,
    fault: &mut E,
) -> Option<bool>
    ensures { IfSome result
        (λ ready. ready ≡ is_ready wanted.now.is_strict wanted.now.period
        loaded.now.origin loaded.now.records) }
{
    let Some(period) = wanted.period else {
        return Some(true);
    };
    let Ok(found) = check(alloc, &loaded.records, &loaded.origin, period) else {
        tell(fault, b"out of memory\n");
        return None;
    };
    let is_allowed = tell_findings(wanted, sources, found.as_slice(), fault);
    let are_right = tell_digests(alloc, sources, loaded, fault)?;
    Some(is_allowed && are_right)
}

/// Tells what was found, each of the faults and as many warnings as are wanted, and gives whether all are warnings.
fn tell_findings<E: Write>(
    wanted: &Wanted<'_>,
    sources: &Sources,
    found: &[Finding],
    fault: &mut E,
) -> bool
    ensures { result
        ≡ list_all (λ (f : FindingValue). is_allowed wanted.now.is_strict f.what) found.now }
{
    let mut is_ready = true;
    let mut warnings = 0usize;
    let mut more = 0u64;
    for finding in found {
        if !finding.what.is_allowed(wanted.is_strict) {
            tell_at(fault, sources, None, finding);
            is_ready = false;
        } else if warnings < wanted.most_told {
            tell_at(fault, sources, None, &Warning(finding));
            warnings += 1;
        } else {
            more = more.saturating_add(1);
        }
    }
    tell_more(fault, sources.name(0), more, "warnings");
    is_ready
}
