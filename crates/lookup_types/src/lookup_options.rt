//! What a client asks for beside the records: DNSSEC (RFC 3225).
ghost use Rattle.std.specs.Prelude.{◌≡◌, true, false};
ghost use Rattle.std.specs.Option.{option_map_or};
ghost use Rattle.zone_proto.specs.Sets.{lent};

use zone_proto::{Edns, RecordSet, RrsetRecords};

/// How a client wants its answer.
#[derive(Clone, Copy, Debug)]
pub struct LookupOptions {
    /// Whether the client understands DNSSEC and wants signatures (the DO bit, RFC 3225 section 3).
    pub dnssec_ok: bool,
}

impl Default for LookupOptions {
    ghost is_default = { λ options. options.dnssec_ok ≡ false };

    /// Without signatures.
    fn default() -> LookupOptions {
        LookupOptions { dnssec_ok: false }
    }
}

impl LookupOptions {
    /// The options of a client whose message has this OPT record, or none: signatures are wanted
    /// if its DO bit is set.
    pub fn from_edns(edns: Option<&Edns>) -> LookupOptions
        ensures { result.dnssec_ok ≡ option_map_or (λ e. e.now.flags.dnssec_ok) edns.entry false }
    {
        LookupOptions {
            dnssec_ok: edns.is_some_and(|record| record.flags().dnssec_ok),
        }
    }

    /// The options of a client that wants signatures.
    pub fn for_dnssec() -> LookupOptions
        ensures { result.dnssec_ok ≡ true }
    {
        LookupOptions { dnssec_ok: true }
    }

    /// The records of `set` in order, and after them its signatures (RRSIG records) if DNSSEC is
    /// asked for. A set without records gives nothing.
    pub fn rrset_with_rrigs<'r>(&self, set: &'r RecordSet) -> RrsetRecords<'r>
        ensures { result ≡ lent set.now self.now.dnssec_ok }
    {
        set.records(self.dnssec_ok)
    }
}
