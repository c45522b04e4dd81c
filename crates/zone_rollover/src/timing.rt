//! How long what a zone or its parent serves no more may be held by caches.
ghost use Rattle.std.specs.Prelude.{◌≡◌, ◌+◌, ◌≤◌, IfSome, OnSome, IfNone, ◌<◌};
ghost use Rattle.zone_rollover.specs.Waits.{keys_wait, sets_wait, ds_wait};

/// The TTLs and delays that a rollover has to wait for, in seconds (RFC 7583 section 2.2): of each the greatest that holds while
/// it lasts.
#[derive(Clone, Copy, PartialEq, Eq, Debug)]
pub struct Timing {
    /// The TTL of the DNSKEY set (TTLkey).
    pub key_ttl: u32,
    /// The greatest TTL of the other sets of the zone (TTLsig).
    pub greatest_ttl: u32,
    /// The TTL of the DS set at the parent (TTLds).
    pub ds_ttl: u32,
    /// How long it takes until all servers of the zone serve what it was changed to (Dprp).
    pub propagation: u32,
    /// How long it takes until all servers of the parent do (DprpP).
    pub parent_propagation: u32,
    /// How long it takes until all sets are signed by the keys that sign from then on (Dsgn).
    pub signing: u32,
}

impl Timing {
    /// How many seconds a DNSKEY set may be held by a cache after the zone was changed: the publication interval of RFC 7583
    /// sections 3.2.1 and 3.3.1.
    pub fn keys_wait(&self) -> u64
        ensures value { result ≡ keys_wait self.now }
        ensures bound { result < 8589934592 }
    {
        let ttl = self.key_ttl;
        let delay = self.propagation;
        u64::from(delay) + u64::from(ttl)
    }

    /// How many seconds a set may be held by a cache with signatures by the keys that signed before: the retire interval of RFC
    /// 7583 section 3.2.1.
    pub fn sets_wait(&self) -> u64
        ensures value { result ≡ sets_wait self.now }
        ensures bound { result < 12884901888 }
    {
        let ttl = self.greatest_ttl;
        let delay = self.propagation;
        let signing = self.signing;
        u64::from(signing) + u64::from(delay) + u64::from(ttl)
    }

    /// How many seconds a DS set may be held by a cache after the parent was changed: the retire interval of RFC 7583 section
    /// 3.3.1.
    pub fn ds_wait(&self) -> u64
        ensures value { result ≡ ds_wait self.now }
        ensures bound { result < 8589934592 }
    {
        let ttl = self.ds_ttl;
        let delay = self.parent_propagation;
        u64::from(delay) + u64::from(ttl)
    }

    /// The last moment at which a new key may be published, so that it can sign in place of the old one at a moment:
    /// Tpub of RFC 7583 section 3.2.1, with the end of the old key's lifetime for the moment. For a key that the parent
    /// tells of, the moment is the one at which its DS has to be submitted (section 3.3.1). None if there was no such
    /// moment since 1970.
    pub fn publication_before(&self, moment: u64) -> Option<u64>
        ensures found { IfSome result (λ last. last + keys_wait self.now ≡ moment) }
        ensures none { IfNone result (moment < keys_wait self.now) }
    {
        moment.checked_sub(self.keys_wait())
    }
}
