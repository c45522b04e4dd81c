//! The keys of a zone, and what is done with each.

/// A key of a zone, as far as a chain of trust asks for it.
#[derive(Clone, Copy, PartialEq, Eq, Debug)]
pub struct Key {
    /// The number by which its owner tells it from other keys: their tags may be the same (RFC 4034 appendix B).
    pub number: u32,
    /// Its algorithm (RFC 4034 appendix A.1).
    pub algorithm: u8,
}

/// What is done with a key.
#[derive(Clone, Copy, PartialEq, Eq, Debug)]
pub struct KeyUse {
    /// It is in the DNSKEY set.
    pub is_published: bool,
    /// It signs the DNSKEY set, and CDS and CDNSKEY, which are signed as that is (RFC 7344 section 4.1).
    pub signs_keys: bool,
    /// It signs each other set that the zone signs.
    pub signs_others: bool,
    /// The parent is to have a DS record of it, as CDS and CDNSKEY may tell it (RFC 7344 section 4).
    pub wants_ds: bool,
}

impl KeyUse {
    /// Nothing is done with it.
    pub const NONE: KeyUse = KeyUse {
        is_published: false,
        signs_keys: false,
        signs_others: false,
        wants_ds: false,
    };

    /// It is in the DNSKEY set alone.
    pub const PUBLISHED: KeyUse = KeyUse {
        is_published: true,
        signs_keys: false,
        signs_others: false,
        wants_ds: false,
    };

    /// It is in the DNSKEY set, and signs all other sets.
    pub const ZSK: KeyUse = KeyUse {
        is_published: true,
        signs_keys: false,
        signs_others: true,
        wants_ds: false,
    };

    /// It is in the DNSKEY set, and signs it.
    pub const SIGNS_KEYS: KeyUse = KeyUse {
        is_published: true,
        signs_keys: true,
        signs_others: false,
        wants_ds: false,
    };

    /// It is in the DNSKEY set, which it signs, and the parent is to tell of it.
    pub const KSK: KeyUse = KeyUse {
        is_published: true,
        signs_keys: true,
        signs_others: false,
        wants_ds: true,
    };

    /// It is in the DNSKEY set and signs all sets, and the parent is to tell of it.
    pub const CSK: KeyUse = KeyUse {
        is_published: true,
        signs_keys: true,
        signs_others: true,
        wants_ds: true,
    };
}

/// A key of a zone and what is done with it.
#[derive(Clone, Copy, PartialEq, Eq, Debug)]
pub struct UsedKey {
    /// The key.
    pub key: Key,
    /// What is done with it.
    pub usage: KeyUse,
}

/// On which side of a rollover a key is.
#[derive(Clone, Copy, PartialEq, Eq, Debug)]
pub enum Generation {
    /// It was in use before.
    Old,
    /// It comes into use.
    New,
}

/// What a key signs once it is in use (RFC 6781 section 3.1).
#[derive(Clone, Copy, PartialEq, Eq, Debug)]
pub enum Role {
    /// The DNSKEY set: the parent tells of it by DS.
    Ksk,
    /// All other sets.
    Zsk,
    /// All sets: the parent tells of it by DS.
    Csk,
}
