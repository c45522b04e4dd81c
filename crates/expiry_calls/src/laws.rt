//! Laws of zones that have expired. Each is an empty function whose contract is the law, so a program has no need to call one.
ghost use Rattle.expiry_calls.specs.Expiry.{ExpiredZonesArentSent, ExpiredZonesFail};

/// Each query that a zone is asked which has expired gets a code alone, whatever the zone had (RFC 1034 section 4.3.5): REFUSED for another class
/// or for a name outside the zone, NOTIMP for a type that no record has, and otherwise SERVFAIL. Who may have the zone gets SERVFAIL for it too,
/// whether all of it is asked for or what changed (RFC 5936 section 2.2.1, RFC 1995 section 2).
pub fn expired_zones_fail()
    ensures asked { ExpiredZonesFail }
    ensures sent { ExpiredZonesArentSent }
{}
