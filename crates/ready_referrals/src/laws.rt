//! Laws of referrals. Each is an empty function whose contract is the law, so a program has no need to call one.
ghost use Rattle.ready_referrals.specs.Referrals.{NamesBelowACutAreReferredAlike, UnauthoritativeResponsesAreReferrals};

/// Each name at or below a zone cut is referred alike (RFC 1034 section 4.3.2 step 3b), whatever data but DS is asked for; and a response without an error
/// and without answers of which the server is no authority is a referral.
pub fn names_below_a_cut_are_referred_alike()
    ensures alike { NamesBelowACutAreReferredAlike }
    ensures referrals { UnauthoritativeResponsesAreReferrals }
{}
