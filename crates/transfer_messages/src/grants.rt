//! Who may have a zone.
ghost use Rattle.std.specs.Prelude.{◌≡◌, option_copied};
ghost use Rattle.transfer_messages.specs.Grants.{is_given, is_granted};

use message_tsig::Key;
use zone_proto::LowerName;
use zone_server::TransferPolicy;

/// Whether the zone of an origin, with this policy, goes to one whose request was found signed under a key, or wasn't signed: to anybody
/// where the policy says so; where it asks for a signature, to those with a key that may have the zone; else to nobody. Takes no memory.
pub fn is_granted(policy: TransferPolicy, key: Option<&Key>, origin: &LowerName) -> bool
    ensures { result ≡ is_granted policy (option_copied key.entry) origin.now }
{
    match policy {
        TransferPolicy::AllowAll => true,
        TransferPolicy::AllowSigned => is_given(key, origin),
        TransferPolicy::Deny => false,
    }
}

/// Whether there is a key, and those with it may have the zone of an origin.
fn is_given(key: Option<&Key>, origin: &LowerName) -> bool
    ensures { result ≡ is_given (option_copied key.entry) origin.now }
{
    match key {
        Some(key) => key.may_have(origin),
        None => false,
    }
}
