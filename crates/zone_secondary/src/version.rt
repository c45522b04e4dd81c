//! Versions of a zone.
ghost use Rattle.std.specs.Prelude.{◌≡◌};
ghost use Rattle.zone_secondary.specs.Waits.{refresh_wait, retry_wait};

/// What the SOA record of a version of a zone says to secondaries (RFC 1035 section 3.3.13). Intervals are in seconds.
#[derive(Clone, Copy, PartialEq, Eq, Debug)]
pub struct Version {
    /// Its serial.
    pub serial: u32,
    /// How long a secondary waits before it asks for another version.
    pub refresh: u32,
    /// How long it waits before it asks again where that failed.
    pub retry: u32,
    /// How long it may serve the zone while nobody says that this is the version to serve.
    pub expire: u32,
}

impl Version {
    /// How long a secondary waits before it asks for another version: the refresh interval, one second at least.
    pub fn refresh_wait(self) -> u64
        ensures { result ≡ refresh_wait self }
    {
        u64::from(self.refresh.max(1))
    }

    /// How long it waits before it asks again: the retry interval, one second at least.
    pub fn retry_wait(self) -> u64
        ensures { result ≡ retry_wait self }
    {
        u64::from(self.retry.max(1))
    }
}
