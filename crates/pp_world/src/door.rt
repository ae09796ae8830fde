// Where clients are listened for, and from where they may come.
ghost use Rattle.std.specs.Prelude.{◌≡◌, ◌≤◌, ◌&&◌};
ghost use Rattle.std.specs.List.{list_any};
ghost use Rattle.pp_world.specs.Doors.{is_in};

use crate::AccessLog;

/// IPv4 addresses: those whose first `bits` bits are those of `address` (RFC 4632, section 3.1). An address stands as a
/// number here, its first octet the highest.
#[derive(Clone, Copy, Debug, PartialEq, Eq)]
pub struct AddressRange {
    pub address: u32,
    /// 0 to 32.
    pub bits: u32,
}

impl AddressRange {
    /// Whether the address is among them.
    pub fn has(self, address: u32) -> bool
        ensures { result ≡ is_in address self }
    {
        let rest = 32_u32.saturating_sub(self.bits);
        u64::from(address) >> rest == u64::from(self.address) >> rest
    }
}

/// Where clients are listened for, and from where they may come.
#[derive(Clone, Copy, Debug)]
pub struct Door<'a> {
    /// The address of this machine at which it listens; 0 is each.
    pub address: u32,
    pub port: u16,
    /// Who comes from elsewhere is no client: it is closed before a byte of it is read.
    pub allowed: &'a [AddressRange],
    /// Where a line for each reply is written.
    pub access_log: AccessLog<'a>,
}

impl Door<'_> {
    /// Whether who comes from this address may be a client.
    pub fn allows(&self, address: u32) -> bool
        ensures { result ≡ list_any (is_in address) self.now.allowed.now }
    {
        self.allowed.iter().any(|range| range.has(address))
    }
}
