// The table of settings.
ghost use Rattle.std.specs.Prelude.{◌≡◌, ◌==◌, not};
ghost use Rattle.std.specs.List.{list_all};
ghost use Rattle.std.specs.Str.{is_utf8};
ghost use Rattle.pp_conf.specs.Settings.{accepts, is_log, is_name_byte, is_path, is_proxy_name, is_root, least_of, most_of, name_of, number_for, setting_named};

use crate::addresses::{address_of, are_ranges};
use crate::numbers::number_between;

/// A setting of the program.
#[derive(Clone, Copy, Debug, PartialEq, Eq)]
pub enum Setting {
    /// The TCP port to listen on: 1 to 65,535.
    ProxyPort,
    /// The IPv4 address to listen at, as four numbers parted by dots; 0.0.0.0 is each of this machine.
    ProxyAddress,
    /// Who may come, 1 to 16 addresses and ranges of them, parted by commas.
    AllowedClients,
    /// The proxy's name in Via: 1 to 64 letters, digits, `.`, `-` and `_`.
    ProxyName,
    /// The folder of the cache: 1 to 255 bytes of UTF-8 without NUL.
    DiskCacheRoot,
    /// Eviction goes on down to this mark, in chunks of 4,096 bytes: 512 to the high mark.
    ChunkLowMark,
    /// Eviction begins at this mark, in chunks: from the low mark to the critical mark.
    ChunkHighMark,
    /// The pool's size in chunks: from the high mark to 65,536.
    ChunkCriticalMark,
    /// How many whole chunks are kept on disk at a time: 1 to 64.
    DiskRun,
    /// After so many turns the program ends: 1 to 2^47 - 1.
    MaxTurns,
    /// Whether readers of one new object wait for one fetch: 0 or 1.
    ShareFetches,
    /// Whether an ask may go behind others that are not answered: 0 or 1.
    PipelineAsks,
    /// How many connections one host may have: 1 to 64.
    HostConnections,
    /// Where the operator's log of replies is written, up to 255 bytes of UTF-8 without NUL: nowhere where it is empty,
    /// to standard error where it is `-`, else to the file of this name.
    AccessLog,
}

impl Setting {
    pub const ALL: [Setting; 14] = [
        Setting::ProxyPort,
        Setting::ProxyAddress,
        Setting::AllowedClients,
        Setting::ProxyName,
        Setting::DiskCacheRoot,
        Setting::ChunkLowMark,
        Setting::ChunkHighMark,
        Setting::ChunkCriticalMark,
        Setting::DiskRun,
        Setting::MaxTurns,
        Setting::ShareFetches,
        Setting::PipelineAsks,
        Setting::HostConnections,
        Setting::AccessLog,
    ];

    /// The name that words and text use.
    pub fn name(self) -> &'static str
        ensures { result.now ≡ name_of self }
    {
        match self {
            Setting::ProxyPort => "proxyPort",
            Setting::ProxyAddress => "proxyAddress",
            Setting::AllowedClients => "allowedClients",
            Setting::ProxyName => "proxyName",
            Setting::DiskCacheRoot => "diskCacheRoot",
            Setting::ChunkLowMark => "chunkLowMark",
            Setting::ChunkHighMark => "chunkHighMark",
            Setting::ChunkCriticalMark => "chunkCriticalMark",
            Setting::DiskRun => "diskRun",
            Setting::MaxTurns => "maxTurns",
            Setting::ShareFetches => "shareFetches",
            Setting::PipelineAsks => "pipelineAsks",
            Setting::HostConnections => "hostConnections",
            Setting::AccessLog => "accessLog",
        }
    }

    /// The setting of that name, letter for letter.
    pub fn named(name: &[u8]) -> Option<Setting>
        ensures { result ≡ setting_named name.now }
    {
        Setting::ALL
            .iter()
            .copied()
            .find(|s| s.name().as_bytes() == name)
    }

    /// The least and the greatest number that the setting takes by itself.
    fn range(self) -> (u64, u64)
        ensures least { result.0 ≡ least_of self }
        ensures most { result.1 ≡ most_of self }
    {
        match self {
            Setting::ProxyPort => (1, 65_535),
            Setting::ProxyAddress
            | Setting::AllowedClients
            | Setting::ProxyName
            | Setting::DiskCacheRoot
            | Setting::AccessLog => (0, 0),
            Setting::ChunkLowMark | Setting::ChunkHighMark | Setting::ChunkCriticalMark => {
                (512, 65_536)
            }
            Setting::DiskRun | Setting::HostConnections => (1, 64),
            Setting::MaxTurns => (1, 140_737_488_355_327),
            Setting::ShareFetches | Setting::PipelineAsks => (0, 1),
        }
    }

    /// The number that the text gives to the setting, if it is in its range.
    pub(crate) fn number(self, text: &[u8]) -> Option<u64>
        ensures { result ≡ number_for self text.now }
    {
        let (low, high) = self.range();
        number_between(low, high, text)
    }

    /// Whether the value is in the setting's own range.
    pub(crate) fn accepts(self, text: &[u8]) -> bool
        ensures { result ≡ accepts self text.now }
    {
        match self {
            Setting::ProxyAddress => address_of(text).is_some(),
            Setting::AllowedClients => are_ranges(text),
            Setting::ProxyName => is_proxy_name(text),
            Setting::DiskCacheRoot => is_root(text),
            Setting::AccessLog => is_log(text),
            Setting::ProxyPort
            | Setting::ChunkLowMark
            | Setting::ChunkHighMark
            | Setting::ChunkCriticalMark
            | Setting::DiskRun
            | Setting::MaxTurns
            | Setting::ShareFetches
            | Setting::PipelineAsks
            | Setting::HostConnections => self.number(text).is_some(),
        }
    }
}

fn is_name_byte(b: u8) -> bool
    ensures { result ≡ is_name_byte b }
{
    b.is_ascii_alphanumeric() || b == b'.' || b == b'-' || b == b'_'
}

fn is_proxy_name(text: &[u8]) -> bool
    ensures { result ≡ is_proxy_name text.now }
{
    let fits = 1 <= text.len() && text.len() <= 64;
    fits && has_name_bytes(text)
}

fn is_root(text: &[u8]) -> bool
    ensures { result ≡ is_root text.now }
{
    let fits = 1 <= text.len() && text.len() <= 255;
    fits && is_path(text)
}

fn is_log(text: &[u8]) -> bool
    ensures { result ≡ is_log text.now }
{
    text.len() <= 255 && is_path(text)
}

fn is_path(text: &[u8]) -> bool
    ensures { result ≡ is_path text.now }
{
    is_utf8(text) && has_no_nul(text)
}

fn is_utf8(text: &[u8]) -> bool
    ensures { result ≡ is_utf8 text.now }
{
    match str::from_utf8(text) {
        Ok(_) => true,
        Err(_) => false,
    }
}

fn has_name_bytes(text: &[u8]) -> bool
    ensures { result ≡ list_all is_name_byte text.now }
{
    text.iter().all(|b| is_name_byte(*b))
}

fn has_no_nul(text: &[u8]) -> bool
    ensures { result ≡ list_all (λ b. not (b == 0)) text.now }
{
    text.iter().all(|b| !(*b == 0))
}
