// The settings in force, and how assignments change them.
ghost use Rattle.std.specs.Prelude.{◌≡◌, ◌≤◌, IfOk, IfErr, true, length};
ghost use Rattle.std.specs.Str.{is_utf8};
ghost use Rattle.pp_conf.specs.Settings.{accepts};
ghost use Rattle.pp_conf.specs.Conf.{defaults, misfit, with_value};
ghost use Rattle.pp_conf.specs.Shown.{shown_draft, shown_conf};
ghost use Rattle.pp_conf.specs.declared.fault.ConfFault.TheVariants.{OutOfMemory};

use crate::addresses::{LOCALHOST, address_of, ranges_of, shuts_all_out};
use crate::fault::ConfFault;
use crate::setting::Setting;
use arrayvec::ArrayVec;
use pp_text::Octets;
use pp_world::AddressRange;
use std::alloc::Global;

/// The settings in force; `Setting` has their units and ranges.
#[derive(Drop)]
pub struct Conf {
    pub port: u16,
    pub address: u32,
    pub allowed: Vec<AddressRange>,
    pub name: ArrayVec<u8, 64>,
    pub root: Octets,
    pub low: u32,
    pub high: u32,
    pub critical: u32,
    pub disk_run: u32,
    pub max_turns: u64,
    pub share_fetches: bool,
    pub pipeline_asks: bool,
    pub host_connections: u32,
    pub access_log: String,
}

impl Conf {
    /// The settings of no words and no text.
    pub fn plain(alloc: Global) -> Result<Conf, ConfFault>
        ensures kept { IfOk result (λ c. shown_conf c ≡ defaults) }
        ensures memory { IfErr result (λ e. e ≡ OutOfMemory) }
    {
        Draft::new().keep(alloc)
    }
}

/// The settings while assignments are applied; texts still stand where they came from.
#[derive(Drop)]
pub(crate) struct Draft<'a> {
    pub port: u16,
    pub address: u32,
    pub allowed: &'a [u8],
    pub name: ArrayVec<u8, 64>,
    pub root: &'a [u8],
    pub low: u32,
    pub high: u32,
    pub critical: u32,
    pub disk_run: u32,
    pub max_turns: u64,
    pub share_fetches: bool,
    pub pipeline_asks: bool,
    pub host_connections: u32,
    pub access_log: &'a str,
}

impl<'a> Draft<'a> {
    pub fn new() -> Draft<'a>
        ensures { shown_draft result ≡ defaults }
    {
        Draft {
            port: 8123,
            address: LOCALHOST,
            allowed: b"127.0.0.0/8",
            name: name_from(b"polipo"),
            root: b"polipo-cache",
            low: 2560,
            high: 3072,
            critical: 4096,
            disk_run: 16,
            max_turns: 140_737_488_355_327,
            share_fetches: true,
            pipeline_asks: false,
            host_connections: 8,
            access_log: "",
        }
    }

    /// Puts this value in the place of an earlier one.
    pub fn set(&mut self, setting: Setting, value: &'a [u8])
        requires { accepts setting value.now ≡ true }
        ensures { shown_draft self.new ≡ with_value (shown_draft self.old) setting value.entry.now }
    {
        let number = setting.number(value).unwrap_or(0);
        match setting {
            Setting::ProxyPort => self.port = number as u16,
            Setting::ProxyAddress => self.address = address_of(value).unwrap_or(0),
            Setting::AllowedClients => self.allowed = value,
            Setting::ProxyName => self.name = name_from(value),
            Setting::DiskCacheRoot => self.root = value,
            Setting::ChunkLowMark => self.low = number as u32,
            Setting::ChunkHighMark => self.high = number as u32,
            Setting::ChunkCriticalMark => self.critical = number as u32,
            Setting::DiskRun => self.disk_run = number as u32,
            Setting::MaxTurns => self.max_turns = number,
            Setting::ShareFetches => self.share_fetches = number == 1,
            Setting::PipelineAsks => self.pipeline_asks = number == 1,
            Setting::HostConnections => self.host_connections = number as u32,
            Setting::AccessLog => self.access_log = text_of(value),
        }
    }

    /// The settings, with texts of their own.
    pub fn keep(self, alloc: Global) -> Result<Conf, ConfFault>
        ensures kept { IfOk result (λ c. shown_conf c ≡ shown_draft self.entry) }
        ensures memory { IfErr result (λ e. e ≡ OutOfMemory) }
    {
        let Ok(root) = Octets::copy(alloc, self.root) else {
            return Err(ConfFault::OutOfMemory);
        };
        let Ok(allowed) = ranges_of(alloc, self.allowed) else {
            return Err(ConfFault::OutOfMemory);
        };
        let Ok(access_log) = String::from_str(alloc, self.access_log) else {
            return Err(ConfFault::OutOfMemory);
        };
        Ok(Conf {
            port: self.port,
            address: self.address,
            allowed,
            name: self.name,
            root,
            low: self.low,
            high: self.high,
            critical: self.critical,
            disk_run: self.disk_run,
            max_turns: self.max_turns,
            share_fetches: self.share_fetches,
            pipeline_asks: self.pipeline_asks,
            host_connections: self.host_connections,
            access_log,
        })
    }

    /// The first setting that does not go with the others: the marks are in order, and who listens for other machines
    /// says which.
    pub fn misfit(&self) -> Option<Setting>
        ensures { result ≡ misfit (shown_draft self.now) }
    {
        if self.high < self.low {
            Some(Setting::ChunkHighMark)
        } else if self.critical < self.high {
            Some(Setting::ChunkCriticalMark)
        } else if shuts_all_out(self.address, self.allowed) {
            Some(Setting::AllowedClients)
        } else {
            None
        }
    }
}

fn name_from(text: &[u8]) -> ArrayVec<u8, 64>
    requires { length text.now ≤ 64 }
    ensures { result.items ≡ text.now }
{
    let mut name = ArrayVec::new();
    let _ = name.try_extend_from_slice(text);
    name
}

fn text_of(text: &[u8]) -> &str
    requires { is_utf8 text.now ≡ true }
    ensures { result.now ≡ text.now }
{
    match str::from_utf8(text) {
        Ok(text) => text,
        Err(_) => "",
    }
}
