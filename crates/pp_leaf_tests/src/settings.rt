// Words and a text, and the settings or the fault that come of them.
use crate::saying::{says_nothing, told};
use pp_conf::{Command, Conf, ConfFault, Setting, config_name};
use pp_text::OutOfMemory;
use pp_world::{AccessLog, AddressRange};
use std::alloc::{AllocError, Global};
use std::test::Fail;

/// What came of words and a text.
#[derive(Clone, Copy, PartialEq, Eq)]
enum Came {
    /// Settings with this port to listen on.
    Port(u16),
    Seed(u64),
    Fault(ConfFault),
}

/// Words, and what comes of them.
enum Row<'a> {
    /// With a text.
    Came(&'a [&'a str], &'a str, Came),
    /// With a text of so many bytes that is a comment.
    Long(usize, Came),
    /// With no text: what is set.
    Set(&'a [&'a str], Value<'a>),
    /// The file that they name.
    ConfigName(&'a [&'a str], &'a str),
}

/// A setting and its value.
enum Value<'a> {
    Port(u16),
    Name(&'a [u8]),
    Address(u32),
    Allowed(&'a [AddressRange]),
    Root(&'a [u8]),
    Marks(u32, u32, u32),
    DiskRun(u32),
    MaxTurns(u64),
    ShareFetches(bool),
    PipelineAsks(bool),
    HostConnections(u32),
    NoLog,
    LogOnConsole,
    LogFile(&'a str),
}

fn owned_words(alloc: Global, words: &[&str]) -> Result<Vec<String>, AllocError> {
    let mut owned = Vec::new(alloc);
    for word in words {
        owned.push(String::from_str(alloc, word)?)?;
    }
    Ok(owned)
}

fn came_of(alloc: Global, words: &[&str], text: &[u8]) -> Result<Came, AllocError> {
    let words = owned_words(alloc, words)?;
    Ok(match Conf::read(alloc, words.as_slice(), Some(text)) {
        Ok(Command::Serve(conf)) => Came::Port(conf.port),
        Ok(Command::Demo(seed)) => Came::Seed(seed),
        Err(fault) => Came::Fault(fault),
    })
}

fn came_of_long(alloc: Global, len: usize) -> Result<Came, AllocError> {
    let mut text = Vec::new(alloc);
    for _ in 0..len {
        text.push(b'#')?;
    }
    came_of(alloc, &[], text.as_slice())
}

fn is_set(alloc: Global, words: &[&str], value: &Value<'_>) -> Result<bool, AllocError> {
    let words = owned_words(alloc, words)?;
    Ok(match Conf::read(alloc, words.as_slice(), None) {
        Ok(Command::Serve(conf)) => has(&conf, value),
        Ok(Command::Demo(_)) | Err(_) => false,
    })
}

fn has(conf: &Conf, value: &Value<'_>) -> bool {
    match value {
        Value::Port(port) => conf.port == *port,
        Value::Name(name) => conf.name.as_slice() == *name,
        Value::Address(address) => conf.address == *address,
        Value::Allowed(ranges) => conf.allowed.as_slice() == *ranges,
        Value::Root(root) => conf.root.as_slice() == *root,
        Value::Marks(low, high, critical) => {
            conf.low == *low && conf.high == *high && conf.critical == *critical
        }
        Value::DiskRun(chunks) => conf.disk_run == *chunks,
        Value::MaxTurns(turns) => conf.max_turns == *turns,
        Value::ShareFetches(shares) => conf.share_fetches == *shares,
        Value::PipelineAsks(pipelines) => conf.pipeline_asks == *pipelines,
        Value::HostConnections(most) => conf.host_connections == *most,
        Value::NoLog => matches!(conf.log_place(), AccessLog::Nowhere),
        Value::LogOnConsole => matches!(conf.log_place(), AccessLog::Console),
        Value::LogFile(name) => is_log_file(conf, name),
    }
}

fn is_log_file(conf: &Conf, wanted: &str) -> bool {
    match conf.log_place() {
        AccessLog::File(name) => name == wanted,
        AccessLog::Nowhere | AccessLog::Console => false,
    }
}

fn names(alloc: Global, words: &[&str], wanted: &str) -> Result<bool, AllocError> {
    let words = owned_words(alloc, words)?;
    Ok(match config_name(alloc, words.as_slice()) {
        Ok(Some(name)) => name.as_str() == wanted,
        Ok(None) | Err(_) => false,
    })
}

fn is_met(alloc: Global, row: &Row<'_>) -> Result<bool, AllocError> {
    match row {
        Row::Came(words, text, wanted) => Ok(came_of(alloc, words, text.as_bytes())? == *wanted),
        Row::Long(len, wanted) => Ok(came_of_long(alloc, *len)? == *wanted),
        Row::Set(words, value) => is_set(alloc, words, value),
        Row::ConfigName(words, wanted) => names(alloc, words, wanted),
    }
}

fn unlike(alloc: Global, name: &str, rows: &[Row<'_>]) -> Result<String, OutOfMemory> {
    for (place, row) in rows.iter().enumerate() {
        if !is_met(alloc, row)? {
            return told(alloc, name, Some(place));
        }
    }
    told(alloc, name, None)
}

/// The first setting that is not found by its name.
fn unlike_names(alloc: Global) -> Result<String, OutOfMemory> {
    told(
        alloc,
        "names",
        Setting::ALL.iter().position(|setting| Setting::named(setting.name().as_bytes())
            != Some(*setting)),
    )
}

/// Words come after the text.
const CAME: &[Row<'static>] = &[
    Row::Came(&[], "", Came::Port(8123)),
    Row::Came(&["proxyPort=10"], "proxyPort=9", Came::Port(10)),
    Row::Came(
        &["-c", "f", "proxyPort=11"],
        "# x\n proxyPort = \"9\"",
        Came::Port(11),
    ),
    Row::Came(
        &["-g", "18446744073709551615"],
        "",
        Came::Seed(18446744073709551615),
    ),
    Row::Came(
        &["proxyPort=0"],
        "diskRun=65",
        Came::Fault(ConfFault::BadValue(Setting::DiskRun)),
    ),
    Row::Came(
        &["pipelineAsks=2"],
        "",
        Came::Fault(ConfFault::BadValue(Setting::PipelineAsks)),
    ),
    Row::Came(
        &["proxyAddress=1.2.3"],
        "",
        Came::Fault(ConfFault::BadValue(Setting::ProxyAddress)),
    ),
    Row::Came(
        &["allowedClients=10.0.0.1/8"],
        "",
        Came::Fault(ConfFault::BadValue(Setting::AllowedClients)),
    ),
    Row::Came(
        &["proxyAddress=0.0.0.0"],
        "",
        Came::Fault(ConfFault::BadValue(Setting::AllowedClients)),
    ),
    Row::Came(
        &["proxyAddress=0.0.0.0"],
        "allowedClients = 127.0.0.1, 192.168.0.0/16",
        Came::Port(8123),
    ),
    Row::Came(
        &["hostConnections=0"],
        "",
        Came::Fault(ConfFault::BadValue(Setting::HostConnections)),
    ),
    Row::Came(&["accessLog=-"], "accessLog = \"\"", Came::Port(8123)),
    Row::Came(&[], "\n\nnonsense", Came::Fault(ConfFault::BadLine(3))),
    Row::Came(&["-g", "x"], "", Came::Fault(ConfFault::Usage)),
    Row::Came(&["-g", "7", "-c", "f"], "", Came::Fault(ConfFault::Usage)),
    Row::Long(65_537, Came::Fault(ConfFault::TooLong)),
    Row::Long(65_536, Came::Port(8123)),
];

/// Each setting has its default, and replies are logged where the setting says.
const SET: &[Row<'static>] = &[
    Row::Set(&[], Value::Port(8123)),
    Row::Set(&[], Value::Name(b"polipo")),
    Row::Set(&[], Value::Address(0x7f00_0001)),
    Row::Set(
        &[],
        Value::Allowed(&[AddressRange {
            address: 0x7f00_0000,
            bits: 8,
        }]),
    ),
    Row::Set(&[], Value::Root(b"polipo-cache")),
    Row::Set(&[], Value::Marks(2560, 3072, 4096)),
    Row::Set(&[], Value::DiskRun(16)),
    Row::Set(&[], Value::MaxTurns(140_737_488_355_327)),
    Row::Set(&[], Value::ShareFetches(true)),
    Row::Set(&[], Value::PipelineAsks(false)),
    Row::Set(&[], Value::HostConnections(8)),
    Row::Set(&[], Value::NoLog),
    Row::Set(&["accessLog="], Value::NoLog),
    Row::Set(&["accessLog=-"], Value::LogOnConsole),
    Row::Set(&["accessLog=--"], Value::LogFile("--")),
    Row::Set(&["accessLog=log/polipo"], Value::LogFile("log/polipo")),
    Row::ConfigName(&["diskRun=9", "-c", "f"], "f"),
];

#[test]
fn settings_are_those_of_words_and_a_text(rt: HostRuntime) -> Result<(), Fail> {
    says_nothing(&rt, unlike(rt.alloc(), "what comes", CAME))?;
    says_nothing(&rt, unlike(rt.alloc(), "what is set", SET))?;
    says_nothing(&rt, unlike_names(rt.alloc()))
}
