// What the system is asked beside sockets and folders: a configuration file, and the addresses of names.
use pp_net::{Hosts, NetWorld, Seconds};
use pp_text::Octets;
use pp_world::{CONFIG_READ_LEN, ConfigFault, Wire};
use std::alloc::Global;
use std::cell::Cell;
use std::io::ErrorKind;
use std::net::{Ipv4Addr, Ipv6Addr, Net, SocketAddr, TcpListener, TcpStream};
use std::{fs, io};

// What is read of a configuration file with this text.
fn read_back(rt: &HostRuntime, text: &[u8]) -> Option<Octets> {
    if fs::write(rt, "polipo.conf", text).is_err() {
        return None;
    }
    let found = config(rt, "polipo.conf");
    if fs::remove_file(rt, "polipo.conf").is_err() {
        return None;
    }
    found.ok()
}

fn config(rt: &HostRuntime, name: &str) -> Result<Octets, ConfigFault> {
    match NetWorld::new(*rt) {
        Ok(mut world) => world.config(rt.alloc(), name),
        Err(_) => Err(ConfigFault::OutOfMemory),
    }
}

fn is_read(rt: &HostRuntime, text: &[u8], wanted: &[u8]) -> bool {
    match read_back(rt, text) {
        Some(found) => found.as_slice() == wanted,
        None => false,
    }
}

#[test]
fn a_configuration_is_read_up_to_its_limit(rt: HostRuntime) {
    assert!(rt; is_read(&rt, b"proxyPort = 8124\n", b"proxyPort = 8124\n"));
    assert!(rt; is_read(&rt, &[b'#'; 70_000], &[b'#'; CONFIG_READ_LEN]));
    assert!(rt; matches!(config(&rt, "no.conf"), Err(ConfigFault::Unreadable)));
}

// A system that knows two names, and counts how often it is asked. The addresses of `many` turn round each time.
#[derive(Drop)]
struct Resolver {
    asked: Cell<u32>,
}

/// An address of either version, by its last part.
#[derive(Clone, Copy)]
enum At {
    V4(u8),
    V6(u16),
}

impl At {
    fn address(self, port: u16) -> SocketAddr {
        match self {
            At::V4(last) => SocketAddr::from((Ipv4Addr::new(10, 0, 0, last), port)),
            At::V6(last) => SocketAddr::from((Ipv6Addr::new(0xfd00, 0, 0, 0, 0, 0, 0, last), port)),
        }
    }
}

const KNOWN: &[At] = &[At::V4(1)];

const MANY: &[At] = &[At::V6(1), At::V4(1), At::V4(2), At::V4(1), At::V6(2)];

const TURNED: &[At] = &[At::V4(2), At::V4(1), At::V6(2), At::V6(1)];

impl Resolver {
    fn addresses(&self, host: &str) -> &'static [At] {
        match host {
            "known" => KNOWN,
            "many" if self.asked.get() % 2 == 0 => TURNED,
            "many" => MANY,
            _ => &[],
        }
    }
}

impl Net for Resolver {
    type Stream = TcpStream;

    type Listener = TcpListener;

    fn bind(&self, _addr: SocketAddr) -> io::Result<TcpListener> {
        Err(io::Error::from(ErrorKind::Unsupported))
    }

    fn connect(&self, _addr: SocketAddr) -> io::Result<TcpStream> {
        Err(io::Error::from(ErrorKind::Unsupported))
    }

    fn lookup_host(&self, host: &str, port: u16, found: &mut [SocketAddr]) -> io::Result<usize> {
        self.asked.set(self.asked.get().saturating_add(1));
        let addresses = self.addresses(host);
        if addresses.is_empty() {
            return Err(io::Error::from(ErrorKind::NotFound));
        }
        let count = addresses.len().min(found.len());
        for (place, at) in found.iter_mut().zip(addresses) {
            *place = at.address(port);
        }
        Ok(count)
    }
}

/// The name, the second, whether it is found, and how often the system was asked by then.
const NAMES: &[(&str, u64, bool, u32)] = &[
    ("127.0.0.1", 100, true, 0),
    ("known", 100, true, 1),
    ("known", 104, true, 1),
    ("unknown", 104, false, 2),
    ("unknown", 105, false, 2),
    ("known", 105, true, 3),
    ("unknown", 109, false, 4),
    ("::1", 109, true, 4),
];

// The first line of the table that goes otherwise.
fn first_found_otherwise(alloc: Global) -> Option<usize> {
    match Hosts::new(alloc) {
        Ok(mut hosts) => first_otherwise_by(&mut hosts),
        Err(_) => Some(NAMES.len()),
    }
}

fn first_otherwise_by(hosts: &mut Hosts) -> Option<usize> {
    let system = Resolver {
        asked: Cell::new(0),
    };
    for (place, (name, now, is_found, asked)) in NAMES.iter().enumerate() {
        let found = hosts.address(&system, name, 80, *now).is_ok();
        if found != *is_found || system.asked.get() != *asked {
            return Some(place);
        }
    }
    None
}

#[test]
fn a_name_is_looked_up_once_in_some_seconds_and_an_address_never(rt: HostRuntime) {
    assert_eq!(rt; first_found_otherwise(rt.alloc()), None);
}

/// What is done with an address that was dialled.
enum Went {
    Well,
    Badly,
}

/// The port of `many`, the second, the address that is dialled, and how that goes.
const DIALS: &[(u16, u64, At, Went)] = &[
    // those of IPv4 first, and each once
    (80, 100, At::V4(1), Went::Badly),
    (80, 100, At::V4(2), Went::Badly),
    (80, 101, At::V6(1), Went::Well),
    (80, 102, At::V6(1), Went::Badly),
    (80, 102, At::V6(2), Went::Badly),
    // all failed, and it begins again
    (80, 103, At::V4(1), Went::Badly),
    (80, 104, At::V4(2), Went::Well),
    // another port, whose addresses come in another order
    (81, 104, At::V4(2), Went::Badly),
    (81, 104, At::V4(1), Went::Well),
    (80, 104, At::V4(2), Went::Badly),
    (80, 104, At::V6(1), Went::Well),
    // the system is asked anew, and what is dialled stays so, also where the order changed
    (80, 105, At::V6(1), Went::Badly),
    (80, 105, At::V6(2), Went::Well),
    (80, 110, At::V6(2), Went::Badly),
    (80, 110, At::V6(1), Went::Well),
];

// The first dial that goes elsewhere.
fn first_dial_elsewhere(alloc: Global) -> Option<usize> {
    match Hosts::new(alloc) {
        Ok(mut hosts) => first_dial_elsewhere_by(&mut hosts),
        Err(_) => Some(DIALS.len()),
    }
}

fn first_dial_elsewhere_by(hosts: &mut Hosts) -> Option<usize> {
    let system = Resolver {
        asked: Cell::new(0),
    };
    for (place, (port, now, wanted, went)) in DIALS.iter().enumerate() {
        let wanted = wanted.address(*port);
        match hosts.address(&system, "many", *port, *now) {
            Ok(address) if address == wanted => {}
            _ => return Some(place),
        }
        if let Went::Badly = went {
            hosts.pass_over(wanted);
        }
    }
    None
}

#[test]
fn an_address_that_fails_is_passed_over_and_one_that_does_not_stays(rt: HostRuntime) {
    assert_eq!(rt; first_dial_elsewhere(rt.alloc()), None);
}

/// What the system's clock shows, and the second that is told.
const SHOWN: &[(u64, u64)] = &[
    (1_000_000, 1_000_000),
    (1_000_001, 1_000_001),
    // set back by less than two minutes, which is waited out
    (999_902, 999_902),
    (1_000_002, 1_000_002),
    // set back by an hour, and it goes on from there
    (996_403, 1_000_002),
    (996_404, 1_000_003),
    (996_464, 1_000_063),
    // set right
    (1_000_065, 1_000_065),
    // set forth by a day, and right again
    (1_086_466, 1_086_466),
    (1_000_067, 1_086_466),
    (1_000_117, 1_086_516),
    // set to where the world began, and right again
    (0, 1_086_516),
    (50, 1_086_566),
    (1_000_168, 1_086_566),
    (1_086_700, 1_086_700),
    (u64::MAX, u64::MAX),
    (1, u64::MAX),
];

// The first line of the table that goes otherwise.
fn first_told_otherwise() -> Option<usize> {
    let mut seconds = Seconds::START;
    for (place, (shown, wanted)) in SHOWN.iter().enumerate() {
        if seconds.tell(*shown) != *wanted {
            return Some(place);
        }
    }
    None
}

#[test]
fn the_seconds_go_on_where_the_clock_is_set_back_and_follow_it_where_it_is_set_forth(
    rt: HostRuntime,
) {
    assert_eq!(rt; first_told_otherwise(), None);
}
