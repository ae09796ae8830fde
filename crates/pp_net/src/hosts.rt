// The addresses of names that were looked up lately, and which of them is dialled next.
//
// A look-up waits for the system, and so holds up everyone. What it answered, also that it found nothing,
// is kept for a few seconds. An address in figures is no look-up.
//
// "Application protocol implementations SHOULD be prepared to try multiple addresses from the list until success is obtained"
// (RFC 1123, section 2.3): where a dial to one address fails, the next dial goes to the next, and stays there while it succeeds.
// One port of an address may be closed and another open, so each port of a name is a name by itself.
use arrayvec::ArrayString;
use std::alloc::{AllocError, Global};
use std::io;
use std::io::ErrorKind;
use std::net::{IpAddr, Net, SocketAddr, ToSocketAddrs};

/// How long an answer is kept, in seconds.
const KEPT_SECONDS: u64 = 5;

/// How many names are kept.
const HOSTS: usize = 32;

/// The longest name that is kept, in bytes. No name of the DNS is longer (RFC 1035, section 2.3.4).
const NAME_LEN: usize = 255;

/// How many addresses of a name are tried.
const ADDRESSES: usize = 8;

/// The addresses of a name, each once, in the order in which they are tried. Free places are behind them.
#[derive(Clone, Copy)]
struct Addresses {
    places: [Option<SocketAddr>; ADDRESSES],
}

impl Addresses {
    const NONE: Addresses = Addresses {
        places: [None; ADDRESSES],
    };

    fn at(&self, place: usize) -> Option<SocketAddr> {
        *self.places.get(place)?
    }

    fn place_of(&self, address: SocketAddr) -> Option<usize> {
        self.places.iter().position(|other| *other == Some(address))
    }

    // Behind all others, if there is a place left.
    fn add(&mut self, address: SocketAddr) {
        if self.place_of(address).is_some() {
            return;
        }
        if let Some(free) = self.places.iter().position(|place| place.is_none())
            && let Some(place) = self.places.get_mut(free)
        {
            *place = Some(address);
        }
    }
}

/// A name and a port, and what the system answered for it.
#[derive(Drop)]
struct Host {
    name: ArrayString<NAME_LEN>,
    port: u16,
    addresses: Addresses,
    /// The place of the address that is dialled next.
    next: usize,
    /// The second in which it was answered.
    since: u64,
}

impl Host {
    fn is_named(&self, name: &str, port: u16) -> bool {
        self.port == port && self.name.as_str() == name
    }

    fn is_fresh(&self, now: u64) -> bool {
        now.abs_diff(self.since) < KEPT_SECONDS
    }

    /// The address that is dialled next, if it has any.
    fn address(&self) -> Option<SocketAddr> {
        self.addresses.at(self.next)
    }

    /// The one behind it is dialled next, or the first where it is the last.
    fn pass_over(&mut self) {
        let next = self.next.saturating_add(1);
        self.next = if self.addresses.at(next).is_some() {
            next
        } else {
            0
        };
    }

    /// It is answered anew. What is dialled next stays so where it is still an address of the name.
    fn renew(&mut self, addresses: Addresses, now: u64) {
        let next = match self.address() {
            Some(address) => addresses.place_of(address),
            None => None,
        };
        self.next = next.unwrap_or(0);
        self.addresses = addresses;
        self.since = now;
    }
}

/// What the system answered lately.
#[derive(Drop)]
pub struct Hosts {
    hosts: Vec<Host>,
}

impl Hosts {
    /// Nothing was asked yet.
    pub fn new(alloc: Global) -> Result<Hosts, AllocError> {
        Ok(Hosts {
            hosts: Vec::with_capacity(alloc, HOSTS)?,
        })
    }

    /// The address at which this port of a host is dialled next. `now` is the clock, in seconds.
    pub fn address<N: Net>(
        &mut self,
        net: &N,
        name: &str,
        port: u16,
        now: u64,
    ) -> io::Result<SocketAddr> {
        if let Ok(address) = name.parse::<IpAddr>() {
            return Ok(SocketAddr::new(address, port));
        }
        if !self.is_known(name, port, now) {
            let addresses = look_up(net, name, port).unwrap_or(Addresses::NONE);
            self.keep(name, port, addresses, now);
        }
        self.kept(name, port)
            .ok_or(io::Error::from(ErrorKind::NotFound))
    }

    /// A dial to this address failed: who was to dial it next dials another, where there is one.
    pub fn pass_over(&mut self, address: SocketAddr) {
        for host in self.hosts.iter_mut() {
            if host.address() == Some(address) {
                host.pass_over();
            }
        }
    }

    fn is_known(&self, name: &str, port: u16, now: u64) -> bool {
        self.hosts
            .iter()
            .any(|host| host.is_named(name, port) && host.is_fresh(now))
    }

    fn kept(&self, name: &str, port: u16) -> Option<SocketAddr> {
        self.hosts
            .iter()
            .find(|host| host.is_named(name, port))?
            .address()
    }

    // Where the name was, or else in the place of the oldest answer, where all places are taken. A name that is too long is not
    // kept.
    fn keep(&mut self, name: &str, port: u16, addresses: Addresses, now: u64) {
        let known = self.hosts.iter_mut().find(|host| host.is_named(name, port));
        if let Some(host) = known {
            host.renew(addresses, now);
        } else if let Ok(name) = ArrayString::from(name) {
            self.add(Host {
                name,
                port,
                addresses,
                next: 0,
                since: now,
            });
        }
    }

    fn add(&mut self, host: Host) {
        if self.hosts.len() < HOSTS {
            let _ = self.hosts.push(host);
        } else if let Some(oldest) = self.hosts.iter_mut().min_by_key(|host| host.since) {
            *oldest = host;
        }
    }
}

// Those of the fourth version first, and each version in the system's order.
fn look_up<N: Net>(net: &N, name: &str, port: u16) -> io::Result<Addresses> {
    let mut addresses = Addresses::NONE;
    let mut of_ipv6 = Addresses::NONE;
    for address in (name, port).to_socket_addrs(net)? {
        if address.is_ipv4() {
            addresses.add(address);
        } else {
            of_ipv6.add(address);
        }
    }
    for address in of_ipv6.places.iter().flatten() {
        addresses.add(*address);
    }
    Ok(addresses)
}
