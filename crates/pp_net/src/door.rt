// The listener, who may come, and whether a client may wait at it.
ghost use Rattle.std.specs.Prelude.{◌≡◌, IfOk};
ghost use Rattle.pp_net.specs.Doors.{may_come};

use mio::net::{TcpListener, TcpStream};
use mio::{Interest, Registry, Token};
use pp_world::{AccessLog, AddressRange, Door};
use std::alloc::Global;
use std::io::ErrorKind;
use std::net::{Ipv4Addr, Net, SocketAddr};
use std::{io, mem};

/// So many are turned away at a time, so that those who are clients are served between.
const MOST_TURNED_AWAY: usize = 64;

#[derive(Drop)]
pub struct OpenDoor {
    listener: TcpListener,
    address: u32,
    port: u16,
    allowed: Vec<AddressRange>,
    // A knock is told once: it stands until nobody waits.
    has_knock: bool,
    // Whether as many were turned away as are at a time: others may wait behind them, and no knock tells of those.
    is_crowded: bool,
}

impl OpenDoor {
    /// The token under which the system reports a knock. No connection has this number.
    pub const TOKEN: Token = Token(0);

    pub fn open<N: Net>(
        net: &N,
        alloc: Global,
        registry: &Registry,
        door: &Door<'_>,
    ) -> io::Result<OpenDoor>
        ensures { IfOk result (λ d. d.allowed.items ≡ door.now.allowed.now) }
    {
        let allowed = door.allowed.to_vec(alloc)?;
        let address = SocketAddr::from((Ipv4Addr::from_bits(door.address), door.port));
        let mut listener = TcpListener::bind(net, address)?;
        registry.register(&mut listener, OpenDoor::TOKEN, Interest::READABLE)?;
        Ok(OpenDoor {
            listener,
            address: door.address,
            port: door.port,
            allowed,
            has_knock: true,
            is_crowded: false,
        })
    }

    pub fn knock(&mut self) {
        self.has_knock = true;
    }

    pub fn has_knock(&self) -> bool {
        self.has_knock
    }

    /// Whether others may wait behind those who were turned away; it is said once.
    pub fn take_crowd(&mut self) -> bool {
        mem::take(&mut self.is_crowded)
    }

    /// The client that waits longest, and its address. Who may not come is closed before a byte is read. Where there is none, or a fault,
    /// the next knock is waited for.
    pub fn accept(&mut self) -> io::Result<Option<(TcpStream, u32)>> {
        for _ in 0..MOST_TURNED_AWAY {
            match self.listener.accept() {
                Ok((stream, from)) => {
                    if self.allows(from) {
                        return Ok(Some((stream, address_of(from))));
                    }
                }
                Err(e) => {
                    self.has_knock = false;
                    return if e.kind() == ErrorKind::WouldBlock {
                        Ok(None)
                    } else {
                        Err(e)
                    };
                }
            }
        }
        self.is_crowded = true;
        Ok(None)
    }

    /// Whether who comes from there may be a client.
    fn allows(&self, from: SocketAddr) -> bool
        ensures { result ≡ may_come self.now.allowed.items from }
    {
        match from {
            SocketAddr::V4(from) => self.door().allows(from.ip().to_bits()),
            SocketAddr::V6(_) => false,
        }
    }

    fn door(&self) -> Door<'_>
        ensures { result.allowed.now ≡ self.now.allowed.items }
    {
        Door {
            address: self.address,
            port: self.port,
            allowed: self.allowed.as_slice(),
            access_log: AccessLog::Nowhere,
        }
    }
}

/// An address of IPv4 as a number, the first octet the highest. No client has another.
fn address_of(from: SocketAddr) -> u32 {
    match from {
        SocketAddr::V4(from) => from.ip().to_bits(),
        SocketAddr::V6(_) => 0,
    }
}
