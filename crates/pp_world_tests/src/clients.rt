// Clients of a program, over real connections.
use std::alloc::Global;
use std::io::{Read, Write};
use std::net::{Shutdown, TcpListener, TcpStream};
use std::time::Duration;

/// The longest that a client waits.
const PATIENCE_SECONDS: u64 = 10;

/// How many bytes a read takes at most.
pub const READ_LEN: usize = 16;

/// The clients, and the numbers of their connections.
#[derive(Drop)]
pub struct Clients {
    joined: Vec<(TcpStream, u64)>,
}

impl Clients {
    pub fn new(alloc: Global) -> Clients {
        Clients {
            joined: Vec::new(alloc),
        }
    }

    pub fn join(&mut self, client: TcpStream, id: u64) -> bool {
        self.joined.push((client, id)).is_ok()
    }

    /// The number of the connection of this client, or 0, which none has.
    pub fn number(&self, client: usize) -> u64 {
        match self.joined.get(client) {
            Some((_, id)) => *id,
            None => 0,
        }
    }

    pub fn says(&mut self, client: usize, bytes: &[u8]) -> bool {
        match self.joined.get_mut(client) {
            Some((stream, _)) => stream.write_all(bytes).is_ok(),
            None => false,
        }
    }

    pub fn shuts(&mut self, client: usize) -> bool {
        match self.joined.get(client) {
            Some((stream, _)) => stream.shutdown(Shutdown::Write).is_ok(),
            None => false,
        }
    }

    /// How many bytes come next. None where none can be read.
    pub fn read(&mut self, client: usize, buf: &mut [u8]) -> Option<usize> {
        match self.joined.get_mut(client) {
            Some((stream, _)) => count_read(stream, buf),
            None => None,
        }
    }

    pub fn hears(&mut self, client: usize, bytes: &[u8]) -> bool {
        let mut buf = [0u8; READ_LEN];
        match self.read(client, &mut buf) {
            Some(count) => buf.get(..count) == Some(bytes),
            None => false,
        }
    }

    /// How many bytes come up to the end. None where a read fails before it.
    pub fn hears_to_the_end(&mut self, client: usize) -> Option<usize> {
        let mut buf = [0u8; 1000];
        let mut heard = 0usize;
        for _ in 0..1000 {
            match self.read(client, &mut buf)? {
                0 => return Some(heard),
                count => heard = heard.saturating_add(count),
            }
        }
        None
    }
}

pub fn count_read(stream: &mut TcpStream, buf: &mut [u8]) -> Option<usize> {
    match stream.read(buf) {
        Ok(count) => Some(count),
        Err(_) => None,
    }
}

pub fn connect(rt: &HostRuntime, port: u16) -> Option<TcpStream> {
    match TcpStream::connect(rt, ("127.0.0.1", port)) {
        Ok(client) => is_patient(&client).then_some(client),
        Err(_) => None,
    }
}

fn is_patient(client: &TcpStream) -> bool {
    client
        .set_read_timeout(Some(Duration::from_secs(PATIENCE_SECONDS)))
        .is_ok()
}

/// A listener on a free port.
pub fn bind(rt: &HostRuntime) -> Option<(TcpListener, u16)> {
    match TcpListener::bind(rt, "127.0.0.1:0") {
        Ok(listener) => {
            let port = port_of(&listener)?;
            Some((listener, port))
        }
        Err(_) => None,
    }
}

fn port_of(listener: &TcpListener) -> Option<u16> {
    match listener.local_addr() {
        Ok(address) => Some(address.port()),
        Err(_) => None,
    }
}
