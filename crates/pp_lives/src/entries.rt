// What is kept, as it is written down: entries with their heads by the disk format, and files.
use crate::format::laid_out;
use pp_text::OutOfMemory;
use pp_world::Name;
use std::alloc::Global;

/// An entry. Its name is the MD5 digest of its key, and zeros follow its head.
#[derive(Clone, Copy)]
pub struct Entry {
    pub name: Name,
    pub key: &'static [u8],
    pub head: &'static [u8],
    /// How many bytes its body has.
    pub length: u64,
    pub body: Body,
}

#[derive(Clone, Copy)]
pub enum Body {
    Text(&'static [u8]),
    /// The first bytes of the noise that a course is played with.
    Noise,
}

/// How many bytes of noise there are: five chunks.
const NOISE_LEN: usize = 20_480;

/// The bytes of a generator that begins with this seed: no two chunks of them are alike.
pub fn noise(seed: u64) -> [u8; NOISE_LEN] {
    let mut bytes = [0; NOISE_LEN];
    let mut state = seed;
    for byte in bytes.iter_mut() {
        state = state
            .wrapping_mul(6_364_136_223_846_793_005)
            .wrapping_add(1_442_695_040_888_963_407);
        *byte = (state >> 33).to_le_bytes()[0];
    }
    bytes
}

impl Entry {
    /// The bytes of its body between two offsets: none, where they are not written down.
    pub fn part<'a>(&self, noise: &'a [u8], from: usize, to: usize) -> &'a [u8] {
        let body: &'a [u8] = match self.body {
            Body::Text(text) => text,
            Body::Noise => noise,
        };
        body.get(from..to).unwrap_or(&[])
    }

    pub fn whole<'a>(&self, noise: &'a [u8]) -> &'a [u8] {
        self.part(noise, 0, self.length as usize)
    }
}

/// A file of a folder.
#[derive(Clone, Copy)]
pub struct File {
    pub name: Name,
    pub bytes: Bytes,
}

#[derive(Clone, Copy)]
pub enum Bytes {
    /// The head of an entry, these gates, and its body.
    Entry(&'static Entry, &'static [u8]),
    Text(&'static [u8]),
    /// The same byte, so many times.
    Run(u8, usize),
    /// Noise by this seed in the place of a head, and the gates and the body of two chunks.
    Noise(u64),
}

impl File {
    pub fn bytes(&self, alloc: Global, body: &[u8]) -> Result<Vec<u8>, OutOfMemory> {
        Ok(match self.bytes {
            Bytes::Entry(entry, gates) => laid_out(alloc, entry.head, gates, entry.whole(body))?,
            Bytes::Text(text) => Vec::from_slice(alloc, text)?,
            Bytes::Run(byte, count) => vec![in alloc; byte; count]?,
            Bytes::Noise(seed) => {
                let head = noise(seed);
                let head = head.get(..8192).unwrap_or(&[]);
                laid_out(alloc, head, &[1, 1], TWO.whole(body))?
            }
        })
    }
}

pub const A: &[u8] = b"http://h/a";

pub const A_NAME: Name = *b"2ce7276502725c281e6d5ae4e55aed55";

pub const B_NAME: Name = *b"9eb7218839b91c098ab0e2d8c080c379";

pub const HELLO: &Entry = &Entry {
    name: A_NAME,
    key: A,
    head: b"HTTP/1.1 200 OK\r\netag: \"x\"\r\ndate: Sun, 06 Nov 1994 08:49:37 GMT\r\ncache-control: max-age=60\r\nX-Polipo-Location: http://h/a\r\nX-Polipo-Date: 784111777\r\nX-Polipo-Age: 0\r\nX-Polipo-Length: 5\r\nX-Polipo-Body-Offset: 12288\r\n\r\n",
    length: 5,
    body: Body::Text(b"hello"),
};

pub const OTHER: &Entry = &Entry {
    name: A_NAME,
    key: A,
    head: b"HTTP/1.1 200 OK\r\netag: \"x\"\r\ndate: Sun, 06 Nov 1994 08:49:37 GMT\r\ncache-control: max-age=60\r\nX-Polipo-Location: http://h/a\r\nX-Polipo-Date: 784111777\r\nX-Polipo-Age: 0\r\nX-Polipo-Length: 6\r\nX-Polipo-Body-Offset: 12288\r\n\r\n",
    length: 6,
    body: Body::Text(b"other!"),
};

/// The head of `TWO`.
pub const HEAD_OF_TWO: &[u8] =
    b"HTTP/1.1 200 OK\r\netag: \"x\"\r\ndate: Sun, 06 Nov 1994 08:49:37 GMT\r\ncache-control: max-age=60\r\nX-Polipo-Location: http://h/a\r\nX-Polipo-Date: 784111777\r\nX-Polipo-Age: 0\r\nX-Polipo-Length: 8192\r\nX-Polipo-Body-Offset: 12288\r\n\r\n";

/// A body of two chunks.
pub const TWO: &Entry = &Entry {
    name: A_NAME,
    key: A,
    head: HEAD_OF_TWO,
    length: 8192,
    body: Body::Noise,
};

/// Two chunks, and five bytes behind them.
pub const TWO_AND_5: &Entry = &Entry {
    name: A_NAME,
    key: A,
    head: b"HTTP/1.1 200 OK\r\netag: \"x\"\r\ndate: Sun, 06 Nov 1994 08:49:37 GMT\r\ncache-control: max-age=60\r\nX-Polipo-Location: http://h/a\r\nX-Polipo-Date: 784111777\r\nX-Polipo-Age: 0\r\nX-Polipo-Length: 8197\r\nX-Polipo-Body-Offset: 12288\r\n\r\n",
    length: 8197,
    body: Body::Noise,
};

pub const THREE: &Entry = &Entry {
    name: A_NAME,
    key: A,
    head: b"HTTP/1.1 200 OK\r\netag: \"x\"\r\ndate: Sun, 06 Nov 1994 08:49:37 GMT\r\ncache-control: max-age=60\r\nX-Polipo-Location: http://h/a\r\nX-Polipo-Date: 784111777\r\nX-Polipo-Age: 0\r\nX-Polipo-Length: 12288\r\nX-Polipo-Body-Offset: 12288\r\n\r\n",
    length: 12_288,
    body: Body::Noise,
};

pub const FOUR: &Entry = &Entry {
    name: A_NAME,
    key: A,
    head: b"HTTP/1.1 200 OK\r\netag: \"x\"\r\ndate: Sun, 06 Nov 1994 08:49:37 GMT\r\ncache-control: max-age=60\r\nX-Polipo-Location: http://h/a\r\nX-Polipo-Date: 784111777\r\nX-Polipo-Age: 0\r\nX-Polipo-Length: 16384\r\nX-Polipo-Body-Offset: 12288\r\n\r\n",
    length: 16_384,
    body: Body::Noise,
};

pub const FIVE: &Entry = &Entry {
    name: A_NAME,
    key: A,
    head: b"HTTP/1.1 200 OK\r\netag: \"x\"\r\ndate: Sun, 06 Nov 1994 08:49:37 GMT\r\ncache-control: max-age=60\r\nX-Polipo-Location: http://h/a\r\nX-Polipo-Date: 784111777\r\nX-Polipo-Age: 0\r\nX-Polipo-Length: 20480\r\nX-Polipo-Body-Offset: 12288\r\n\r\n",
    length: 20_480,
    body: Body::Noise,
};

/// Two chunks of the key `http://h/b`.
pub const BESIDE: &Entry = &Entry {
    name: B_NAME,
    key: b"http://h/b",
    head: b"HTTP/1.1 200 OK\r\netag: \"x\"\r\ndate: Sun, 06 Nov 1994 08:49:37 GMT\r\ncache-control: max-age=60\r\nX-Polipo-Location: http://h/b\r\nX-Polipo-Date: 784111777\r\nX-Polipo-Age: 0\r\nX-Polipo-Length: 8192\r\nX-Polipo-Body-Offset: 12288\r\n\r\n",
    length: 8192,
    body: Body::Noise,
};
