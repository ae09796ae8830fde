// What clients ask, and origins answer.

/// A page of an origin that answers by itself: host, path, tag, and how many bytes it has.
pub(crate) struct Resource {
    pub(crate) host: &'static [u8],
    pub(crate) path: &'static [u8],
    pub(crate) tag: &'static [u8],
    pub(crate) len: usize,
}

pub(crate) const RESOURCES: &[Resource] = &[
    Resource {
        host: b"s",
        path: b"/a",
        tag: b"\"x\"",
        len: 5,
    },
    Resource {
        host: b"s",
        path: b"/b",
        tag: b"\"y\"",
        len: 9_000,
    },
    Resource {
        host: b"s",
        path: b"/e",
        tag: b"\"z\"",
        len: 0,
    },
    Resource {
        host: b"t",
        path: b"/c",
        tag: b"\"c\"",
        len: 20_000,
    },
];

/// Requests for those pages.
pub(crate) const PLAIN_REQUESTS: &[&[u8]] = &[
    b"GET http://s/a HTTP/1.1\r\nHost: s\r\n\r\n",
    b"GET http://s/b HTTP/1.1\r\nHost: s\r\n\r\n",
    b"GET http://s/e HTTP/1.1\r\nHost: s\r\n\r\n",
    b"GET http://s/none HTTP/1.1\r\nHost: s\r\n\r\n",
    b"GET http://t/c HTTP/1.1\r\nHost: t\r\n\r\n",
    b"GET http://s/a HTTP/1.1\r\nRange: bytes=1-3\r\n\r\n",
    b"GET http://s/b HTTP/1.1\r\nRange: bytes=0-99\r\n\r\n",
    b"GET http://s/b HTTP/1.1\r\nRange: bytes=5000-5999\r\n\r\n",
    b"GET http://t/c HTTP/1.1\r\nRange: bytes=12000-\r\n\r\n",
    b"GET http://t/c HTTP/1.1\r\nRange: bytes=-100\r\n\r\n",
    b"GET http://s/a HTTP/1.1\r\nIf-None-Match: \"x\"\r\n\r\n",
    b"GET http://s/b HTTP/1.1\r\nCache-Control: no-cache\r\n\r\n",
    b"GET http://s/a HTTP/1.1\r\nCache-Control: no-store\r\n\r\n",
    b"GET http://s/a HTTP/1.1\r\nCache-Control: only-if-cached\r\n\r\n",
    b"GET http://s/a HTTP/1.1\r\nConnection: close\r\n\r\n",
    b"GET http://s/b HTTP/1.0\r\n\r\n",
    b"HEAD http://s/b HTTP/1.1\r\nHost: s\r\n\r\n",
];

/// Requests of all kinds, to origins that answer by cues too, and bytes that are no request.
pub(crate) const OTHER_REQUESTS: &[&[u8]] = &[
    b"GET http://h/a HTTP/1.1\r\nHost: h\r\n\r\n",
    b"GET http://h/a HTTP/1.1\r\nRange: bytes=5000-5003\r\n\r\n",
    b"GET http://h/b HTTP/1.1\r\nHost: h\r\n\r\n",
    b"GET http://h:8080/a HTTP/1.1\r\nHost: h\r\n\r\n",
    b"GET http://i/ HTTP/1.1\r\n\r\nGET http://i/2 HTTP/1.1\r\n\r\n",
    b"POST http://h/p HTTP/1.1\r\nContent-Length: 5\r\n\r\nhello",
    b"POST http://s/a HTTP/1.1\r\nContent-Length: 5\r\n\r\nhello",
    b"PUT http://h/a HTTP/1.1\r\nExpect: 100-continue\r\nContent-Length: 3\r\n\r\nnew",
    b"DELETE http://h/a HTTP/1.1\r\n\r\n",
    b"OPTIONS http://h/ HTTP/1.1\r\nMax-Forwards: 0\r\n\r\n",
    b"POST http://h/a HTTP/1.1\r\nTransfer-Encoding: chunked\r\n\r\n",
    b"GET /a HTTP/1.1\r\nHost: h\r\n\r\n",
    b"CONNECT h:443 HTTP/1.1\r\n\r\n",
    b"\x16\x03\x01\x02\0\x01\0",
    b"\r\n\r\n",
    b"GET http://h/a HTTP/1.1\r\nA",
];

/// What origins answer that are played by cues.
pub(crate) const RESPONSES: &[&[u8]] = &[
    b"HTTP/1.1 200 OK\r\nETag: \"x\"\r\nCache-Control: max-age=60\r\nContent-Length: 5\r\n\r\nhello",
    b"HTTP/1.1 200 OK\r\nETag: \"y\"\r\nCache-Control: max-age=60\r\nContent-Length: 3\r\n\r\nnew",
    b"HTTP/1.1 200 OK\r\nETag: \"x\"\r\nContent-Length: 10\r\n\r\nhello w",
    b"HTTP/1.1 200 OK\r\nETag: W/\"x\"\r\nContent-Length: 5\r\n\r\nhello",
    b"HTTP/1.1 200 OK\r\nTransfer-Encoding: chunked\r\n\r\n5\r\nhello\r\n0\r\n\r\n",
    b"HTTP/1.1 200 OK\r\n\r\nhello",
    b"HTTP/1.0 200 OK\r\nContent-Length: 5\r\n\r\nhello",
    b"HTTP/1.1 206 Partial Content\r\nETag: \"x\"\r\nContent-Range: bytes 4096-4099/4100\r\nContent-Length: 4\r\n\r\nlast",
    b"HTTP/1.1 206 Partial Content\r\nContent-Range: bytes 0-4/10\r\nContent-Length: 5\r\n\r\nhello",
    b"HTTP/1.1 304 Not Modified\r\nETag: \"x\"\r\nCache-Control: max-age=60\r\n\r\n",
    b"HTTP/1.1 404 Not Found\r\nContent-Length: 0\r\n\r\n",
    b"HTTP/1.1 416 Requested Range Not Satisfiable\r\nContent-Range: bytes */5\r\nContent-Length: 0\r\n\r\n",
    b"HTTP/1.1 100 Continue\r\n\r\nHTTP/1.1 204 No Content\r\n\r\n",
    b"HTTP/1.1 200 OK\r\nConnection: close\r\nContent-Length: 5\r\n\r\nhello",
    b"HTTP/1.1 200 OK\r\nTransfer-Encoding: gzip, chunked\r\n\r\n",
    b"HTTP/1.1 101 Switching Protocols\r\n\r\n",
    b"HTTP/1.1 500 Internal Server Error\r\nContent-Length: 4\r\n\r\noops",
    b"garbage\r\n\r\n",
];
