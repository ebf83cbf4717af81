// What is read of octets.

/// A request that is cut behind each octet, and what is read of it.
pub(super) const CUT: &str =
    "GET /api/v1/keys/bob/enc_keys?number=1&size=256 HTTP/1.1\r\nHost: kme-a.example\r\nUser-Agent: curl/8.5.0\r\nAccept: */*\r\nX-SAE-ID: alice\r\n\r\n";

pub(super) const CUT_WANT: &str = "GET /api/v1/keys/bob/enc_keys?number=1&size=256 4 0";

/// A request with a body, and what is read of it.
pub(super) const POST: &str = "POST /p HTTP/1.1\r\nContent-Length: 4\r\n\r\nabcd";

pub(super) const POST_WANT: &str = "POST /p 1 4";

/// Octets of connections that end behind them, and what is read. Which of its two names a bad head has is open.
pub(super) const ROWS: &[(&str, &str)] = &[
    ("", "no request"),
    ("\r\n", "input ended"),
    ("GET / HTTP/1.1\n\n", "GET / 0 0"),
    ("\n\r\nGET / HTTP/1.0\r\n\r\n", "GET / 0 0 close"),
    ("GET / HTTP/1.2\r\n\r\n", "bad head"),
    ("GET  / HTTP/1.1\r\n\r\n", "bad head"),
    ("G(T / HTTP/1.1\r\n\r\n", "bad head"),
    ("GET / HTTP/1.1\r\nA : b\r\n\r\n", "bad head"),
    ("GET / HTTP/1.1\r\nA: b\rc\r\n\r\n", "bad head"),
    ("\u{1}", "bad head"),
    (
        "POST / HTTP/1.1\r\nTransfer-Encoding: chunked\r\n\r\n",
        "transfer encoding refused",
    ),
    (
        "GET / HTTP/1.1\r\ntransfer-encoding:\r\n\r\n",
        "transfer encoding refused",
    ),
    (
        "POST / HTTP/1.1\r\nContent-Length: 4\r\nTransfer-Encoding: chunked\r\n\r\n4\r\nabcd\r\n0\r\n\r\n",
        "transfer encoding refused",
    ),
    (
        "POST / HTTP/1.1\r\nExpect: 100-continue\r\nContent-Length: 4\r\n\r\nabcd",
        "POST / 2 4",
    ),
    (
        "POST / HTTP/1.1\r\nExpect: 100-continue\r\nContent-Length: 4\r\n\r\n",
        "input ended",
    ),
    ("HEAD / HTTP/1.1\r\n\r\nGET", "HEAD / 0 0"),
    ("POST / HTTP/1.1\r\n\r\n", "length missing"),
    ("post / HTTP/1.1\r\n\r\n", "post / 0 0"),
    ("POST / HTTP/1.1\r\nContent-Length: 0\r\n\r\n", "POST / 1 0"),
    (
        "POST / HTTP/1.1\r\nContent-Length: 0000000003\r\n\r\nabc",
        "POST / 1 3",
    ),
    (
        "POST / HTTP/1.1\r\nContent-Length: 00000000003\r\n\r\nabc",
        "bad length",
    ),
    ("POST / HTTP/1.1\r\nContent-Length:\r\n\r\n", "bad length"),
    (
        "POST / HTTP/1.1\r\nContent-Length: +1\r\n\r\na",
        "bad length",
    ),
    (
        "POST / HTTP/1.1\r\nContent-Length: 1\r\nCONTENT-LENGTH: 1\r\n\r\na",
        "bad length",
    ),
    (
        "POST / HTTP/1.1\r\nContent-Length: 65537\r\n\r\n",
        "body too long",
    ),
    (
        "POST / HTTP/1.1\r\nContent-Length: 9999999999\r\n\r\n",
        "body too long",
    ),
    (
        "GET / HTTP/1.1\r\nContent-Length: 2\r\n\r\na",
        "input ended",
    ),
    ("GET / HTTP/1.1\r\nContent-Length: 2\r\n\r\nab", "GET / 1 2"),
    (
        "GET / HTTP/1.0\nconnection:\t CLOSE \n\nmore",
        "GET / 1 0 close",
    ),
    (
        "GET / HTTP/1.1\r\nConnection: CLOSE\r\n\r\n",
        "GET / 1 0 close",
    ),
];

/// Octets with a part so many times, and what is read.
pub(super) struct Long {
    pub front: &'static str,
    pub part: &'static str,
    pub count: usize,
    pub back: &'static str,
    pub want: &'static str,
}

/// Heads, fields and bodies at their bounds, and past them.
pub(super) const LONG: &[Long] = &[
    Long {
        front: "GET / HTTP/1.1\r\nA:",
        part: "a",
        count: 8170,
        back: "\r\n\r\n",
        want: "GET / 1 0",
    },
    Long {
        front: "GET / HTTP/1.1\r\nA:",
        part: "a",
        count: 8171,
        back: "\r\n\r\n",
        want: "head too long",
    },
    Long {
        front: "GET / HTTP/1.1\r\nA:",
        part: "a",
        count: 9000,
        back: "\r\n\r\n",
        want: "head too long",
    },
    Long {
        front: "",
        part: "a",
        count: 100000,
        back: "",
        want: "head too long",
    },
    Long {
        front: "POST / HTTP/1.1\r\nContent-Length: 65536\r\n\r\n",
        part: "b",
        count: 65536,
        back: "rest",
        want: "POST / 1 65536",
    },
    Long {
        front: "\r\nGET / HTTP/1.1\r\n",
        part: "A: b\r\n",
        count: 32,
        back: "\r\n",
        want: "GET / 32 0",
    },
    Long {
        front: "\r\nGET / HTTP/1.1\r\n",
        part: "A: b\r\n",
        count: 33,
        back: "\r\n",
        want: "bad head",
    },
    Long {
        front: "\r\nGET / HTTP/1.1\r\n",
        part: "A: b\r\n",
        count: 32,
        back: "\r",
        want: "input ended",
    },
    Long {
        front: "\r\nGET / HTTP/1.1\r\n",
        part: "A: b\r\n",
        count: 32,
        back: "A",
        want: "bad head",
    },
    Long {
        front: "\r\nGET / HTTP/1.1\r\n",
        part: "A: b\r\n",
        count: 31,
        back: "A",
        want: "input ended",
    },
];
