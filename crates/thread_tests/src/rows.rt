// Connections, each with what is written to it and how it ends.
use edge_io::Ended;

/// A connection: what its peer sends, which reads and which writes fail, the responses by their numbers in `RESPONSES`,
/// by how many writes they are written, and how it ends.
pub(crate) struct Row {
    pub sent: &'static [&'static str],
    pub read_fails: &'static [u64],
    pub write_fails: &'static [u64],
    pub responses: &'static [usize],
    pub writes: usize,
    pub ended: Ended,
}

const GET: &str =
    "GET /api/v1/keys/bob/enc_keys?number=1&size=256 HTTP/1.1\r\nHost: kme-a.example\r\nUser-Agent: curl/8.5.0\r\nAccept: */*\r\nX-SAE-ID: alice\r\n\r\n";

const LAST: &str =
    "GET /api/v1/keys/bob/enc_keys HTTP/1.1\r\nX-SAE-ID: alice\r\nConnection: Close\r\n\r\n";

const OLD: &str = "GET /api/v1/keys/bob/enc_keys HTTP/1.0\r\nX-SAE-ID: alice\r\n\r\n";

const ELSEWHERE: &str = "GET /elsewhere HTTP/1.1\r\n\r\n";

const HEAD: &str = "HEAD /api/v1/keys/bob/status HTTP/1.1\r\nX-SAE-ID: alice\r\n\r\n";

const CHUNKED: &str =
    "POST /api/v1/keys/bob/enc_keys HTTP/1.1\r\nX-SAE-ID: alice\r\nTransfer-Encoding: chunked\r\n\r\nd\r\n{\"number\": 1}\r\n0\r\n\r\n";

// A request that asks whether to go on, and its body.
const EXPECTING: &str =
    "POST /api/v1/keys/bob/enc_keys HTTP/1.1\r\nX-SAE-ID: alice\r\nExpect: 100-continue\r\nContent-Length: 13\r\n\r\n";

const BODY: &str = "{\"number\": 1}";

/// A key each, then none ready, a fault of a request, and refusals of the front; those behind which the connection closes say
/// so.
pub(crate) const RESPONSES: &[&str] = &[
    "HTTP/1.1 200 OK\r\nContent-Type: application/json\r\nContent-Length: 113\r\nConnection: keep-alive\r\n\r\n{\"keys\":[{\"key\":\"AAECAwQFBgcICQoLDA0ODxAREhMUFRYXGBkaGxwdHh8=\",\"key_ID\":\"00000000-0000-8000-8000-000000000001\"}]}",
    "HTTP/1.1 200 OK\r\nContent-Type: application/json\r\nContent-Length: 113\r\nConnection: keep-alive\r\n\r\n{\"keys\":[{\"key\":\"ICEiIyQlJicoKSorLC0uLzAxMjM0NTY3ODk6Ozw9Pj8=\",\"key_ID\":\"00000000-0000-8000-8000-000000000002\"}]}",
    "HTTP/1.1 503 Service Unavailable\r\nContent-Type: application/json\r\nContent-Length: 26\r\nConnection: keep-alive\r\n\r\n{\"message\":\"0 keys ready\"}",
    "HTTP/1.1 400 Bad Request\r\nContent-Type: application/json\r\nContent-Length: 30\r\nConnection: keep-alive\r\n\r\n{\"message\":\"unknown resource\"}",
    "HTTP/1.1 503 Service Unavailable\r\nContent-Type: application/json\r\nContent-Length: 26\r\nConnection: close\r\n\r\n{\"message\":\"0 keys ready\"}",
    "HTTP/1.1 400 Bad Request\r\nContent-Type: application/json\r\nContent-Length: 30\r\nConnection: close\r\n\r\n{\"message\":\"bad request head\"}",
    "HTTP/1.1 400 Bad Request\r\nContent-Type: application/json\r\nContent-Length: 25\r\nConnection: close\r\n\r\n{\"message\":\"input ended\"}",
    "HTTP/1.1 400 Bad Request\r\nContent-Type: application/json\r\nContent-Length: 30\r\nConnection: close\r\n\r\n{\"message\":\"unknown resource\"}",
    "HTTP/1.1 400 Bad Request\r\nContent-Type: application/json\r\nContent-Length: 39\r\nConnection: close\r\n\r\n{\"message\":\"transfer encoding refused\"}",
];

/// The connections of one door, one after another: two keys are ready when the first one comes.
pub(crate) const ROWS: &[Row] = &[
    Row {
        sent: &[GET],
        read_fails: &[],
        write_fails: &[],
        responses: &[0],
        writes: 1,
        ended: Ended::Closed,
    },
    Row {
        sent: &[GET],
        read_fails: &[],
        write_fails: &[],
        responses: &[1],
        writes: 1,
        ended: Ended::Closed,
    },
    Row {
        sent: &[],
        read_fails: &[],
        write_fails: &[],
        responses: &[],
        writes: 0,
        ended: Ended::Closed,
    },
    Row {
        sent: &[ELSEWHERE, GET, GET, LAST, GET],
        read_fails: &[],
        write_fails: &[],
        responses: &[3, 2, 2, 4],
        writes: 1,
        ended: Ended::Closed,
    },
    Row {
        sent: &[GET, OLD, GET],
        read_fails: &[],
        write_fails: &[],
        responses: &[2, 4],
        writes: 1,
        ended: Ended::Closed,
    },
    Row {
        sent: &[GET, "\0", GET],
        read_fails: &[],
        write_fails: &[],
        responses: &[2, 5],
        writes: 2,
        ended: Ended::Closed,
    },
    Row {
        sent: &[GET, "GET /api/v1/keys/bob"],
        read_fails: &[],
        write_fails: &[],
        responses: &[2, 6],
        writes: 2,
        ended: Ended::Closed,
    },
    Row {
        sent: &[GET, EXPECTING, BODY, HEAD, GET, EXPECTING],
        read_fails: &[],
        write_fails: &[],
        responses: &[2, 2, 3, 2, 6],
        writes: 2,
        ended: Ended::Closed,
    },
    Row {
        sent: &[HEAD, CHUNKED, GET],
        read_fails: &[],
        write_fails: &[],
        responses: &[3, 8],
        writes: 2,
        ended: Ended::Closed,
    },
    Row {
        sent: &[GET],
        read_fails: &[0],
        write_fails: &[],
        responses: &[],
        writes: 0,
        ended: Ended::ReadFault,
    },
    Row {
        sent: &[GET, GET, "GET"],
        read_fails: &[1],
        write_fails: &[],
        responses: &[2, 2],
        writes: 1,
        ended: Ended::ReadFault,
    },
    Row {
        sent: &[GET, GET, GET],
        read_fails: &[],
        write_fails: &[0],
        responses: &[],
        writes: 0,
        ended: Ended::WriteFault,
    },
    Row {
        sent: &[GET, "\0"],
        read_fails: &[],
        write_fails: &[1],
        responses: &[2],
        writes: 1,
        ended: Ended::WriteFault,
    },
];

/// A connection that sends this request 1,001 times is answered 1,000 times: by the first response, and at last by the second.
pub(crate) const MANY: (&str, usize, usize) = (ELSEWHERE, 3, 7);
