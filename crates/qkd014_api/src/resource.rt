ghost use Rattle.std.specs.Prelude.{◌≡◌, ◌≤◌, length};
ghost use Rattle.qkd014_api.specs.Resources.{mark_of, path_in, query_in, sae_part};

/// A resource of the interface (ETSI GS QKD 014 V1.1.1, section 5).
#[derive(Clone, Copy, Debug, PartialEq, Eq)]
pub(crate) enum Resource {
    Status,
    EncKeys,
    DecKeys,
}

// How many octets of a path stand before the application's ID: those of `/api/v1/keys/`.
const FRONT: usize = 13;

impl Resource {
    ghost use Rattle.qkd014_api.specs.Resources.{serves, tail_len};

    // How many octets of a path follow the application's ID.
    fn tail(self) -> usize
        ensures { result ≡ tail_len self }
    {
        match self {
            Resource::Status => 7,
            Resource::EncKeys | Resource::DecKeys => 9,
        }
    }

    /// Whether the resource serves a method.
    pub(crate) fn serves(self, method: &[u8]) -> bool
        ensures { result ≡ serves self method.now }
    {
        method == b"GET".as_slice() || (method == b"POST".as_slice() && self != Resource::Status)
    }
}

// The index of the `?` in a target, or the target's length.
fn mark(target: &[u8]) -> usize
    ensures place { result ≡ mark_of target.now }
    ensures within { result ≤ length target.now }
{
    for (place, b) in target.iter().enumerate() {
        if *b == b'?' {
            return place;
        }
    }
    target.len()
}

/// The part of a target before `?`.
pub(crate) fn path(target: &[u8]) -> &[u8]
    ensures { result.now ≡ path_in target.now }
{
    &target[..mark(target)]
}

/// The part of a target after `?`.
pub(crate) fn query(target: &[u8]) -> &[u8]
    ensures { result.now ≡ query_in target.now }
{
    let mark = mark(target);
    if mark == target.len() {
        &[]
    } else {
        &target[mark + 1..]
    }
}

/// The part of a path that is an application's ID.
pub(crate) fn sae_part(path: &[u8], resource: Resource) -> &[u8]
    ensures { result.now ≡ sae_part path.now resource }
{
    let tail = resource.tail();
    if path.len() < FRONT + tail {
        &[]
    } else {
        &path[FRONT..path.len() - tail]
    }
}
