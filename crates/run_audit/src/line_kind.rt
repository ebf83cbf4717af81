// The kinds of lines of a scenario, by what they ask for.
use qkd_base::{KeyName, SaeNo};

/// What a line of a scenario asks for, as far as the audit of its items needs it.
#[derive(Clone, Copy, Debug, PartialEq, Eq)]
pub enum LineKind {
    /// `node`: the manager that is started at the beginning.
    Node,
    Bits,
    /// `fill`, `fill-group`, `feed`
    Making,
    Tick,
    Settle,
    Pass,
    Flip,
    Forge,
    Crash,
    Start,
    /// `cut`, `fail`
    Arming,
    /// `link-up`, `link-down`
    LinkSetting,
    /// `enc`, `enc-group`, `dec`: the caller gets keys of the master, who may be the caller.
    Handing { caller: SaeNo, master: SaeNo },
    Status,
    Http,
    /// OPEN_CONNECT that opens a stream
    Opening,
    /// OPEN_CONNECT that joins a stream
    Joining,
    /// GET_KEY: the caller gets a chunk of the stream.
    Getting { caller: SaeNo, stream: KeyName },
    /// CLOSE
    Closing,
    Show,
    Ledger,
}
