// The commands of scenario lines.
use crate::end::Ends;
use crate::image::Image;
use crate::stream_call::StreamCall;
use qkd_base::{KeyName, Lane, LinkNo, Names, NodeNo, Octets, SaeNo, Saes};

/// What a line after the declarations asks for. The fields are in the order of the line's words. Nodes, links and
/// applications are numbered from 0 in order of declaration. Sizes of keys are in bits, from 64 to 4,096 in steps of 8.
/// Counts of keys and of chunks are from 1 to 128.
#[derive(Debug, Drop)]
pub enum Command {
    /// `bits LINK low|high|both COUNT`: the ends take COUNT blocks of link bytes, 1 to 1,024.
    Bits {
        link: LinkNo,
        ends: Ends,
        count: u16,
    },
    /// `fill ID ID BITS COUNT`: the master's manager makes COUNT keys of BITS bits for the slave.
    Fill {
        master: SaeNo,
        slave: SaeNo,
        bits: u16,
        count: u16,
    },
    /// `feed STREAM COUNT`: the manager at the home of a stream's source makes COUNT chunks of it.
    Feed {
        stream: KeyName,
        count: u16,
    },
    /// `tick NAME`: a node plans, and sends what it planned.
    Tick {
        node: NodeNo,
    },
    /// `settle ROUNDS`: at most ROUNDS rounds of ticks and passes, 1 to 1,000.
    Settle {
        rounds: u16,
    },
    /// `pass LINK WAY NUMBER`: a frame of a lane's wire is handed to the lane's receiver.
    Pass {
        lane: Lane,
        number: u32,
    },
    /// `flip LINK WAY NUMBER BIT`: as `pass`, but with one bit of the frame changed: bit `7 - BIT mod 8` of octet `BIT
    /// / 8`.
    Flip {
        lane: Lane,
        number: u32,
        bit: u32,
    },
    /// `forge LINK WAY HEX`: a lane's receiver gets 1 to 600 octets that anybody could have made.
    Forge {
        lane: Lane,
        octets: Octets,
    },
    /// `crash NAME`: a manager ends, and all that is not on its disk is lost.
    Crash {
        node: NodeNo,
    },
    /// `start NAME`: a manager is started on its disk.
    Start {
        node: NodeNo,
    },
    /// `cut NAME CALL lost|kept|torn`: a node's disk fails from the CALL-th call after this line on, 1 to 1,000,000.
    Cut {
        node: NodeNo,
        call: u32,
        image: Image,
    },
    /// `fail NAME CALL`: a node's disk fails in the CALL-th call after this line, 1 to 1,000,000.
    Fail {
        node: NodeNo,
        call: u32,
    },
    /// `link-up LINK`: a link is up from here on.
    LinkUp {
        link: LinkNo,
    },
    /// `link-down LINK`: a link is down from here on.
    LinkDown {
        link: LinkNo,
    },
    /// `enc NAME ID ID COUNT BITS`: a master asks for keys (ETSI GS QKD 014 V1.1.1, Get key).
    Enc {
        node: NodeNo,
        master: SaeNo,
        slave: SaeNo,
        count: u16,
        bits: u16,
    },
    /// `dec NAME ID ID KEY ..`: a slave asks for 1 to 128 named keys (ETSI GS QKD 014 V1.1.1, Get key with key IDs).
    Dec {
        node: NodeNo,
        slave: SaeNo,
        master: SaeNo,
        names: Names,
    },
    /// `status NAME ID ID`: how many keys of the default size are ready (ETSI GS QKD 014 V1.1.1, Get status).
    Status {
        node: NodeNo,
        master: SaeNo,
        slave: SaeNo,
    },
    /// `http NAME HEX`: the octets of a request to a node, 1 to 73,728.
    Http {
        node: NodeNo,
        octets: Octets,
    },
    /// `q004 NAME CALL`: a call on streams (ETSI GS QKD 004).
    Stream {
        node: NodeNo,
        call: StreamCall,
    },
    /// `show NAME KEY`: what a node holds of a key.
    Show {
        node: NodeNo,
        name: KeyName,
    },
    /// `ledger LINK WAY`: what became of the bytes of a lane.
    Ledger {
        lane: Lane,
    },
    /// `fill-group ID BITS COUNT ID ID ..`: the master's manager makes keys for 2 to 5 slaves.
    FillGroup {
        master: SaeNo,
        bits: u16,
        count: u16,
        slaves: Saes,
    },
    /// `enc-group NAME ID COUNT BITS ID ID ..`: a master asks for keys that it shares with 2 to 5 slaves.
    EncGroup {
        node: NodeNo,
        master: SaeNo,
        count: u16,
        bits: u16,
        slaves: Saes,
    },
}
