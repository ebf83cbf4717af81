// A listener over TCP.
ghost use Rattle.std.specs.Prelude.{◌≡◌, ◌+◌, ◌<◌, ◌≤◌, ◌^◌, OnOk, OnErr, IfOk, IsSome, MatchResult, None};
ghost use Rattle.qkd_base.specs.Faults.{HasCause, Rose, one_more};
ghost use Rattle.edge_io.specs.Connections.{IsNext, IsFirstQueue, IsNewDoor};
ghost use Rattle.tcp_ports.specs.Tcp.{TcpForm, untold_waiting, untold_twins, untold_done};

use crate::hall::Hall;
use crate::{Crew, PeerReader, PeerWriter, Service};
use edge_io::{Ended, Failed, Listener, WriteSink};
use std::alloc::Global;
use std::io;
use std::marker::Model;
use std::net::SocketAddr;
use std::sync::{Arc, Wait};
use std::time::Clock;

/// A listener over the system's TCP. Contracts know nothing of its connections. Each error is counted, and makes all listeners of
/// the crew fail. A connection is accepted once its peer has sent an octet, has ended it, or was silent for too long. So a peer
/// that does nothing costs no worker's time. Where connections take turns, one whose turn was finished is accepted again.
#[derive(Drop)]
pub struct TcpDoor<'a, R> {
    rt: &'a R,
    alloc: Global,
    hall: Arc<Hall, Global>,
    crew: &'a Crew,
    service: Service<'a>,
    // None at a socket in a folder.
    address: Option<SocketAddr>,
    port: u16,
    // Whether a thread serves the listener.
    ready: bool,
    accepted: u64,
    finished: u64,
    faults: u64,
}

impl<'a, R> Model for TcpDoor<'a, R> {
    ghost use Rattle.std.specs.Prelude.{◌≤◌, ◌^◌};
    ghost use Rattle.tcp_ports.specs.Tcp.{TcpForm};

    ghost Value = { TcpForm };

    ghost view = { λ s. record { port = s.port; accepted = s.accepted; finished = s.finished; faults = s.faults } };

    ghost invariant = { λ s. s.accepted ≤ 2 ^ 48 };
}

impl<'a, R> TcpDoor<'a, R> {
    /// A listener of this port, bound to this address, before its first call.
    pub(crate) fn new(
        rt: &'a R,
        alloc: Global,
        hall: Arc<Hall, Global>,
        crew: &'a Crew,
        service: Service<'a>,
        address: Option<SocketAddr>,
        port: u16,
    ) -> Self
        ensures { result ≡ record { port = port; accepted = 0; finished = 0; faults = 0 } }
    {
        crew.add();
        hall.add();
        TcpDoor {
            rt,
            alloc,
            hall,
            crew,
            service,
            address,
            port,
            ready: false,
            accepted: 0,
            finished: 0,
            faults: 0,
        }
    }

    /// The TCP address that the listener is bound to. A socket in a folder has none.
    pub fn address(&self) -> Option<SocketAddr> {
        self.address
    }

    pub(crate) fn port(&self) -> u16 {
        self.port
    }

    // Counts an error, and tells all other listeners.
    fn fail(&mut self) -> Failed
        ensures whole { self.new ≡ record self.old { faults = one_more self.old.faults } }
        ensures later { self.old.faults ≤ self.new.faults }
        ensures rose { Rose self.old.faults self.new.faults }
    {
        self.crew.fail();
        self.faults = self.faults.saturating_add(1);
        Failed
    }
}

impl<'a, R: Clock + Wait> TcpDoor<'a, R> {
    // The next connection, as what reads from it and what writes to it. The first one comes once each listener has a thread.
    fn next_peer(&self) -> io::Result<(PeerReader<'a, R>, PeerWriter<'a, R>)>
        ensures { IfOk result (λ ends. ends.0 ≡ 0) }
    {
        if !self.ready {
            self.crew.muster(self.rt)?;
        }
        let peer = self.hall.next(self.rt, self.crew)?;
        let other = Arc::try_clone(&peer)?;
        let hall = Arc::try_clone(&self.hall)?;
        Ok((
            PeerReader::new(self.rt, self.alloc, hall, peer, self.service.patience),
            PeerWriter::new(self.rt, other, self.service),
        ))
    }
}

impl<'a, R: Clock + Wait + Eprint> Listener for TcpDoor<'a, R> {
    type In = PeerReader<'a, R>;

    type Out = WriteSink<PeerWriter<'a, R>>;

    ghost port = { λ s. s.port };

    ghost accepted = { λ s. s.accepted };

    ghost finished = { λ s. s.finished };

    ghost waiting = { λ _. untold_waiting };

    ghost twins = { λ _. untold_twins };

    ghost done = { λ _. untold_done };

    ghost faults = { λ s. s.faults };

    fn accept(&mut self) -> Result<(PeerReader<'a, R>, WriteSink<PeerWriter<'a, R>>), Failed>
        requires few { self.old.accepted < 2 ^ 48 }
        ensures next { MatchResult result
            (λ ends. (self.new.accepted ≡ self.old.accepted + 1) × IsNext untold_waiting untold_waiting None None)
            (λ _. (self.new.accepted ≡ self.old.accepted) × (untold_waiting ≡ untold_waiting)) }
        ensures fresh { IfOk result (λ ends. (ends.0 ≡ 0) × (ends.1.1 ≡ 0)) }
        ensures calm { OnOk result (self.new.faults ≡ self.old.faults) }
        ensures same { (self.new.port ≡ self.old.port) × (self.new.finished ≡ self.old.finished) × (untold_twins ≡ untold_twins) × (untold_done ≡ untold_done) }
        ensures ok { IfOk result (λ ends. (self.new ≡ record self.old { accepted = self.old.accepted + 1 }) × (ends.0 ≡ 0) × (ends.1.1 ≡ 0)) }
        ensures err { OnErr result (self.new ≡ record self.old { faults = one_more self.old.faults }) }
        ensures cause { HasCause self.old.faults self.new.faults result }
    {
        match self.next_peer() {
            Ok((input, output)) => {
                self.ready = true;
                self.accepted += 1;
                Ok((input, WriteSink::new(output)))
            }
            Err(_) => Err(self.fail()),
        }
    }

    fn finish(
        &mut self,
        source: PeerReader<'a, R>,
        sink: WriteSink<PeerWriter<'a, R>>,
        ended: Ended,
    )
        requires open { self.old.finished < self.old.accepted }
        ensures finished { self.new.finished ≡ self.old.finished + 1 }
        ensures same { (self.new.port ≡ self.old.port) × (self.new.accepted ≡ self.old.accepted) × (untold_waiting ≡ untold_waiting) × (untold_twins ≡ untold_twins) × (self.new.faults ≡ self.old.faults) }
        ensures whole { self.new ≡ record self.old { finished = self.old.finished + 1 } }
    {
        let _ = sink;
        if let Some(peer) = source.into_rest(ended) {
            self.hall.give_back(self.rt, peer);
        }
        self.finished += 1;
        if self.finished == self.service.connections {
            self.hall.leave(self.rt);
        }
    }

    fn twin(&mut self) -> Result<TcpDoor<'a, R>, Failed>
        ensures twin { IfOk result (λ d. IsNewDoor (IsSome untold_waiting × IsSome untold_done) self.old.port d.port d.accepted d.finished d.faults untold_waiting untold_done) }
        ensures queue { MatchResult result (λ d. IsFirstQueue untold_twins untold_waiting untold_twins) (λ _. untold_twins ≡ untold_twins) }
        ensures calm { OnOk result (self.new.faults ≡ self.old.faults) }
        ensures same { (self.new.port ≡ self.old.port) × (self.new.accepted ≡ self.old.accepted) × (self.new.finished ≡ self.old.finished) × (untold_waiting ≡ untold_waiting) × (untold_done ≡ untold_done) }
        ensures ok { IfOk result (λ d. (d ≡ record { port = self.old.port; accepted = 0; finished = 0; faults = 0 }) × (self.new ≡ self.old)) }
        ensures err { OnErr result (self.new ≡ record self.old { faults = one_more self.old.faults }) }
        ensures cause { HasCause self.old.faults self.new.faults result }
    {
        match Arc::try_clone(&self.hall) {
            Ok(hall) => Ok(TcpDoor::new(
                self.rt,
                self.alloc,
                hall,
                self.crew,
                self.service,
                self.address,
                self.port,
            )),
            Err(_) => Err(self.fail()),
        }
    }
}
