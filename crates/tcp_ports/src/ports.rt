// Ports over TCP.
ghost use Rattle.std.specs.Prelude.{◌≡◌, ◌∷◌, [], ℕ, IfOk, OnOk, OnErr, IsSome, None};
ghost use Rattle.qkd_base.specs.Faults.{HasCause, one_more};
ghost use Rattle.edge_io.specs.Writes.{Adds};
ghost use Rattle.edge_io.specs.Connections.{IsFirstQueue, IsNewDoor};
ghost use Rattle.tcp_ports.specs.Tcp.{untold_asked, untold_queues, untold_waiting, untold_twins};

use crate::bell::Bell;
use crate::entrance::Entrance;
use crate::hall::Hall;
use crate::socket::{open_socket, path_of};
use crate::waiting_room::WaitingRoom;
use crate::{Crew, Place, Service, TcpDoor};
use edge_io::{Failed, Ports};
use std::alloc::Global;
use std::fs::Files;
use std::marker::Model;
use std::net::{Ipv4Addr, Net, SocketAddr, TcpListener, TcpStream};
use std::sync::{Arc, Wait};
use std::time::Clock;
use std::{fs, io};

/// The ports of this machine for other processes of it: TCP ports of the loopback address 127.0.0.1, or sockets in a folder.
/// Contracts don't know which ports were asked for. Each error is counted.
#[derive(Drop)]
pub struct TcpPorts<'a, R> {
    rt: &'a R,
    alloc: Global,
    crew: &'a Crew,
    service: Service<'a>,
    faults: u64,
}

impl<'a, R> Model for TcpPorts<'a, R> {
    ghost use Rattle.std.specs.Prelude.{ℕ};

    ghost Value = { ℕ };

    ghost view = { λ s. s.faults };
}

impl<'a, R> TcpPorts<'a, R> {
    /// The ports of this machine, none of them opened yet. Their listeners share the crew.
    pub fn new(rt: &'a R, alloc: Global, crew: &'a Crew, service: Service<'a>) -> Self
        ensures { result ≡ 0 }
    {
        TcpPorts {
            rt,
            alloc,
            crew,
            service,
            faults: 0,
        }
    }
}

impl<
    'a,
    R: Net<Listener = TcpListener, Stream = TcpStream> + Files + Clock + Wait + Eprint,
> TcpPorts<'a, R> {
    // What connections come in by, and its address if that is one of TCP. The log tells that it is open.
    fn enter(&self, port: u16) -> io::Result<(Entrance, Option<SocketAddr>)> {
        let node = self.service.node(port);
        match self.service.place {
            Place::Loopback => {
                let listener = TcpListener::bind(self.rt, (Ipv4Addr::LOCALHOST, port))?;
                let address = listener.local_addr()?;
                if let Some(log) = self.service.log {
                    let text = format!(in self.alloc; "{address}")?;
                    log.opened(self.rt, node, text.as_str());
                }
                Ok((Entrance::Tcp(listener), Some(address)))
            }
            Place::Folder(folder) => {
                let path = path_of(self.alloc, folder, node)?;
                let entrance = open_socket(self.rt, path.as_str())?;
                if let Some(log) = self.service.log {
                    log.opened(self.rt, node, path.as_str());
                }
                Ok((entrance, None))
            }
        }
    }

    // Opens a port. Any error is one of the port, or of memory.
    fn open_door(&self, port: u16) -> io::Result<TcpDoor<'a, R>>
        ensures { IfOk result (λ d. d ≡ record { port = port; accepted = 0; finished = 0; faults = 0 }) }
    {
        let (entrance, address) = self.enter(port)?;
        let told = match self.service.log {
            Some(_) => Some(self.service.node(port)),
            None => None,
        };
        let room = WaitingRoom::new(self.alloc, entrance, self.service.patience, told)?;
        let bell = if self.service.takes_turns() {
            Some(Bell::new(self.rt)?)
        } else {
            None
        };
        let hall = Arc::new(self.alloc, Hall::new(room, bell))?;
        Ok(TcpDoor::new(
            self.rt,
            self.alloc,
            hall,
            self.crew,
            self.service,
            address,
            port,
        ))
    }

    // Takes the socket of a node out of its folder. It may be gone, since the node's listeners share it.
    fn remove_socket(&self, node: u16) -> io::Result<()> {
        match self.service.place {
            Place::Loopback => Ok(()),
            Place::Folder(folder) => {
                let path = path_of(self.alloc, folder, node)?;
                fs::remove_file(self.rt, path.as_str())
            }
        }
    }
}

impl<'a, R: Net<Listener = TcpListener, Stream = TcpStream> + Files + Clock + Wait + Eprint> Ports
    for TcpPorts<'a, R> {
    type Door = TcpDoor<'a, R>;

    ghost asked = { λ _. untold_asked };

    ghost back = { λ _. None };

    ghost queues = { λ _. untold_queues };

    ghost faults = { λ s. s };

    fn open(&mut self, port: u16) -> Result<TcpDoor<'a, R>, Failed>
        ensures asked { Adds untold_asked untold_asked (port ∷ []) }
        ensures new_door { IfOk result (λ d. IsNewDoor (IsSome untold_asked) port d.port d.accepted d.finished d.faults None None) }
        ensures queue { IfOk result (λ d. IsFirstQueue (untold_queues port) untold_waiting untold_twins) }
        ensures refused { OnErr result (untold_queues ≡ untold_queues) }
        ensures others { (other : ℕ) → ¬ (other ≡ port) → untold_queues other ≡ untold_queues other }
        ensures door { IfOk result (λ d. d ≡ record { port = port; accepted = 0; finished = 0; faults = 0 }) }
        ensures cause { HasCause self.old self.new result }
        ensures calm { OnOk result (self.new ≡ self.old) }
        ensures once { OnErr result (self.new ≡ one_more self.old) }
    {
        match self.open_door(port) {
            Ok(door) => Ok(door),
            Err(_) => {
                self.faults = self.faults.saturating_add(1);
                Err(Failed)
            }
        }
    }

    fn shut(&mut self, door: TcpDoor<'a, R>)
        ensures back { Adds None None (door ∷ []) }
        ensures same { (untold_asked ≡ untold_asked) × (untold_queues ≡ untold_queues) × (self.new ≡ self.old) }
    {
        let _ = self.remove_socket(self.service.node(door.port()));
    }
}
