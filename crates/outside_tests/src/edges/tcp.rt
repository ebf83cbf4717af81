// The adapters over TCP, with a client in a thread of its own.
ghost use Rattle.std.specs.Prelude.{◌≡◌, ◌<◌, ◌≤◌, ◌+◌, ◌^◌};

use edge_io::{Ended, Listener, Ports, Sink, Source};
use std::io;
use std::io::{Read, Write};
use std::net::{Net, SocketAddr, TcpStream};
use std::sync::Wait;
use std::thread::join;
use std::time::{Clock, Duration};
use tcp_ports::{Crew, Patience, Place, Service, TcpDoor, TcpPorts};

// A request without a body.
const REQUEST: &[u8] = b"GET / HTTP/1.1\r\n\r\n";

// Waits that a test can wait for, and others that none comes to the end of.
fn patience(silence: u64, request: u64) -> Patience {
    Patience {
        silence: Duration::from_millis(silence),
        request: Duration::from_millis(request),
        crowd: Duration::from_millis(silence),
    }
}

// TCP ports with these waits, each listener for so many connections.
fn service<'a>(patience: Patience, connections: u64) -> Service<'a> {
    Service {
        place: Place::Loopback,
        first: 0,
        patience,
        connections,
        log: None,
    }
}

// The address of a listener.
fn address_of<R>(door: &TcpDoor<'_, R>) -> SocketAddr {
    match door.address() {
        Some(address) => address,
        None => SocketAddr::from(([127, 0, 0, 1], 0)),
    }
}

// Sends an octet on a new connection.
fn send<R: Net<Stream = TcpStream>>(
    net: &R,
    address: SocketAddr,
    octet: u8,
) -> io::Result<TcpStream> {
    let mut stream = TcpStream::connect(net, address)?;
    stream.write_all(&[octet])?;
    Ok(stream)
}

// The next octet that comes.
fn receive(stream: &mut TcpStream) -> io::Result<u8> {
    let mut buffer = [0u8; 1];
    stream.read_exact(&mut buffer)?;
    Ok(buffer[0])
}

// Sends an octet on a new connection, and gives the octet that comes back.
fn ask<R: Net<Stream = TcpStream>>(net: &R, address: SocketAddr, octet: u8) -> io::Result<u8> {
    let mut stream = send(net, address, octet)?;
    receive(&mut stream)
}

// Sends what the next connection sends back to it, one more each octet, and finishes the connection.
fn serve<R: Clock + Wait + Eprint>(door: &mut TcpDoor<'_, R>) -> bool
    requires few { door.old.accepted < 8 }
    requires finished { door.old.finished ≤ door.old.accepted }
    ensures few { door.new.accepted ≤ door.old.accepted + 1 }
    ensures finished { door.new.finished ≤ door.new.accepted }
{
    let mut buffer = [0u8; 1];
    let Ok((mut source, mut sink)) = door.accept() else {
        return false;
    };
    let read = source.read(&mut buffer);
    let written = sink.write_all(&[buffer[0].wrapping_add(1)]);
    door.finish(source, sink, Ended::Closed);
    read == Ok(1) && written == Ok(())
}

// Accepts a connection whose peer sends nothing, and finishes it. Whether it has ended for its reader.
fn await_silent<R: Clock + Wait + Eprint>(door: &mut TcpDoor<'_, R>) -> bool
    requires few { door.old.accepted < 8 }
    requires finished { door.old.finished ≤ door.old.accepted }
{
    let mut buffer = [0u8; 1];
    let Ok((mut source, sink)) = door.accept() else {
        return false;
    };
    let read = source.read(&mut buffer);
    door.finish(source, sink, Ended::Closed);
    read == Ok(0)
}

// Sends an octet on each of two new connections, serves one of them, and gives the octets that come back.
fn ask_two_and_serve<R: Net<Stream = TcpStream> + Clock + Wait + Eprint>(
    rt: &R,
    door: &mut TcpDoor<'_, R>,
) -> io::Result<(bool, u8, u8)>
    requires none_accepted { door.old.accepted ≡ 0 }
    requires none_finished { door.old.finished ≡ 0 }
{
    let address = address_of(door);
    let mut first = send(rt, address, b'a')?;
    let mut second = send(rt, address, b'c')?;
    let served = serve(door);
    Ok((served, receive(&mut first)?, receive(&mut second)?))
}

// Serves a connection and then awaits a silent one.
fn serve_and_await_silent<R: Clock + Wait + Eprint>(door: &mut TcpDoor<'_, R>) -> (bool, bool)
    requires none_accepted { door.old.accepted ≡ 0 }
    requires none_finished { door.old.finished ≡ 0 }
{
    let served = serve(door);
    (served, await_silent(door))
}

// Reads an octet of a connection, answers it, reads another one, and waits for a third. Whether the input ended before that one.
fn await_slow<R: Clock + Wait + Eprint>(door: &mut TcpDoor<'_, R>) -> bool
    requires few { door.old.accepted < 8 }
    requires finished { door.old.finished ≤ door.old.accepted }
{
    let mut buffer = [0u8; 1];
    let Ok((mut source, mut sink)) = door.accept() else {
        return false;
    };
    let first = source.read(&mut buffer);
    let answered = sink.write_all(&buffer);
    let second = source.read(&mut buffer);
    let third = source.read(&mut buffer);
    door.finish(source, sink, Ended::Closed);
    first == Ok(1) && answered == Ok(()) && second == Ok(1) && third == Ok(0)
}

// Accepts a connection, reads a request, answers it by an octet, and finishes the connection, whose turn has ended.
fn serve_turn<R: Clock + Wait + Eprint>(door: &mut TcpDoor<'_, R>) -> bool
    requires few { door.old.accepted < 8 }
    requires finished { door.old.finished ≤ door.old.accepted }
    ensures few { door.new.accepted ≤ door.old.accepted + 1 }
    ensures finished { door.new.finished ≤ door.new.accepted }
{
    let mut buffer = [0u8; 64];
    let Ok((mut source, mut sink)) = door.accept() else {
        return false;
    };
    let read = source.read(&mut buffer);
    let written = sink.write_all(b"x");
    let end = source.read(&mut buffer);
    door.finish(source, sink, Ended::Closed);
    read == Ok(REQUEST.len()) && written == Ok(()) && end == Ok(0)
}

// Serves three turns.
fn serve_three_turns<R: Clock + Wait + Eprint>(door: &mut TcpDoor<'_, R>) -> bool
    requires none_accepted { door.old.accepted ≡ 0 }
    requires none_finished { door.old.finished ≡ 0 }
{
    serve_turn(door) && serve_turn(door) && serve_turn(door)
}

// Sends a request on each of two connections, and one more on the first. The answers are the octets that come back.
fn ask_by_turns<R: Net<Stream = TcpStream>>(
    net: &R,
    address: SocketAddr,
) -> io::Result<(u8, u8, u8)> {
    let mut first = TcpStream::connect(net, address)?;
    let mut second = TcpStream::connect(net, address)?;
    first.write_all(REQUEST)?;
    second.write_all(REQUEST)?;
    let answers = (receive(&mut first)?, receive(&mut second)?);
    first.write_all(REQUEST)?;
    Ok((answers.0, answers.1, receive(&mut first)?))
}

// Connects and sends nothing, while another connection asks. The answer is that of the other one, and what came at the silent one.
fn ask_beside_silence<R: Net<Stream = TcpStream>>(
    net: &R,
    address: SocketAddr,
) -> io::Result<(u8, usize)> {
    let mut silent = TcpStream::connect(net, address)?;
    let answer = ask(net, address, b'a')?;
    let mut buffer = [0u8; 1];
    Ok((answer, silent.read(&mut buffer)?))
}

// Sends an octet, waits for its answer, sends a second one, and no third. The answer is what comes behind that.
fn ask_slowly<R: Net<Stream = TcpStream>>(net: &R, address: SocketAddr) -> io::Result<usize> {
    let mut stream = TcpStream::connect(net, address)?;
    let mut buffer = [0u8; 1];
    stream.write_all(b"a")?;
    stream.read_exact(&mut buffer)?;
    stream.write_all(b"b")?;
    stream.read(&mut buffer)
}

#[test]
fn a_silent_peer_delays_nobody_and_the_port_closes_behind_the_last_one(rt: HostRuntime) {
    let crew = Crew::new();
    let mut ports = TcpPorts::new(&rt, rt.alloc(), &crew, service(patience(1_000, 60_000), 2));
    let Ok(mut door) = ports.open(0) else {
        panic!(rt; "not opened");
    };
    let (client, address) = (&rt, address_of(&door));
    let (served, answer) = join(
        &rt,
        || serve_and_await_silent(&mut door),
        || ask_beside_silence(client, address),
    );
    assert!(rt; served == (true, true));
    assert!(rt; answer.ok() == Some((b'b', 0)));
    assert!(rt; ask(client, address, b'a').is_err());
    ports.shut(door);
}

#[test]
fn a_request_has_to_be_whole_in_time(rt: HostRuntime) {
    let crew = Crew::new();
    let mut ports = TcpPorts::new(&rt, rt.alloc(), &crew, service(patience(60_000, 500), 9));
    let Ok(mut door) = ports.open(0) else {
        panic!(rt; "not opened");
    };
    let (client, address) = (&rt, address_of(&door));
    let (served, rest) = join(
        &rt,
        || await_slow(&mut door),
        || ask_slowly(client, address),
    );
    assert!(rt; served);
    assert!(rt; rest.ok() == Some(0));
    ports.shut(door);
}

#[test]
fn connections_take_turns_where_they_have_no_end(rt: HostRuntime) {
    let crew = Crew::new();
    let mut ports = TcpPorts::new(
        &rt,
        rt.alloc(),
        &crew,
        service(patience(60_000, 60_000), 1 << 48),
    );
    let Ok(mut door) = ports.open(0) else {
        panic!(rt; "not opened");
    };
    let (client, address) = (&rt, address_of(&door));
    let (served, answers) = join(
        &rt,
        || serve_three_turns(&mut door),
        || ask_by_turns(client, address),
    );
    assert!(rt; served);
    assert!(rt; answers.ok() == Some((b'x', b'x', b'x')));
    ports.shut(door);
}

#[test]
fn a_port_and_its_twin_serve_a_client(rt: HostRuntime) {
    let crew = Crew::new();
    let mut ports = TcpPorts::new(&rt, rt.alloc(), &crew, service(patience(60_000, 60_000), 1));
    let Ok(mut door) = ports.open(0) else {
        panic!(rt; "not opened");
    };
    let Ok(mut twin) = door.twin() else {
        panic!(rt; "no twin");
    };
    assert!(rt; ports.open(address_of(&door).port()).is_err());
    let client = &rt;
    let (served, answers) = join(
        &rt,
        || serve(&mut twin),
        || ask_two_and_serve(client, &mut door),
    );
    assert!(rt; served);
    assert!(rt; answers.ok() == Some((true, b'b', b'd')));
    ports.shut(twin);
    ports.shut(door);
}
