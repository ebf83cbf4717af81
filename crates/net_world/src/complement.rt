// Complemented keys.
ghost use Rattle.std.specs.Prelude.{◌≡◌};
ghost use Rattle.net_world.specs.Veiled.{complement, veiled_fact, veiled_payload};

use net_model::{Fact, Payload};
use qkd_base::Octets;

// Inverts each bit of the octets.
fn turn(octets: &mut [u8])
    ensures { octets.new ≡ complement octets.old }
{
    for octet in octets.iter_mut() {
        *octet = 255 - *octet;
    }
}

fn complement(octets: Octets) -> Octets
    ensures { result ≡ complement octets }
{
    let mut octets = octets.into_vec();
    turn(&mut octets);
    Octets::from_vec(octets)
}

// The fact with its key complemented.
fn veiled_fact(fact: Fact) -> Fact
    ensures { result ≡ veiled_fact fact }
{
    match fact {
        Fact::Key {
            name,
            master,
            slave,
            route,
            bytes,
        } => Fact::Key {
            name,
            master,
            slave,
            route,
            bytes: complement(bytes),
        },
        Fact::Chunk {
            name,
            stream,
            index,
            route,
            bytes,
        } => Fact::Chunk {
            name,
            stream,
            index,
            route,
            bytes: complement(bytes),
        },
        Fact::Part {
            name,
            key,
            master,
            slave,
            route,
            bytes,
        } => Fact::Part {
            name,
            key,
            master,
            slave,
            route,
            bytes: complement(bytes),
        },
        Fact::Stored { note, about, route } => Fact::Stored { note, about, route },
        Fact::Open {
            stream,
            source,
            peer,
            length,
            route,
        } => Fact::Open {
            stream,
            source,
            peer,
            length,
            route,
        },
        Fact::Joined { note, about, route } => Fact::Joined { note, about, route },
    }
}

/// The payload with its key complemented, if it has one.
pub fn veiled_payload(payload: Payload) -> Payload
    ensures { result ≡ veiled_payload payload }
{
    match payload {
        Payload::Data(fact) => Payload::Data(veiled_fact(fact)),
        Payload::Ack(name) => Payload::Ack(name),
    }
}
