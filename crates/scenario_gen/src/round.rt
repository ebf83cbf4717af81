// The lines of a round.
ghost use Rattle.std.specs.Prelude.{◌≡◌, ◌+◌, ◌*◌, ◌%◌, ◌==◌, ◌||◌, ◌++◌, ◌∷◌, [], ◌<◌, ◌≤◌, OnOk, map};
ghost use Rattle.qkd_base.specs.declared.key_name.NameKind.TheVariants.{Key};
ghost use Rattle.run_types.specs.declared.command.Command.TheVariants as commands;
ghost use Rattle.scenario_format.specs.Spelling.{spelled, spaced, lines_of, name_word};
ghost use Rattle.run_model.specs.Load.{load_site, round_lines, names_before};

use crate::words::{name, node, number, sae};
use qkd_base::{KeyName, Memory, NameKind, NodeNo, Octets};

// Whether a node is the home of the master or of the slave of a round.
fn is_in(node: u32, round: u32) -> bool
    requires { round < 500 }
    ensures { result ≡ (round % 8 == node || (3 * round + 1) % 8 == node) }
{
    round % 8 == node || (3 * round + 1) % 8 == node
}

// How many names a node gives in a round: four for new keys, or four for the Stored notes of keys.
fn names_in(node: u32, round: u32) -> u64
    requires { round < 500 }
    ensures sum { names_before node (round + 1) ≡ names_before node round + result }
    ensures few { result ≤ 4 }
{
    if is_in(node, round) { 4 } else { 0 }
}

// How many names a node has given before a round.
fn names_before(node: u32, round: u32) -> u64
    requires { round ≤ 500 }
    ensures { result ≡ names_before node round }
{
    let mut count = 0;
    for r in 0..round {
        count += names_in(node, r);
    }
    count
}

// The line that makes four keys for a master and a slave.
fn fill_line(text: &mut Octets, master: u8, slave: u8) -> Result<(), Memory>
    requires master { master < 8 }
    requires slave { slave < 8 }
    ensures { OnOk result (text.new ≡ text.old ++ (spelled load_site (commands.Fill master slave 256 4) ++ 10 ∷ [])) }
{
    text.extend(b"fill")?;
    sae(text, master)?;
    sae(text, slave)?;
    number(text, 256)?;
    number(text, 4)?;
    text.extend(b"\n")
}

// The line that brings the keys to the slave's node.
fn settle_line(text: &mut Octets) -> Result<(), Memory>
    ensures { OnOk result (text.new ≡ text.old ++ (spelled load_site (commands.Settle 40) ++ 10 ∷ [])) }
{
    text.extend(b"settle")?;
    number(text, 40)?;
    text.extend(b"\n")
}

// The line that hands the four keys to the master.
fn enc_line(text: &mut Octets, master: u8, slave: u8) -> Result<(), Memory>
    requires master { master < 8 }
    requires slave { slave < 8 }
    ensures { OnOk result (text.new ≡ text.old ++ (spelled load_site (commands.Enc master master slave 4 256) ++ 10 ∷ [])) }
{
    text.extend(b"enc")?;
    node(text, master)?;
    sae(text, master)?;
    sae(text, slave)?;
    number(text, 4)?;
    number(text, 256)?;
    text.extend(b"\n")
}

// Adds the name of one key of a node of the ring.
fn key(text: &mut Octets, node: u8, count: u64) -> Result<(), Memory>
    requires node { node < 8 }
    requires some { 1 ≤ count }
    requires few { count ≤ 5000 }
    ensures { OnOk result (text.new ≡ text.old ++ 32 ∷ name_word (record { node = node; kind = Key; count = count })) }
{
    match NodeNo::new(node) {
        Some(node) => match KeyName::new(node, NameKind::Key, count) {
            Some(key) => name(text, key),
            None => unreachable!(),
        },
        None => unreachable!(),
    }
}

// Adds the names of four consecutive keys. The node gave `before` names before them.
fn keys(text: &mut Octets, node: u8, before: u64) -> Result<(), Memory>
    requires node { node < 8 }
    requires few { before ≤ 4000 }
    ensures { OnOk result (text.new ≡ text.old ++ spaced (map name_word (map (λ k. record { node = node; kind = Key; count = before + k }) (1 ∷ 2 ∷ 3 ∷ 4 ∷ [])))) }
{
    key(text, node, before + 1)?;
    key(text, node, before + 2)?;
    key(text, node, before + 3)?;
    key(text, node, before + 4)
}

// The line that hands the four keys to the slave, by their names.
fn dec_line(text: &mut Octets, slave: u8, master: u8, before: u64) -> Result<(), Memory>
    requires master { master < 8 }
    requires slave { slave < 8 }
    requires few { before ≤ 4000 }
    ensures { OnOk result (text.new ≡ text.old ++ (spelled load_site (commands.Dec slave slave master (map (λ k. record { node = master; kind = Key; count = before + k }) (1 ∷ 2 ∷ 3 ∷ 4 ∷ []))) ++ 10 ∷ [])) }
{
    text.extend(b"dec")?;
    node(text, slave)?;
    sae(text, slave)?;
    sae(text, master)?;
    keys(text, master, before)?;
    text.extend(b"\n")
}

/// Adds a round: four keys are made for a master and a slave, brought to the slave's node, and handed to both.
pub fn round_lines(text: &mut Octets, round: u32) -> Result<(), Memory>
    requires { round ≤ 500 }
    ensures { OnOk result (text.new ≡ text.old ++ lines_of load_site (round_lines round)) }
{
    let master = (round % 8) as u8;
    let slave = ((3 * round + 1) % 8) as u8;
    let before = names_before(round % 8, round);
    fill_line(text, master, slave)?;
    settle_line(text)?;
    enc_line(text, master, slave)?;
    dec_line(text, slave, master, before)?;
    Ok(())
}
