// The whole text of the generated load.
ghost use Rattle.std.specs.Prelude.{◌≡◌, ◌++◌, ◌∷◌, [], ◌<◌, ◌≤◌, OnOk, IfOk, Ok, map};
ghost use Rattle.std.specs.List.{flat_map};
ghost use Rattle.net_model.specs.Site.{count_up};
ghost use Rattle.scenario_text.specs.Text.{meaning_of};
ghost use Rattle.scenario_format.specs.Spelling.{spelled, lines_of};
ghost use Rattle.run_model.specs.Load.{load_site, load_scenario, round_lines};
ghost use Rattle.scenario_gen.specs.LoadText.{bits_of, ledgers_of, load_text};

use crate::ring::ring_lines;
use crate::round::round_lines;
use crate::words::{number, word};
use qkd_base::{Memory, Octets};
use std::alloc::Global;

// The line `bits` that gives a link's two ends two blocks of each lane for each round.
fn bits_line(text: &mut Octets, link: u8, rounds: u32) -> Result<(), Memory>
    requires { rounds ≤ 500 }
    ensures { OnOk result (text.new ≡ text.old ++ (spelled load_site (bits_of rounds link) ++ 10 ∷ [])) }
{
    text.extend(b"bits")?;
    number(text, u64::from(link))?;
    word(text, b"both")?;
    number(text, u64::from(2 * rounds))?;
    text.extend(b"\n")
}

// The lines that ask for the ledgers of both lanes of a link.
fn ledger_lines(text: &mut Octets, link: u8) -> Result<(), Memory>
    ensures { OnOk result (text.new ≡ text.old ++ lines_of load_site (ledgers_of link)) }
{
    text.extend(b"ledger")?;
    number(text, u64::from(link))?;
    text.extend(b" up\nledger")?;
    number(text, u64::from(link))?;
    text.extend(b" down\n")
}

fn all_bits(text: &mut Octets, rounds: u32) -> Result<(), Memory>
    requires { rounds ≤ 500 }
    ensures { OnOk result (text.new ≡ text.old ++ lines_of load_site (map (bits_of rounds) (count_up 8))) }
{
    for link in 0..8 {
        bits_line(text, link, rounds)?;
    }
    Ok(())
}

fn all_rounds(text: &mut Octets, rounds: u32) -> Result<(), Memory>
    requires { rounds ≤ 500 }
    ensures { OnOk result (text.new ≡ text.old ++ lines_of load_site (flat_map round_lines (count_up rounds))) }
{
    for round in 0..rounds {
        round_lines(text, round)?;
    }
    Ok(())
}

fn all_ledgers(text: &mut Octets) -> Result<(), Memory>
    ensures { OnOk result (text.new ≡ text.old ++ lines_of load_site (flat_map ledgers_of (count_up 8))) }
{
    for link in 0..8 {
        ledger_lines(text, link)?;
    }
    Ok(())
}

/// The text of the generated load of 1 to 500 rounds. It declares eight nodes in a ring with an application at each. It
/// gives the links two blocks of each lane for each round. Behind the rounds it asks for the ledgers of all lanes. The
/// text is read as the load's scenario. The only error is that memory runs out.
pub fn scenario_of(alloc: Global, rounds: u32) -> Result<Octets, Memory>
    requires least { 1 ≤ rounds }
    requires most { rounds ≤ 500 }
    ensures text { IfOk result (λ text. text ≡ load_text rounds) }
    ensures read { IfOk result (λ text. meaning_of text ≡ Ok (load_scenario rounds)) }
{
    let mut text = Octets::from_slice(alloc, ring_lines().as_bytes())?;
    all_bits(&mut text, rounds)?;
    all_rounds(&mut text, rounds)?;
    all_ledgers(&mut text)?;
    text.extend(b"end\n")?;
    Ok(text)
}
