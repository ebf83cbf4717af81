// The words of a line. Each call adds a space and a word behind what the text has so far.
ghost use Rattle.std.specs.Prelude.{◌≡◌, ◌++◌, ◌∷◌, ◌<◌, OnOk};
ghost use Rattle.std.specs.Fmt.{decimal};
ghost use Rattle.scenario_format.specs.Spelling.{node_word, sae_word, name_word};
ghost use Rattle.run_model.specs.Load.{load_site};

use itoa::Buffer;
use key_uuid::to_uuid;
use qkd_base::{KeyName, Memory, Octets};
use uuid::Uuid;

/// Adds a word.
pub fn word(text: &mut Octets, word: &[u8]) -> Result<(), Memory>
    ensures { OnOk result (text.new ≡ text.old ++ 32 ∷ word.now) }
{
    text.extend(b" ")?;
    text.extend(word)
}

/// Adds a number in decimal digits.
pub fn number(text: &mut Octets, number: u64) -> Result<(), Memory>
    ensures { OnOk result (text.new ≡ text.old ++ 32 ∷ decimal number) }
{
    let mut digits = Buffer::new();
    word(text, digits.format(number).as_bytes())
}

/// Adds the name of a key.
pub fn name(text: &mut Octets, name: KeyName) -> Result<(), Memory>
    ensures { OnOk result (text.new ≡ text.old ++ 32 ∷ name_word name) }
{
    let mut buffer = Uuid::encode_buffer();
    let spelled = to_uuid(name).hyphenated().encode_lower(&mut buffer);
    word(text, spelled.as_bytes())
}

/// Adds the name of a node of the ring.
#[tactic(auto, using(crate::proofs::RingNames::node_is))]
pub fn node(text: &mut Octets, node: u8) -> Result<(), Memory>
    requires { node < 8 }
    ensures { OnOk result (text.new ≡ text.old ++ 32 ∷ node_word load_site node) }
{
    let mut digits = Buffer::new();
    text.extend(b" n")?;
    text.extend(digits.format(node).as_bytes())
}

/// Adds the ID of an application of the ring.
#[tactic(auto, using(crate::proofs::RingNames::sae_is))]
pub fn sae(text: &mut Octets, sae: u8) -> Result<(), Memory>
    requires { sae < 8 }
    ensures { OnOk result (text.new ≡ text.old ++ 32 ∷ sae_word load_site sae) }
{
    let mut digits = Buffer::new();
    text.extend(b" s")?;
    text.extend(digits.format(sae).as_bytes())
}
