// What the words of a call ask of the program itself, beside those that `network` knows.
ghost use Rattle.std.specs.Prelude.{◌≡◌, ◌≤◌, ◌<◌, true, false, None, IfOk, length};

use qkd_base::{Items, Memory, Text, Texts};
use std::alloc::Global;

/// A call of `network`.
#[derive(Debug, Drop)]
pub struct Call {
    pub words: Texts,
    /// How many words stood before these.
    pub before: usize,
    /// Whether requests are told of.
    pub log: bool,
    /// The folder of the nodes' sockets, where they have no TCP ports.
    pub folder: Option<Text>,
}

// Where the word for the port of `serve` stands, and what a word for a folder begins with there.
const PORT: usize = 3;

const FOLDER: &str = "unix:";

// The port that stands for the first socket of a folder.
const FIRST: &str = "1";

// Whether this word stands at this index.
fn is_at(words: &[Text], place: usize, word: &str) -> bool
    ensures { result ≡ true → place < length words.now }
{
    match words.get(place) {
        Some(found) => found.as_str() == word,
        None => false,
    }
}

// Takes `--log` off the words of `serve`, before or behind the others. Gives how many words stood before those that are left, and
// whether it was there.
fn take_log(words: &mut Vec<Text>) -> (usize, bool)
    ensures before { result.0 ≤ 1 }
    ensures kept { result.1 ≡ false → (words.new ≡ words.old) × (result.0 ≡ 0) }
{
    if is_at(words, 0, "--log") && is_at(words, 1, "serve") {
        words.remove(0);
        return (1, true);
    }
    let last = words.len().saturating_sub(1);
    if is_at(words, 0, "serve") && is_at(words, last, "--log") {
        words.pop();
        return (0, true);
    }
    (0, false)
}

// Puts a port in the place of a folder for sockets, and gives the folder.
fn take_folder(alloc: Global, words: &mut [Text]) -> Result<Option<Text>, Memory>
    ensures { IfOk result (λ folder. folder ≡ None → words.new ≡ words.old) }
{
    if !is_at(words, 0, "serve") || words.len() <= PORT {
        return Ok(None);
    }
    let folder = match words[PORT].as_str().strip_prefix(FOLDER) {
        Some(folder) if !folder.is_empty() => String::from_str(alloc, folder)?,
        _ => return Ok(None),
    };
    words[PORT] = Text::from_string(String::from_str(alloc, FIRST)?);
    Ok(Some(Text::from_string(folder)))
}

/// Takes the words that the program itself understands off the others. All other words are those of `network`.
pub fn read_call(alloc: Global, words: Texts) -> Result<Call, Memory>
    ensures before { IfOk result (λ call. call.before ≤ 1) }
    ensures kept { IfOk result (λ call. call.log ≡ false → call.folder ≡ None → (call.words ≡ words) × (call.before ≡ 0)) }
{
    let mut words = words.into_vec();
    let (before, log) = take_log(&mut words);
    let folder = take_folder(alloc, &mut words)?;
    Ok(Call {
        words: Items::from_vec(words),
        before,
        log,
        folder,
    })
}
