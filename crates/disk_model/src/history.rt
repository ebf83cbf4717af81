// The content of a disk in memory, and the record of its used calls.
ghost use Rattle.std.specs.Prelude.{◌≡◌, ◌+◌, ◌-◌, ◌≤◌, ◌<◌, ◌++◌, ◌∷◌, [], ℕ, min, max, length, take, drop, map, IfOk, OnOk, OnErr, replicate, vec_len, vec_capacity};
ghost use Rattle.disk_model.specs.Images.{overlaid};
ghost use Rattle.disk_model.specs.Record.{Wrote, Synced, held, replayed, revived};
ghost use Rattle.disk_model.specs.declared.arm.Image.{Image as State};
ghost use Rattle.disk_model.specs.declared.arm.Image.TheVariants.{Kept};
ghost use Rattle.disk_model.specs.History.{IsHistory, HasRoom, GrowsFrom, EndWithin, with_octets, octets_of, marked_write, used_of, past_of, kept_of, undone, laid_back};

use crate::Image;
use http_server::Log;
use qkd_base::Memory;
use std::alloc::Global;

/// A range that was written since the last sync, and what the disk holds of it.
#[derive(Clone, Copy, Debug, PartialEq, Eq)]
pub struct Range {
    pub at: usize,
    pub len: usize,
    /// How much of it is inside the disk since its last revival.
    pub inside: usize,
    /// The disk's length before the octets were laid there.
    pub before: usize,
    pub state: Image,
}

/// The content, the writes since the last sync, and what takes them back. Of all that came before, only proofs know.
#[derive(Drop)]
pub struct History {
    pub first: Vec<u8>,
    pub content: Vec<u8>,
    pub writes: Vec<Range>,
    // The octets of these writes.
    pub log: Vec<u8>,
    // What the content had there before, filled up with zeros.
    pub saved: Vec<u8>,
    // The content at the last sync. A log is a list that only proofs read: it takes no memory.
    pub base: Log<Vec<u8>, usize>,
    // The writes before each sync, with their octets.
    pub past: Log<Vec<Range>, Vec<u8>>,
}

// Lays octets over a content that has memory for them.
fn lay(content: &mut Vec<u8>, at: usize, bytes: &[u8])
    requires room { at + length bytes.now ≤ vec_capacity content.old }
    ensures laid { content.new.items ≡ overlaid at bytes.now content.old.items }
    ensures room { vec_capacity content.old ≤ vec_capacity content.new }
{
    let size = content.len();
    if at > size {
        return;
    }
    if bytes.len() <= size - at {
        content[at..at + bytes.len()].copy_from_slice(bytes);
    } else {
        content.truncate(at);
        content.extend_from_slice(bytes).unwrap();
    }
}

// Lays this many octets EE over a content that has memory for them.
fn fill(content: &mut Vec<u8>, at: usize, count: usize)
    requires room { at + count ≤ vec_capacity content.old }
    ensures laid { content.new.items ≡ overlaid at (replicate count 238) content.old.items }
    ensures room { vec_capacity content.old ≤ vec_capacity content.new }
{
    let size = content.len();
    if at > size {
        return;
    }
    if count <= size - at {
        content[at..at + count].fill(0xee);
    } else {
        content.truncate(at);
        content.resize(at + count, 0xee).unwrap();
    }
}

impl Range {
    // The write as it is recorded after a cut with this image, on a disk that then has `size` octets.
    fn marked(self, image: Image, size: usize) -> Range
        ensures { result ≡ marked_write image size self }
    {
        match image {
            Image::Kept => self,
            Image::Lost => Range {
                inside: self.inside.min(size.saturating_sub(self.at)),
                state: Image::Lost,
                ..self
            },
            Image::Torn => Range {
                state: Image::Torn,
                ..self
            },
        }
    }
}

// Marks each write with the image of a cut.
fn mark(writes: &mut [Range], image: Image, size: usize)
    ensures { writes.new ≡ map (marked_write image size) writes.old }
{
    for write in writes.iter_mut() {
        *write = write.marked(image, size);
    }
}

// Marks each write of a list.
fn mark_all(writes: &mut Vec<Range>, image: Image, size: usize)
    ensures items { writes.new.items ≡ map (marked_write image size) writes.old.items }
    ensures room { vec_capacity writes.new ≡ vec_capacity writes.old }
    ensures len { vec_len writes.new ≡ vec_len writes.old }
{
    mark(&mut writes[..], image, size);
}

// Lays over the content what the disk holds of a write.
fn hold(content: &mut Vec<u8>, range: Range, bytes: &[u8])
    requires end { range.at + length bytes.now ≤ vec_capacity content.old }
    requires inside { range.inside ≤ length bytes.now }
    ensures content { content.new.items ≡ held content.old.items (Wrote range.at bytes.now range.inside range.state) }
    ensures room { vec_capacity content.old ≤ vec_capacity content.new }
{
    match range.state {
        Image::Lost => {}
        Image::Kept => lay(content, range.at, bytes),
        Image::Torn => fill(content, range.at, range.inside.min(bytes.len())),
    }
}

// Keeps the `len` octets of the content from place `at` on, filled up with zeros, in memory that is already allocated.
fn save(saved: &mut Vec<u8>, content: &[u8], at: usize, len: usize)
    requires room { vec_len saved.old + len ≤ vec_capacity saved.old }
    ensures kept { saved.new.items ≡ saved.old.items ++ kept_of at len content.now }
    ensures len { vec_len saved.new ≡ vec_len saved.old + len }
    ensures room { vec_capacity saved.old ≤ vec_capacity saved.new }
{
    let whole = saved.len() + len;
    if at < content.len() {
        let here = &content[at..];
        saved
            .extend_from_slice(&here[..len.min(here.len())])
            .unwrap();
    }
    saved.resize(whole, 0).unwrap();
}

// Takes back a write: the content is what it was before.
fn lay_back(content: &mut Vec<u8>, range: Range, saved: &[u8])
    requires end { range.at + range.len ≤ vec_capacity content.old }
    requires saved { range.len ≤ length saved.now }
    ensures content { content.new.items ≡ laid_back range saved.now content.old.items }
    ensures room { vec_capacity content.old ≤ vec_capacity content.new }
{
    match range.state {
        Image::Lost => {}
        _ => {
            content.truncate(range.before);
            let inside = range.len.min(range.before.saturating_sub(range.at));
            lay(content, range.at, &saved[..inside]);
        }
    }
}

// Takes back all writes, the last one first.
fn undo(content: &mut Vec<u8>, writes: &[Range], saved: &[u8])
    requires ends { EndWithin (vec_capacity content.old) writes.now }
    requires saved { length saved.now ≡ octets_of writes.now }
    ensures content { content.new.items ≡ undone writes.now saved.now content.old.items }
    ensures room { vec_capacity content.old ≤ vec_capacity content.new }
{
    let mut place = writes.len();
    let mut end = saved.len();
    'back: while place > 0 {
        place -= 1;
        let range = writes[place];
        end -= range.len;
        lay_back(content, range, &saved[end..]);
    }
}

// Lays over the content what the disk holds of each write, and keeps what was there.
fn redo(content: &mut Vec<u8>, writes: &mut [Range], saved: &mut Vec<u8>, log: &[u8])
    requires ends { EndWithin (vec_capacity content.old) writes.old }
    requires log { octets_of writes.old ≤ length log.now }
    requires saved { (saved.old.items ≡ []) × (vec_len saved.old ≡ 0) }
    requires room { octets_of writes.old ≤ vec_capacity saved.old }
    ensures content { content.new.items ≡ replayed content.old.items (with_octets writes.old log.now) }
    ensures writes { (with_octets writes.new log.now ≡ with_octets writes.old log.now) × (octets_of writes.new ≡ octets_of writes.old) }
    ensures long { length writes.new ≡ length writes.old }
    ensures ends { EndWithin (vec_capacity content.new) writes.new }
    ensures back { undone writes.new saved.new.items content.new.items ≡ content.old.items }
    ensures saved { length saved.new.items ≡ octets_of writes.new }
    ensures room { vec_capacity content.old ≤ vec_capacity content.new }
    ensures saved_room { (vec_capacity saved.old ≤ vec_capacity saved.new) × (vec_len saved.new ≡ octets_of writes.new) }
{
    let mut rest = log;
    'again: for write in writes.iter_mut() {
        let range = Range {
            before: content.len(),
            ..*write
        };
        save(saved, content, range.at, range.len);
        hold(content, range, &rest[..range.len]);
        rest = &rest[range.len..];
        *write = range;
    }
}

// Does so with the writes of a list.
fn redo_all(content: &mut Vec<u8>, writes: &mut Vec<Range>, saved: &mut Vec<u8>, log: &[u8])
    requires ends { EndWithin (vec_capacity content.old) writes.old.items }
    requires log { octets_of writes.old.items ≤ length log.now }
    requires saved { (saved.old.items ≡ []) × (vec_len saved.old ≡ 0) }
    requires room { octets_of writes.old.items ≤ vec_capacity saved.old }
    ensures content { content.new.items ≡ replayed content.old.items (with_octets writes.old.items log.now) }
    ensures writes { (with_octets writes.new.items log.now ≡ with_octets writes.old.items log.now) × (octets_of writes.new.items ≡ octets_of writes.old.items) }
    ensures ends { EndWithin (vec_capacity content.new) writes.new.items }
    ensures back { undone writes.new.items saved.new.items content.new.items ≡ content.old.items }
    ensures saved { length saved.new.items ≡ octets_of writes.new.items }
    ensures room { vec_capacity content.old ≤ vec_capacity content.new }
    ensures saved_room { (vec_capacity saved.old ≤ vec_capacity saved.new) × (vec_len saved.new ≡ octets_of writes.new.items) }
    ensures list { (vec_capacity writes.new ≡ vec_capacity writes.old) × (vec_len writes.new ≡ vec_len writes.old) }
{
    redo(content, &mut writes[..], saved, log);
}

impl History {
    /// The record of a disk with this content, all of it synced.
    pub fn new(alloc: Global, content: &[u8]) -> Result<Self, Memory>
        ensures sound { IfOk result IsHistory }
        ensures first { IfOk result (λ h. h.first.items ≡ content.now) }
        ensures calls { IfOk result (λ h. used_of h ≡ []) }
        ensures past { IfOk result (λ h. past_of h ≡ []) }
    {
        let first = content.to_vec(alloc)?;
        let content = content.to_vec(alloc)?;
        let base = Log::new().and(&content, &0);
        Ok(History {
            first,
            content,
            writes: Vec::new(alloc),
            log: Vec::new(alloc),
            saved: Vec::new(alloc),
            base,
            past: Log::new(),
        })
    }

    /// Allocates the memory for a content up to this end, for this many octets of writes, and for 16 calls.
    pub fn room(&mut self, end: usize) -> Result<(), Memory>
        requires { IsHistory self.old }
        ensures sound { IsHistory self.new }
        ensures first { self.new.first ≡ self.old.first }
        ensures calls { used_of self.new ≡ used_of self.old }
        ensures past { past_of self.new ≡ past_of self.old }
        ensures room { OnOk result (HasRoom self.new end end 16) }
        ensures grows { GrowsFrom self.old self.new 0 0 }
    {
        self.content
            .reserve(end.saturating_sub(self.content.len()))?;
        self.log.reserve(end)?;
        self.saved.reserve(end)?;
        self.writes.reserve(16)?;
        Ok(())
    }

    /// Writes octets, in memory that is already allocated.
    pub fn write(&mut self, at: usize, bytes: &[u8])
        requires sound { IsHistory self.old }
        requires room { HasRoom self.old (at + length bytes.now) (length bytes.now) 1 }
        ensures sound { IsHistory self.new }
        ensures first { self.new.first ≡ self.old.first }
        ensures calls { used_of self.new ≡ used_of self.old ++ Wrote at bytes.now (length bytes.now) Kept ∷ [] }
        ensures past { past_of self.new ≡ past_of self.old }
        ensures grows { GrowsFrom self.old self.new (length bytes.now) 1 }
    {
        let before = self.content.len();
        save(&mut self.saved, &self.content, at, bytes.len());
        lay(&mut self.content, at, bytes);
        self.log.extend_from_slice(bytes).unwrap();
        self.writes.push_reserved(Range {
            at,
            len: bytes.len(),
            inside: bytes.len(),
            before,
            state: Image::Kept,
        });
    }

    /// Records a sync. From now on only proofs know of the writes before it.
    pub fn sync(&mut self)
        requires { IsHistory self.old }
        ensures sound { IsHistory self.new }
        ensures first { self.new.first ≡ self.old.first }
        ensures calls { used_of self.new ≡ used_of self.old ++ Synced ∷ [] }
        ensures past { past_of self.new ≡ used_of self.old ++ Synced ∷ [] }
        ensures synced { length (past_of self.new) ≡ length (used_of self.old) + 1 }
        ensures grows { GrowsFrom self.old self.new 0 0 }
    {
        self.past = self.past.and(&self.writes, &self.log);
        self.base = Log::new().and(&self.content, &0);
        self.writes.clear();
        self.log.clear();
        self.saved.clear();
    }

    /// Makes the content the image that a cut left.
    pub fn revive(&mut self, image: Image)
        requires { IsHistory self.old }
        ensures sound { IsHistory self.new }
        ensures first { self.new.first ≡ self.old.first }
        ensures calls { used_of self.new ≡ revived image (length (replayed self.old.first.items (take (length (past_of self.old)) (used_of self.old)))) (length (past_of self.old)) (used_of self.old) }
        ensures past { past_of self.new ≡ past_of self.old }
        ensures grows { GrowsFrom self.old self.new 0 0 }
    {
        match image {
            Image::Kept => {}
            Image::Lost => {
                undo(&mut self.content, &self.writes, &self.saved);
                mark_all(&mut self.writes, Image::Lost, self.content.len());
            }
            Image::Torn => {
                undo(&mut self.content, &self.writes, &self.saved);
                mark_all(&mut self.writes, Image::Torn, 0);
                self.saved.clear();
                redo_all(
                    &mut self.content,
                    &mut self.writes,
                    &mut self.saved,
                    &self.log,
                );
            }
        }
    }
}
