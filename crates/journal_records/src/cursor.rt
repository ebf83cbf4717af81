ghost use Rattle.std.specs.Prelude.{◌≡◌, ◌+◌, ◌≤◌, ◌<◌, length, drop, take};
ghost use Rattle.qkd_base.specs.declared.key_name.NameKind.TheVariants.{Stream as StreamKind};
ghost use Rattle.frame_codec.specs.Reading.{named, of_kind, any_kind, sae, size, index, route};
ghost use Rattle.journal_records.specs.Answers.{Moves};
ghost use Rattle.journal_records.specs.Layout.{octet, link_no, direction, lane_end, within, plain, short_named, short_name_at, name_in};

use crate::Version;
use frame_codec::fault::Fault;
use frame_codec::fields::{index_of, name_of, name_of_kind, route_of, sae_of, size_of};
use qkd_base::{KeyName, LinkNo, NameKind, NodeNo, Octets, Route, SaeNo, Way};
use std::alloc::Global;
use std::marker::Model;

/// A reader that consumes octets from the first one on. Contracts see the octets that are left.
#[derive(Drop)]
pub struct Cursor<'a> {
    left: &'a [u8],
}

impl<'a> Model for Cursor<'a> {
    ghost use Rattle.std.specs.Prelude.{List, ℕ};

    ghost Value = { List ℕ };

    ghost view = { λ c. c.left.now };
}

// The name that 7 octets spell, or `None`.
fn short_name_at(octets: &[u8]) -> Option<KeyName>
    requires { 7 ≤ length octets.now }
    ensures { result ≡ short_name_at (take 7 octets.now) }
{
    let kind = match octets[0] / 16 {
        0 => NameKind::Key,
        1 => NameKind::Stream,
        2 => NameKind::Note,
        _ => return None,
    };
    let node = NodeNo::new(octets[0] % 16)?;
    let count = u64::from_be_bytes([
        0, 0, octets[1], octets[2], octets[3], octets[4], octets[5], octets[6],
    ]);
    KeyName::new(node, kind, count)
}

impl<'a> Cursor<'a> {
    /// A cursor at the first of these octets.
    pub fn new(octets: &'a [u8]) -> Self
        ensures { result ≡ octets.now }
    {
        Cursor { left: octets }
    }

    /// The octets that are left.
    pub fn left(&self) -> &[u8]
        ensures { result.now ≡ self.now }
    {
        self.left
    }

    /// How many octets are left.
    pub fn len(&self) -> usize
        ensures { result ≡ length self.now }
    {
        self.left.len()
    }

    /// Skips the next `count` octets.
    pub fn skip(&mut self, count: usize)
        requires { count ≤ length self.old }
        ensures { self.new ≡ drop count self.old }
    {
        self.left = &self.left[count..];
    }

    /// Reads the next octet.
    #[tactic(auto, unfolding(crate::specs::Layout::octet))]
    pub fn octet(&mut self) -> Result<u8, Fault>
        ensures { Moves result self.new (octet self.old) }
    {
        if self.left.is_empty() {
            return Err(Fault::Left(self.left.len()));
        }
        let octet = self.left[0];
        self.skip(1);
        Ok(octet)
    }

    /// Reads the number of a link.
    #[tactic(auto, unfolding(crate::specs::Layout::link_no))]
    pub fn link(&mut self) -> Result<LinkNo, Fault>
        ensures { Moves result self.new (link_no self.old) }
    {
        if self.left.is_empty() {
            return Err(Fault::Left(self.left.len()));
        }
        match LinkNo::new(self.left[0]) {
            Some(link) => {
                self.skip(1);
                Ok(link)
            }
            None => Err(Fault::Left(self.left.len())),
        }
    }

    /// Reads which of a link's two lanes it is.
    #[tactic(auto, unfolding(crate::specs::Layout::direction))]
    pub fn way(&mut self) -> Result<Way, Fault>
        ensures { Moves result self.new (direction self.old) }
    {
        if self.left.is_empty() {
            return Err(Fault::Left(self.left.len()));
        }
        let octet = self.left[0];
        if octet == 0 {
            self.skip(1);
            return Ok(Way::Up);
        }
        if octet == 1 {
            self.skip(1);
            return Ok(Way::Down);
        }
        Err(Fault::Left(self.left.len()))
    }

    /// Reads the end of a lease.
    #[tactic(auto, unfolding(crate::specs::Layout::lane_end))]
    pub fn end(&mut self) -> Result<u64, Fault>
        ensures { Moves result self.new (lane_end self.old) }
    {
        let octets = self.left;
        if octets.len() < 8 {
            return Err(Fault::Left(octets.len()));
        }
        let end = u64::from_be_bytes([
            octets[0], octets[1], octets[2], octets[3], octets[4], octets[5], octets[6], octets[7],
        ]);
        self.skip(8);
        Ok(end)
    }

    /// Reads a number of two octets from `least` to `most`.
    #[tactic(auto, unfolding(crate::specs::Layout::within))]
    pub fn within(&mut self, least: u16, most: u16) -> Result<u16, Fault>
        ensures { Moves result self.new (within least most self.old) }
    {
        let octets = self.left;
        if octets.len() < 2 {
            return Err(Fault::Left(octets.len()));
        }
        let number = u16::from_be_bytes([octets[0], octets[1]]);
        if least <= number && number <= most {
            self.skip(2);
            return Ok(number);
        }
        Err(Fault::Left(octets.len()))
    }

    /// Reads the next `count` octets.
    #[tactic(auto, unfolding(crate::specs::Layout::plain))]
    pub fn plain(&mut self, alloc: Global, count: usize) -> Result<Octets, Fault>
        ensures { Moves result self.new (plain count self.old) }
    {
        let octets = self.left;
        if octets.len() < count {
            return Err(Fault::Left(octets.len()));
        }
        let taken = Octets::from_slice(alloc, &octets[..count])?;
        self.skip(count);
        Ok(taken)
    }

    /// Reads how many octets a key, a chunk or a part has.
    pub fn size(&mut self) -> Result<u16, Fault>
        ensures { Moves result self.new (size self.old) }
    {
        let size = size_of(self.left)?;
        self.skip(2);
        Ok(size)
    }

    /// Reads the number of an application.
    pub fn sae(&mut self) -> Result<SaeNo, Fault>
        ensures { Moves result self.new (sae self.old) }
    {
        let sae = sae_of(self.left)?;
        self.skip(2);
        Ok(sae)
    }

    /// Reads the index of a chunk or the number of a block.
    pub fn index(&mut self) -> Result<u32, Fault>
        ensures { Moves result self.new (index self.old) }
    {
        let index = index_of(self.left)?;
        self.skip(4);
        Ok(index)
    }

    /// Reads a route.
    pub fn route(&mut self) -> Result<Route, Fault>
        ensures { Moves result self.new (route self.old) }
    {
        let route = route_of(self.left)?;
        self.skip(1 + route.as_slice().len());
        Ok(route)
    }

    /// Reads a name of this kind, of 16 octets.
    pub fn long_name(&mut self, kind: NameKind) -> Result<KeyName, Fault>
        ensures { Moves result self.new (named (of_kind kind) self.old) }
    {
        let name = name_of_kind(self.left, kind)?;
        self.skip(16);
        Ok(name)
    }

    /// Reads a name of any kind, of 7 octets.
    #[tactic(auto, unfolding(crate::specs::Layout::short_named))]
    pub fn short_name(&mut self) -> Result<KeyName, Fault>
        ensures { Moves result self.new (short_named any_kind self.old) }
    {
        if self.left.len() < 7 {
            return Err(Fault::Left(self.left.len()));
        }
        match short_name_at(self.left) {
            Some(name) => {
                self.skip(7);
                Ok(name)
            }
            None => Err(Fault::Left(self.left.len())),
        }
    }

    // Reads the name of a stream, of 7 octets.
    #[tactic(auto, unfolding(crate::specs::Layout::short_named))]
    fn short_stream(&mut self) -> Result<KeyName, Fault>
        ensures { Moves result self.new (short_named (of_kind StreamKind) self.old) }
    {
        if self.left.len() < 7 {
            return Err(Fault::Left(self.left.len()));
        }
        match short_name_at(self.left) {
            Some(name) if name.kind() == NameKind::Stream => {
                self.skip(7);
                Ok(name)
            }
            _ => Err(Fault::Left(self.left.len())),
        }
    }

    /// Reads a name of any kind, in the version's spelling.
    pub fn name(&mut self, version: Version) -> Result<KeyName, Fault>
        ensures { Moves result self.new (name_in version any_kind self.old) }
    {
        match version {
            Version::First => {
                let name = name_of(self.left)?;
                self.skip(16);
                Ok(name)
            }
            Version::Second => self.short_name(),
        }
    }

    /// Reads the name of a stream, in the version's spelling.
    pub fn stream(&mut self, version: Version) -> Result<KeyName, Fault>
        ensures { Moves result self.new (name_in version (of_kind StreamKind) self.old) }
    {
        match version {
            Version::First => self.long_name(NameKind::Stream),
            Version::Second => self.short_stream(),
        }
    }
}
