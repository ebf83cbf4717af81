// JSON objects that are being made.
ghost use Rattle.std.specs.Prelude.{◌≡◌, ◌++◌, ◌∷◌, [], false, IfOk, OnOk};
ghost use Rattle.hex.specs.Hex.{encode_lower};
ghost use Rattle.serde_json.specs.Data.{object, no_members, put};
ghost use Rattle.serde_json.specs.View.{view};
ghost use Rattle.run_types.specs.Words.{name_text, node_text};
ghost use Rattle.report_json.specs.Words.{says, counts};
ghost use Rattle.report_json.specs.Members.{members_in};
ghost use Rattle.report_json.specs.Objects.{put_all, is_a, of_name, has_bytes, at_node, on_lane};

use crate::words::way_text;
use key_uuid::to_uuid;
use qkd_base::{KeyName, Lane, Memory, NodeNo, Texts};
use serde_json::{Map, Value, put};
use std::alloc::Global;
use uuid::Uuid;

/// A JSON object to which members are added.
#[derive(Drop)]
pub(crate) struct Object {
    pub(crate) alloc: Global,
    members: Map<String, Value>,
}

impl Object {
    /// The object without members. No memory is allocated.
    pub(crate) fn new(alloc: Global) -> Self
        ensures { members_in result ≡ no_members }
    {
        Object {
            alloc,
            members: Map::new(alloc),
        }
    }

    /// The object as a JSON value.
    pub(crate) fn into_value(self) -> Value
        ensures { view result ≡ object (members_in self) }
    {
        let Object { members, .. } = self;
        Value::Object(members)
    }

    /// Adds a value.
    pub(crate) fn has(&mut self, name: &str, value: Value) -> Result<(), Memory>
        ensures { OnOk result (members_in self.new ≡ put name.now (view value) (members_in self.old)) }
    {
        put(&mut self.members, self.alloc, name, value)?;
        Ok(())
    }

    /// Adds a text.
    pub(crate) fn says(&mut self, name: &str, text: &str) -> Result<(), Memory>
        ensures { OnOk result (members_in self.new ≡ put_all (members_in self.old) (says name.now text.now ∷ [])) }
    {
        let value = Value::try_from_str(self.alloc, text)?;
        self.has(name, value)
    }

    /// Adds the report's word for the item.
    pub(crate) fn is_a(&mut self, word: &str) -> Result<(), Memory>
        ensures { OnOk result (members_in self.new ≡ put_all (members_in self.old) (is_a word.now ∷ [])) }
    {
        self.says("kind", word)
    }

    /// Adds a number.
    pub(crate) fn counts(&mut self, name: &str, count: u64) -> Result<(), Memory>
        ensures { OnOk result (members_in self.new ≡ put_all (members_in self.old) (counts name.now count ∷ [])) }
    {
        self.has(name, Value::from(count))
    }

    /// Adds octets in lower-case hexadecimal.
    pub(crate) fn spells(&mut self, name: &str, octets: &[u8]) -> Result<(), Memory>
        ensures { OnOk result (members_in self.new ≡ put_all (members_in self.old) (says name.now (encode_lower octets.now) ∷ [])) }
    {
        let digits = hex::encode(self.alloc, octets)?;
        self.has(name, Value::String(digits))
    }

    /// Adds the bytes of a key or of a chunk.
    pub(crate) fn has_bytes(&mut self, bytes: &[u8]) -> Result<(), Memory>
        ensures { OnOk result (members_in self.new ≡ put_all (members_in self.old) (has_bytes bytes.now ∷ [])) }
    {
        self.spells("bytes", bytes)
    }

    /// Adds a name: a hyphenated UUID in lower case.
    pub(crate) fn of_name(&mut self, name: KeyName) -> Result<(), Memory>
        ensures { OnOk result (members_in self.new ≡ put_all (members_in self.old) (of_name name ∷ [])) }
    {
        let mut buffer = Uuid::encode_buffer();
        let text = to_uuid(name).hyphenated().encode_lower(&mut buffer);
        self.says("name", text)
    }

    /// Adds the name of a node, or an empty text where the node is not declared.
    pub(crate) fn at_node(&mut self, nodes: &Texts, node: NodeNo) -> Result<(), Memory>
        ensures { OnOk result (members_in self.new ≡ put_all (members_in self.old) (at_node nodes.now node ∷ [])) }
    {
        match nodes.get(usize::from(node.get())) {
            Some(text) => self.says("node", text.as_str()),
            None => self.says("node", ""),
        }
    }

    /// Adds a lane: the number of its link, and its way.
    pub(crate) fn on_lane(&mut self, lane: Lane) -> Result<(), Memory>
        ensures { OnOk result (members_in self.new ≡ put_all (members_in self.old) (on_lane lane [])) }
    {
        self.counts("link", u64::from(lane.link.get()))?;
        self.says("way", way_text(lane.way))
    }
}
