// HTTP requests, as they are read and answered.
ghost use Rattle.std.specs.Prelude.{◌≡◌, ◌<◌, ℕ, length, IfOk};
ghost use Rattle.declared_site.specs.declared.site.Site.{Site as SiteValue};
ghost use Rattle.run_model.specs.Turn.{HttpTexts};
ghost use Rattle.run_lines.specs.Answering.{text_of, asked_for, IsAskedOf};

use net_model::{Event, Reply};
use qkd_base::{Memory, NodeNo, Octets};
use std::alloc::Global;

/// The answer to an HTTP request: a status code and a body.
#[derive(Debug, Drop)]
pub struct Answer {
    pub status: u16,
    pub body: Octets,
}

/// What an HTTP request asks for.
#[derive(Debug, Drop)]
pub enum Asked {
    /// Nothing: the request is answered at once.
    AtOnce(Answer),
    /// An event, which the node's manager must handle.
    Event(Event),
}

/// Reads HTTP requests, and writes their answers.
pub trait Requests {
    /// The site whose managers are asked.
    ghost serves: { Self → SiteValue → Type 0 };

    /// The rule for HTTP: what each request asks for, and how each reply is answered.
    ghost speaks: { Self → HttpTexts → Type 0 };

    /// What the octets of a request to a node ask for.
    fn read(&self, alloc: Global, node: NodeNo, octets: Octets) -> Result<Asked, Memory>
        ensures asked { (http : HttpTexts) → speaks self.now http → IfOk result (λ asked. asked_for asked ≡ http.request node octets) }
        ensures fit { (d : SiteValue) → serves self.now d → node < length d.nodes → IfOk result (IsAskedOf d node) };

    /// The answer to a request, from the manager's reply to its event.
    fn answer(&self, alloc: Global, event: &Event, reply: &Reply) -> Result<Answer, Memory>
        ensures { (http : HttpTexts) → speaks self.now http → IfOk result (λ answer. text_of answer ≡ http.response event.now reply.now) };
}
