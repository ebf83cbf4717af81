//! HTTP requests to the managers of a site: which event a request asks for, and how a manager's reply is answered.
#![tactic(auto)]

ghost use Rattle.std.specs.Prelude.{◌≡◌, ◌<◌, ℕ, List, [], length, Result, Ok, codes};
ghost use Rattle.net_model.specs.declared.event.Event.{Event as EventValue};
ghost use Rattle.net_model.specs.declared.event.Event.TheVariants.{Enc};
ghost use Rattle.net_model.specs.Action.{Ok as Fine, Ask};
ghost use Rattle.declared_site.specs.declared.site.Site.{Site as SiteValue};
ghost use Rattle.declared_site.specs.SiteOf.{IsDeclared};
ghost use Rattle.http_front.specs.declared.request.HttpRequest.{HttpRequest as RequestValue};
ghost use Rattle.http_front.specs.declared.refusal.FrontRefusal.{FrontRefusal};
ghost use Rattle.http_front.specs.Reading.{IsDecided};
ghost use Rattle.sae_entitlements.specs.Grants.{Grants};
ghost use Rattle.qkd014_api.specs.Calls.{asked};
ghost use Rattle.run_model.specs.Turn.{HttpTexts, Request, Calls, http_turn};
ghost use Rattle.run_ops.specs.Runnable.{IsFit, IsTurnFor};
ghost use Rattle.run_http.specs.Reading.{MayBeRead, IsReadable};
ghost use Rattle.run_http.specs.Speaking.{message, IsAskedBy, IsTextsOf};
ghost use Rattle.run_http.specs.Asking.{alice_and_bob, by_alice, by_carol};

mod event_answers;
mod requests;
mod site_requests;
mod target;

pub use site_requests::SiteRequests;

/// If a request to a node of a declared site asks for an event, the node's manager may be asked to handle this event.
pub fn law_calls_fit()
    ensures { (d : SiteValue) (v : ℕ) (request : RequestValue) (event : EventValue) → IsDeclared d → v < length d.nodes → asked d.entitlements v request ≡ Ok event → IsFit d (Ask v event Fine) }
{}

/// If the HTTP texts are the site's, any nonempty octets that a node gets over HTTP make a turn that fits the site.
pub fn law_texts_fit()
    ensures { (d : SiteValue) (http : HttpTexts) (v : ℕ) (octets : List ℕ) → IsDeclared d → v < length d.nodes → IsTextsOf d.nodes d.entitlements http → ¬ (octets ≡ []) → IsTurnFor d (http_turn v http.response (http.request v octets)) }
{}

/// If the octets of a connection can be read in two ways, both readings ask for the same thing.
pub fn law_readings_agree()
    ensures { (g : Grants) (v : ℕ) (octets : List ℕ) (r s : Result RequestValue FrontRefusal) (request : Request) → MayBeRead octets r → MayBeRead octets s → IsDecided r → IsDecided s → IsAskedBy g v r request → IsAskedBy g v s request }
{}

/// All the octets of a connection can be read as something.
pub fn law_octets_are_readable()
    ensures { (octets : List ℕ) → IsReadable octets }
{}

/// Each site has HTTP texts.
pub fn law_texts_exist()
    ensures { (nodes : List (List ℕ)) (g : Grants) → (http : HttpTexts) × IsTextsOf nodes g http }
{}

/// For example, where alice may have keys with bob: whatever the texts are, one request of hers asks for a key, and the same by carol, who
/// isn't declared, is refused.
pub fn law_requests_ask()
    ensures { (nodes : List (List ℕ)) (http : HttpTexts) → IsTextsOf nodes alice_and_bob http → (http.request 0 by_alice ≡ Calls (Enc 0 1 1 256)) × (http.request 0 by_carol ≡ message 401 (codes "not allowed")) }
{}
