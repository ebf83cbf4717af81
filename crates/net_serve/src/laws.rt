// Laws of the events that managers take.
ghost use Rattle.std.specs.Prelude.{◌≡◌, ◌<◌, ℕ, length, Ok};
ghost use Rattle.net_model.specs.declared.event.Event.{Event as EventValue};
ghost use Rattle.declared_site.specs.declared.site.Site.{Site as SiteValue};
ghost use Rattle.declared_site.specs.SiteOf.{site_of, IsDeclared};
ghost use Rattle.http_front.specs.declared.request.HttpRequest.{HttpRequest as RequestValue};
ghost use Rattle.qkd014_api.specs.Calls.{asked};
ghost use Rattle.net_serve.specs.Serving.{IsRequestTo};

/// Over a declared site, if a request to a node asks for an event, the node's manager takes that event.
pub fn law_requests_are_taken()
    ensures { (d : SiteValue) (v : ℕ) (request : RequestValue) (event : EventValue) → IsDeclared d → v < length d.nodes → asked d.entitlements v request ≡ Ok event → IsRequestTo (site_of d) v event }
{}
