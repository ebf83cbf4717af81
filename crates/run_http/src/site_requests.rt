// The reader of the HTTP requests to a site.
ghost use Rattle.std.specs.Prelude.{IfOk};
ghost use Rattle.run_http.specs.Serving.{IsApiOf};

use declared_site::Site;
use qkd_base::Memory;
use qkd014_api::Api;
use std::alloc::Global;

/// Reads the requests to the managers of a site, and answers them (ETSI GS QKD 014 V1.1.1).
#[derive(Drop)]
pub struct SiteRequests {
    pub api: Api,
}

impl SiteRequests {
    /// The reader for this site.
    pub fn new(alloc: Global, site: &Site) -> Result<Self, Memory>
        ensures { IfOk result (λ requests. IsApiOf requests.api site.now) }
    {
        let api = Api::new(alloc, site)?;
        Ok(SiteRequests { api })
    }
}
