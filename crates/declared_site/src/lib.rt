//! What a scenario declares of a network: its nodes, links and applications, and the pairs that may share keys.
#![tactic(auto)]

mod site;

ghost use Rattle.net_model.specs.Premises.{IsSite};
ghost use Rattle.declared_site.specs.declared.site.Site.{Site as Declared};
ghost use Rattle.declared_site.specs.SiteOf.{IsDeclared, site_of};

pub use site::Site;

/// A declared site that keeps its limits is a site of a network.
pub fn law_declared_site_is_site()
    ensures { (declared : Declared) → IsDeclared declared → IsSite (site_of declared) }
{}
