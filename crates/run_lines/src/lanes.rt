// All lanes of a site.
ghost use Rattle.std.specs.Prelude.{◌≡◌, IfOk};
ghost use Rattle.declared_site.specs.SiteOf.{IsDeclared, site_of};
ghost use Rattle.run_model.specs.Lines.{all_lanes};

use declared_site::Site;
use qkd_base::{Lane, LinkNo, Memory, Way};
use std::alloc::Global;

/// The lanes of a site in order of link, up before down.
pub fn all_lanes(alloc: Global, site: &Site) -> Result<Vec<Lane>, Memory>
    requires { IsDeclared site.now }
    ensures { IfOk result (λ lanes. lanes.items ≡ all_lanes (site_of site.now)) }
{
    let mut lanes = Vec::new(alloc);
    for number in 0..32u8 {
        let link = LinkNo::new(number).unwrap();
        match site.routes.ends(link) {
            Some(_) => {
                lanes.push(Lane { link, way: Way::Up })?;
                lanes.push(Lane {
                    link,
                    way: Way::Down,
                })?;
            }
            None => {}
        }
    }
    Ok(lanes)
}
