// The applications, and the allowed pairs of them.
ghost use Rattle.std.specs.Prelude.{◌≡◌, ℕ, ◌==◌, ◌&&◌, ◌||◌, ◌<◌, ◌≤◌, ◌↔◌, IfOk, IfSome, IsOk, OnOk, OnErr, IsSome, None, length, true, false};
ghost use Rattle.std.specs.List.{position_from};
ghost use Rattle.std.specs.Option.{option_copied};
ghost use Rattle.std.specs.Result.{result_ok};
ghost use Rattle.std.specs.Str.{bytes_eq};
ghost use Rattle.sae_entitlements.specs.Grants.{none, find_sae, id_of, home_of, with_sae, with_pair, is_allowed, IsKnown, HasDistinctIds};

use crate::application::Application;
use crate::{AddRefusal, EntitlementRefusal, UnknownSae};
use qkd_base::{Memory, NodeNo, Replica, SaeNo, Text};
use std::alloc::Global;
use std::marker::Model;

/// The applications (SAEs) with their homes, and the allowed pairs of a master SAE and a slave SAE (ETSI GS QKD 014
/// V1.1.1, Get key). There are at most 256 applications, numbered from 0 in the order in which they were added. A pair
/// that is allowed in one order need not be allowed in the other.
#[derive(Drop)]
pub struct Entitlements {
    applications: Vec<Application>,
}

impl Model for Entitlements {
    ghost use Rattle.sae_entitlements.specs.Grants.{Grants, grants_code};

    ghost Value = { Grants };

    ghost coded = { grants_code };

    ghost use Rattle.sae_entitlements.specs.Rows.{grants_of, AreApplications};

    ghost view = { λ e. grants_of e.applications.items };

    ghost invariant = { λ e. AreApplications e.applications.items };
}

impl Entitlements {
    /// No applications. No memory is allocated.
    pub fn new(alloc: Global) -> Self
        ensures first { result ≡ none }
        ensures pairs { (m s : ℕ) → is_allowed result m s ≡ false }
    {
        Entitlements {
            applications: Vec::new(alloc),
        }
    }

    /// Adds an application. It gets the next number.
    pub fn add_sae(&mut self, id: &str, home: NodeNo) -> Result<SaeNo, AddRefusal>
        ensures ok { IfOk result (λ sae. (sae ≡ length self.old.saes) × (self.new ≡ with_sae self.old id.now home)) }
        ensures known { (result ≡ Err AddRefusal.Known) ↔ IsSome (find_sae self.old.saes id.now) }

        // An ID that is known is refused as such, even if there are 256 applications.
        ensures full { (result ≡ Err AddRefusal.Full) ↔ ((find_sae self.old.saes id.now ≡ None) × (length self.old.saes ≡ 256)) }
        ensures err { OnErr result (self.new ≡ self.old) }
    {
        if self.find(id).is_some() {
            return Err(AddRefusal::Known);
        }
        let Some(number) = SaeNo::new(self.applications.len() as u16) else {
            return Err(AddRefusal::Full);
        };
        self.push(id, home)?;
        Ok(number)
    }

    // Adds one more application. This fails if memory runs out.
    fn push(&mut self, id: &str, home: NodeNo) -> Result<(), Memory>
        requires room { length self.old.saes < 256 }
        requires unknown { find_sae self.old.saes id.now ≡ None }
        ensures ok { OnOk result (self.new ≡ with_sae self.old id.now home) }
        ensures err { OnErr result (self.new ≡ self.old) }
    {
        let text = String::from_str(*self.applications.allocator(), id)?;
        self.applications.push(Application {
            id: Text::from_string(text),
            home,
            slaves: [false; 256],
        })?;
        Ok(())
    }

    /// Allows the master to have keys for the slave. No memory is allocated.
    pub fn allow(&mut self, master: SaeNo, slave: SaeNo)
        requires master { IsKnown self.old master }
        requires slave { IsKnown self.old slave }
        ensures after { self.new ≡ with_pair self.old master slave }
        ensures pairs { (m s : ℕ) → is_allowed self.new m s ≡ ((m == master && s == slave) || is_allowed self.old m s) }
    {
        let application = &mut self.applications[master.get() as usize];
        application.slaves[slave.get() as usize] = true;
    }

    /// The application with this ID.
    pub fn find(&self, id: &str) -> Option<SaeNo>
        ensures first { result ≡ find_sae self.now.saes id.now }
        ensures known { IfSome result (λ sae. IsKnown self.now sae) }

        // The invariant of the applications.
        ensures distinct { HasDistinctIds self.now.saes }
        ensures room { length self.now.saes ≤ 256 }
    {
        let place = place_of(&self.applications, id)?;
        SaeNo::new(place as u16)
    }

    /// The ID of an application.
    pub fn id(&self, sae: SaeNo) -> Option<&str>
        ensures text { option_copied result ≡ id_of self.now sae }
        ensures known { IsSome result ↔ IsKnown self.now sae }
    {
        let application = self.applications.get(sae.get() as usize)?;
        Some(application.id.as_str())
    }

    /// The node at which an application gets its keys.
    pub fn home(&self, sae: SaeNo) -> Result<NodeNo, UnknownSae>
        ensures node { result_ok result ≡ home_of self.now sae }
        ensures known { IsOk result ↔ IsKnown self.now sae }
    {
        let application = self.applications.get(sae.get() as usize).ok_or(UnknownSae)?;
        Ok(application.home)
    }

    /// Whether the master may have keys for the slave.
    pub fn may(&self, master: SaeNo, slave: SaeNo) -> Result<(), EntitlementRefusal>
        ensures unknown { (result ≡ Err EntitlementRefusal.UnknownSae) ↔ (¬ (IsKnown self.now master × IsKnown self.now slave)) }
        ensures not_allowed { (result ≡ Err EntitlementRefusal.NotAllowed) ↔ (IsKnown self.now master × IsKnown self.now slave × (is_allowed self.now master slave ≡ false)) }
        ensures allowed { IsOk result ↔ (IsKnown self.now master × IsKnown self.now slave × (is_allowed self.now master slave ≡ true)) }
    {
        if self.home(master).is_err() || self.home(slave).is_err() {
            return Err(EntitlementRefusal::UnknownSae);
        }
        if !self.allows(master, slave) {
            return Err(EntitlementRefusal::NotAllowed);
        }
        Ok(())
    }

    // Whether a pair is allowed.
    fn allows(&self, master: SaeNo, slave: SaeNo) -> bool
        requires { IsKnown self.now master }
        ensures { result ≡ is_allowed self.now master slave }
    {
        let slaves = &self.applications[master.get() as usize].slaves;
        slaves[slave.get() as usize]
    }
}

// The place of the first application with this ID.
fn place_of(applications: &[Application], id: &str) -> Option<usize>
    ensures place { result ≡ position_from (λ a. bytes_eq a.id id.now) 0 applications.now }
    ensures within { IfSome result (λ place. place < length applications.now) }
{
    for (place, application) in applications.iter().enumerate() {
        if application.id.as_str() == id {
            return Some(place);
        }
    }
    None
}

impl Replica for Entitlements {
    fn copy(&self) -> Result<Self, Memory> {
        let mut applications = Vec::new(*self.applications.allocator());
        for application in &self.applications {
            let same = Application {
                id: application.id.copy()?,
                home: application.home,
                slaves: application.slaves,
            };
            applications.push(same)?;
        }
        Ok(Entitlements { applications })
    }
}
