// The random octets of new group keys.
ghost use Rattle.std.specs.Prelude.{◌≡◌, ◌≤◌, ◌/◌, ◌*◌, ℕ, Bool, List, length};
ghost use Rattle.net_model.specs.Site.{Site};
ghost use Rattle.net_model.specs.View.{View};
ghost use Rattle.net_model.specs.Groups.{fill_group};
ghost use Rattle.kme_base.specs.Random.{decision_over};

/// Proof only. A fill of group keys that is decided with some octets, such as zeros, becomes the one decided with
/// other octets if these are put in their place.
pub fn law_group_fill_over_other_octets()
    ensures { (site : Site) (up : ℕ → Bool) (v : View) (master : ℕ) (slaves : List ℕ) (bits count : ℕ) (zeros random : List ℕ) → bits / 8 * count ≤ length zeros → bits / 8 * count ≤ length random
        → decision_over random (fill_group site up v master slaves bits count zeros) ≡ fill_group site up v master slaves bits count random }
{}
