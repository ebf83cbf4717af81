// The items that report crashes, starts, disk faults and the state of links.
ghost use Rattle.std.specs.Prelude.{◌≡◌, [], ◌∷◌};
ghost use Rattle.net_model.specs.Action.{Armed, LinkSet};
ghost use Rattle.run_model.specs.Outcomes.{crash_items, start_items, arm_items, link_items};
ghost use Rattle.run_ops.specs.Reported.{crashed, started};

use qkd_base::LinkNo;
use run_types::{Item, Refusal, StartResult};

/// The item that reports a crash. `was_up` says whether the manager was up before.
pub fn crash_item(was_up: bool) -> Item
    ensures { result ∷ [] ≡ crash_items (crashed was_up) }
{
    if was_up {
        Item::Crashed
    } else {
        Item::Refused(Refusal::Down)
    }
}

/// The item that reports a start.
pub fn start_item(start: StartResult) -> Item
    ensures { result ∷ [] ≡ start_items (started start) }
{
    Item::Start(start)
}

/// The item that reports that a fault was set in a disk.
pub fn arm_item() -> Item
    ensures { result ∷ [] ≡ arm_items Armed }
{
    Item::Armed
}

/// The item that reports that a link was set up or down.
pub fn link_item(link: LinkNo, up: bool) -> Item
    ensures { result ∷ [] ≡ link_items link up LinkSet }
{
    Item::LinkSet { link, up }
}
