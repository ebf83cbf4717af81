// The refusal in a manager's reply.
ghost use Rattle.std.specs.Prelude.{◌≡◌};
ghost use Rattle.std.specs.Option.{option_to_list};
ghost use Rattle.run_types.specs.declared.item.Item.TheVariants as items;
ghost use Rattle.run_model.specs.Refusals.{refused_by, reported_by};

use net_model::Reply;
use run_types::{Item, Refusal};

/// The refusal in a reply, if the reply is one.
pub fn refusal_of(reply: &Reply) -> Option<Refusal>
    ensures { result ≡ refused_by reply.now }
{
    match reply {
        Reply::Down => Some(Refusal::Down),
        Reply::Stopped => Some(Refusal::Stopped),
        Reply::Memory => Some(Refusal::Memory),
        Reply::LinkFull => Some(Refusal::LinkFull),
        Reply::NotAllowed => Some(Refusal::NotAllowed),
        Reply::NoRoute => Some(Refusal::NoRoute),
        Reply::PoolFull => Some(Refusal::PoolFull),
        Reply::UnknownStream => Some(Refusal::UnknownStream),
        Reply::JournalFull { length, need } => Some(Refusal::JournalFull {
            length: *length,
            need: *need,
        }),
        Reply::NoRandom => Some(Refusal::NoRandom),
        Reply::BadFrame { place } => Some(Refusal::BadFrame { place: *place }),
        Reply::WrongLane { link, way } => Some(Refusal::WrongLane {
            link: *link,
            way: *way,
        }),
        Reply::NoBits { have } => Some(Refusal::NoBits { have: *have }),
        Reply::BadTag { given, computed } => Some(Refusal::BadTag {
            given: *given,
            computed: *computed,
        }),
        Reply::Few { count } => Some(Refusal::Few { count: *count }),
        Reply::Unknown { place } => Some(Refusal::Unknown { place: *place }),
        Reply::Repeated { place } => Some(Refusal::Repeated { place: *place }),
        Reply::AlreadyHanded { place } => Some(Refusal::Handed { place: *place }),
        _ => None,
    }
}

/// The item for a reply that is a refusal.
pub fn refused_item(reply: &Reply) -> Option<Item>
    ensures { option_to_list result ≡ reported_by items.Refused (refused_by reply.now) }
{
    let refusal = refusal_of(reply)?;
    Some(Item::Refused(refusal))
}
