// Laying a state out of a bench.
ghost use Rattle.std.specs.Prelude.{◌≡◌, ℕ, ◌+◌, ◌*◌, ◌<◌, ◌≤◌, IfOk, OnErr, [], ◌∷◌, ◌++◌, length, take, drop, slice_get, vec_len, vec_capacity};
ghost use Rattle.std.specs.Option.{option_map};
ghost use Rattle.qkd_base.specs.declared.lane.Lane.{Lane as LaneValue};
ghost use Rattle.declared_site.specs.SiteOf.{IsDeclared, links_in};
ghost use Rattle.world_state.specs.Stands.{place_of};
ghost use Rattle.net_world.specs.Laid.{IsWhole, unstarted, without_bytes, IsLaidOut, HasRoomFor};

use crate::Bench;
use crate::parts::{take_first, take_some};
use declared_site::Site;
use disk_model::Disk;
use lane_sender::LaneSide;
use qkd_base::{Lane, LinkNo, Memory, Way};
use source_devices::{Device, Entropy, Wire};
use std::alloc::Global;
use world_state::{Post, State};

// The number of declared links. Their numbers have no gap.
fn links_of(site: &Site) -> u8
    requires { IsDeclared site.now }
    ensures { result ≡ links_in site.now.routes }
{
    match site.routes.free_link() {
        None => 32,
        Some(link) => link.get(),
    }
}

// Takes the next disk and the next entropy for each node.
fn lay_posts<K: Disk + Drop, E: Entropy + Drop>(
    disks: &mut Vec<K>,
    entropies: &mut Vec<E>,
    count: usize,
    posts: &mut Vec<Post<K, E>>,
)
    requires disks { count ≤ vec_len disks.old }
    requires entropies { count ≤ vec_len entropies.old }
    requires none { posts.old.items ≡ [] }
    requires room { count ≤ vec_capacity posts.old }
    ensures posts { posts.new.items ≡ unstarted (take count disks.old.items) (take count entropies.old.items) }
    ensures disks { disks.new.items ≡ drop count disks.old.items }
    ensures entropies { entropies.new.items ≡ drop count entropies.old.items }
    ensures nodes { vec_len posts.new ≡ count }
    ensures disks_left { vec_len disks.new + count ≡ vec_len disks.old }
    ensures entropies_left { vec_len entropies.new + count ≡ vec_len entropies.old }
    ensures disk_room { vec_capacity disks.new ≡ vec_capacity disks.old }
    ensures entropy_room { vec_capacity entropies.new ≡ vec_capacity entropies.old }
{
    for _ in 0..count {
        let disk = take_first(disks);
        let entropy = take_first(entropies);
        posts.push_reserved(Post::Off(disk, entropy));
    }
}

// Takes the next wire for the lane of a link.
fn lay_lane<X: Wire + Drop>(
    alloc: Global,
    wires: &mut Vec<X>,
    lane: Lane,
    lanes: &mut Vec<LaneSide<X>>,
)
    requires wires { 0 < vec_len wires.old }
    requires room { vec_len lanes.old < vec_capacity lanes.old }
    ensures lanes { (wire : X) × (wires.old.items ≡ wire ∷ wires.new.items) × (lanes.new.items ≡ lanes.old.items ++ without_bytes lane wire ∷ []) }
    ensures wire_room { vec_capacity wires.new ≡ vec_capacity wires.old }
    ensures lane_room { vec_capacity lanes.new ≡ vec_capacity lanes.old }
{
    let wire = take_first(wires);
    lanes.push_reserved(LaneSide::new(alloc, lane, wire));
}

// Takes the next two wires for each link, the lane up before the lane down.
fn lay_lanes<X: Wire + Drop>(
    alloc: Global,
    wires: &mut Vec<X>,
    links: u8,
    lanes: &mut Vec<LaneSide<X>>,
)
    requires links { links ≤ 32 }
    requires wires { 2 * links ≤ vec_len wires.old }
    requires none { lanes.old.items ≡ [] }
    requires room { 2 * links ≤ vec_capacity lanes.old }
    ensures sides { length lanes.new.items ≡ 2 * links }
    ensures lanes { (l : LaneValue) → l.link < links → slice_get lanes.new.items (place_of l) ≡ option_map (without_bytes l) (slice_get wires.old.items (place_of l)) }
    ensures wires { wires.new.items ≡ drop (2 * links) wires.old.items }
    ensures left { vec_len wires.new + 2 * links ≡ vec_len wires.old }
    ensures room { vec_capacity wires.new ≡ vec_capacity wires.old }
{
    for number in 0..links {
        let link = LinkNo::new(number).unwrap();
        lay_lane(alloc, wires, Lane { link, way: Way::Up }, lanes);
        lay_lane(
            alloc,
            wires,
            Lane {
                link,
                way: Way::Down,
            },
            lanes,
        );
    }
}

/// Takes the parts of a declared network out of a bench: each node's disk and entropy, each lane's wire, and each link's device. If memory
/// runs out none is taken.
pub fn lay_out<K: Disk + Drop, Q: Device + Drop, E: Entropy + Drop, X: Wire + Drop>(
    alloc: Global,
    bench: &mut Bench<K, Q, E, X>,
    site: Site,
) -> Result<State<K, Q, E, X>, Memory>
    requires declared { IsDeclared site }
    requires whole { IsWhole bench.old }
    ensures laid { IfOk result (λ state. IsLaidOut bench.old bench.new site state) }
    ensures room { IfOk result (λ state. HasRoomFor bench.new state) }
    ensures err { OnErr result (bench.new ≡ bench.old) }
{
    let nodes = site.nodes.len();
    let links = links_of(&site);
    let mut posts = Vec::with_capacity(alloc, nodes)?;
    let mut lanes = Vec::with_capacity(alloc, 2 * usize::from(links))?;
    let mut devices = Vec::with_capacity(alloc, usize::from(links))?;
    lay_posts(&mut bench.disks, &mut bench.entropies, nodes, &mut posts);
    lay_lanes(alloc, &mut bench.wires, links, &mut lanes);
    take_some(&mut bench.devices, usize::from(links), &mut devices);
    Ok(State {
        site,
        posts,
        lanes,
        devices,
        up: u32::MAX,
    })
}
