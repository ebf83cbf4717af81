// The lines of a block as jobs.
ghost use Rattle.std.specs.Prelude.{◌≡◌, ◌<◌, ◌++◌, ◌∷◌, [], true, length, IfOk, OnOk};
ghost use Rattle.std.specs.List.{All};
ghost use Rattle.declared_site.specs.SiteOf.{site_of};
ghost use Rattle.declared_site.specs.declared.site.Site.{Site as SiteValue};
ghost use Rattle.net_model.specs.World.{Network, World};
ghost use Rattle.net_model.specs.Events.{is_lane};
ghost use Rattle.run_types.specs.declared.command.Command.TheVariants as commands;
ghost use Rattle.run_model.specs.Turn.{HttpTexts};
ghost use Rattle.run_model.specs.Works.{may_stand_in_block};
ghost use Rattle.run_ops.specs.Acting.{IsReady};
ghost use Rattle.run_ops.specs.Runnable.{IsBlockLineFor, IsCommandFor};
ghost use Rattle.run_tasks.specs.Prepared.{IsAllowed, IsMadeAllowed, IsLineMade, IsPrepared, job_made, place_made, told_made};

use qkd_base::{Lane, Memory, NodeNo, Octets};
use run_lines::{Answer, Asked, Requests};
use run_ops::{Acts, Job, Reporting, asked_by, http_item};
use run_types::{Command, FrameResult, Item, Line, Lines, Refusal};
use std::alloc::Global;

/// Which part of the reply to a line is reported.
#[derive(Clone, Copy)]
pub enum Telling {
    /// Nothing: the line asks nobody.
    Nothing,
    /// The part that this reporting picks.
    Asked(Reporting),
    /// What came of a frame.
    Passed { lane: Lane, frame: u32 },
    /// The answer to an HTTP request.
    Answered { node: NodeNo },
}

/// The place of a line in its block.
#[derive(Clone, Copy)]
pub struct Place {
    /// The line's number.
    pub number: u32,
    /// Which part of the reply is reported.
    pub telling: Telling,
}

/// What is reported of a line that asks nobody.
#[derive(Drop)]
pub struct Told {
    /// The line's number.
    pub number: u32,
    pub item: Item,
}

/// The lines of a block, ready to be done.
#[derive(Drop)]
pub struct Prepared {
    /// The job of each line.
    pub jobs: Vec<Job>,
    /// The place of each line.
    pub places: Vec<Place>,
    /// What is reported of the lines that ask nobody, in order.
    pub told: Vec<Told>,
}

// A line's job and which part of the reply is reported, or what is reported of the line at once.
#[derive(Drop)]
enum Made {
    Job(Job, Telling),
    Told(Item),
}

// Makes a job of a frame's pass. A frame that isn't on its wire is refused at once.
fn pass<S: Acts>(net: &S, lane: &Lane, frame: u32) -> Made
    requires lane { is_lane (site_of (S.site net.now)) lane.now ≡ true }
    ensures made { (http : HttpTexts) (n : Network) (w : World) → IsReady S.stands net.now n w → IsLineMade http (site_of (S.site net.now)) w (commands.Pass lane.now frame) result }
    ensures allowed { (n : Network) (w : World) → IsReady S.stands net.now n w → IsMadeAllowed (site_of (S.site net.now)) w result }
{
    let count = net.on_wire(*lane);
    let number = u64::from(frame);
    if number < count {
        Made::Job(
            Job::Pass {
                lane: *lane,
                number,
            },
            Telling::Passed { lane: *lane, frame },
        )
    } else {
        Made::Told(Item::Passed {
            lane: *lane,
            number: frame,
            result: FrameResult::Refused(Refusal::NoFrame { count }),
        })
    }
}

// Makes a job of an HTTP request that asks for an event, or answers the request at once.
fn http<H: Requests>(
    alloc: Global,
    requests: &H,
    node: NodeNo,
    octets: Octets,
) -> Result<Made, Memory>
    ensures made { IfOk result (λ made. (d : SiteValue) (http : HttpTexts) (w : World) → H.speaks requests.now http → IsLineMade http (site_of d) w (commands.Http node octets) made) }
    ensures allowed { IfOk result (λ made. (d : SiteValue) (w : World) → H.serves requests.now d → node < length d.nodes → IsMadeAllowed (site_of d) w made) }
{
    match requests.read(alloc, node, octets) {
        Ok(Asked::AtOnce(answer)) => {
            let Answer { status, body } = answer;
            Ok(Made::Told(http_item(node, status, body)))
        }
        Ok(Asked::Event(event)) => Ok(Made::Job(
            Job::Ask { node, event },
            Telling::Answered { node },
        )),
        Err(memory) => Err(memory),
    }
}

// Makes a job of a line, or finds what is reported of the line at once.
fn line_made<S: Acts, H: Requests>(
    alloc: Global,
    net: &S,
    requests: &H,
    command: Command,
) -> Result<Made, Memory>
    requires serves { H.serves requests.now (S.site net.now) }
    requires may { may_stand_in_block command ≡ true }
    requires fit { IsCommandFor (S.site net.now) command }
    ensures made { IfOk result (λ made. (http : HttpTexts) (n : Network) (w : World) → H.speaks requests.now http → IsReady S.stands net.now n w → IsLineMade http (site_of (S.site net.now)) w command made) }
    ensures allowed { IfOk result (λ made. (n : Network) (w : World) → IsReady S.stands net.now n w → IsMadeAllowed (site_of (S.site net.now)) w made) }
{
    match command {
        Command::Pass { lane, number } => Ok(pass(net, &lane, number)),
        Command::Http { node, octets } => http(alloc, requests, node, octets),
        other => match asked_by(net.declared(), other) {
            Ok(asked) => Ok(Made::Job(
                Job::Ask {
                    node: asked.node,
                    event: asked.event,
                },
                Telling::Asked(asked.reporting),
            )),
            Err(_) => unreachable!(),
        },
    }
}

// Adds what was made of the line with this number.
fn add(prepared: &mut Prepared, number: u32, made: Made) -> Result<(), Memory>
    ensures jobs { OnOk result (prepared.new.jobs.items ≡ prepared.old.jobs.items ++ job_made made ∷ []) }
    ensures places { OnOk result (prepared.new.places.items ≡ prepared.old.places.items ++ place_made number made ∷ []) }
    ensures told { OnOk result (prepared.new.told.items ≡ prepared.old.told.items ++ told_made number made) }
{
    match made {
        Made::Job(job, telling) => {
            prepared.jobs.push(job)?;
            prepared.places.push(Place { number, telling })?;
        }
        Made::Told(item) => {
            prepared.jobs.push(Job::Nothing)?;
            let telling = Telling::Nothing;
            prepared.places.push(Place { number, telling })?;
            prepared.told.push(Told { number, item })?;
        }
    }
    Ok(())
}

/// Makes a job of each line of a block, or finds what is reported of the line at once.
pub fn prepare<S: Acts, H: Requests>(
    alloc: Global,
    net: &S,
    requests: &H,
    lines: Lines,
) -> Result<Prepared, Memory>
    requires serves { H.serves requests.now (S.site net.now) }
    requires fit { All (IsBlockLineFor (S.site net.now)) lines }
    ensures prepared { IfOk result (λ p. (http : HttpTexts) (n : Network) (w : World) → H.speaks requests.now http → IsReady S.stands net.now n w → IsPrepared http (site_of (S.site net.now)) w lines p) }
    ensures allowed { IfOk result (λ p. (n : Network) (w : World) → IsReady S.stands net.now n w → All (IsAllowed (site_of (S.site net.now)) w) p.jobs.items) }
{
    let mut prepared = Prepared {
        jobs: Vec::new(alloc),
        places: Vec::new(alloc),
        told: Vec::new(alloc),
    };
    for line in lines.into_vec() {
        let Line { number, command } = line;
        let made = line_made(alloc, net, requests, command)?;
        add(&mut prepared, number, made)?;
    }
    Ok(prepared)
}
