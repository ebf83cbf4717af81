// The jobs of a block's workers.
ghost use Rattle.std.specs.Prelude.{◌+◌, ◌^◌, length, vec_capacity};
ghost use Rattle.par_managers.specs.Doing.{DoesJob};
ghost use Rattle.kme_shared.specs.Working.{MayWork};
ghost use Rattle.world_state.specs.Outside.{outside};

use crate::manager_turn::{say_nothing, turn_and_put};
use disk_model::Disk;
use edge_io::Gate;
use par_lanes::{AtGate, LaneDesk, Lanes};
use par_managers::{Keep, PlanAsk, PlanDesk, Turn};
use shared_objects::{Call, Calls, Either, Errands};
use source_devices::{Device, Entropy, Wire};
use std::alloc::Global;
use std::mem;
use std::snapshot::Snapshot;
use std::sync::Wait;
use world_state::State;

/// The jobs of a block's workers. The machines are first the managers' desks in order of node, and then the lanes' desks in order of place.
/// A worker takes the first entry of its shift as its next job. The entry's manager takes the turn and grants the bytes that its plan
/// orders; then the worker puts the plan's frames out. An empty entry calls no machine.
#[derive(Drop)]
pub struct BlockErrands<'a, K: Disk + Drop, Q: Device + Drop, E: Entropy + Drop, X: Wire + Drop> {
    pub alloc: Global,
    /// The number of the first lane's desk among the machines, and the count of issued bytes of each lane, by its place.
    pub lanes: Lanes<'a>,
    /// The run's state at the block's start.
    pub opening: Snapshot<State<K, Q, E, X>>,
}

impl<'a, K: Disk + Drop, Q: Device + Drop, E: Entropy + Drop, X: Wire + Drop> Errands<
    Either<PlanDesk<'a, K, Q, E, X>, LaneDesk<'a, X>>,
> for BlockErrands<'a, K, Q, E, X> {
    type Keep = Keep<'a>;

    ghost may = { λ it machines keep jobs. MayWork (λ d. d.opening.value) (λ d. d.node) (λ d. d.shares.now) (λ d. d.side) (λ d. d.shares.now) it.opening.value it.lanes.first it.lanes.shares.now machines
        (outside K.Disk Q.Device E.Entropy X.Wire) keep.shift.items keep.granted.items (length keep.replies.items) (vec_capacity keep.replies) jobs };

    ghost does = { λ it job keep said next. DoesJob it.opening.value.lanes.items it.lanes.first job keep said next };

    ghost most = { λ it. 2 ^ 21 + 1 };

    fn run<R: Wait, G: Gate, C: Calls<Either<PlanDesk<'a, K, Q, E, X>, LaneDesk<'a, X>>>>(
        &self,
        rt: &R,
        gate: &G,
        _job: u32,
        caller: &mut C,
        keep: &mut Keep<'a>,
    ) {
        match keep.shift.pop_front() {
            Some(
                Some(
                    Call {
                        machine,
                        request: Turn { place, job, octets },
                    },
                ),
            ) => {
                let request = PlanAsk {
                    place,
                    job,
                    octets,
                    granted: mem::replace(&mut keep.granted, Vec::new(self.alloc)),
                };
                let replied = turn_and_put(
                    rt,
                    &AtGate { gate },
                    caller,
                    &self.lanes,
                    place,
                    Call { machine, request },
                    &mut keep.granted,
                    &mut keep.log,
                );
                keep.replies.push_reserved(replied);
            }
            Some(None) => say_nothing(caller),
            None => {}
        }
    }
}
