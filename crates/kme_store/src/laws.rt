// Laws about events of a manager, for the model of the network.
ghost use Rattle.std.specs.Prelude.{◌≡◌, ℕ, true};
ghost use Rattle.net_model.specs.declared.event.Event.{Event as EventValue};
ghost use Rattle.net_model.specs.OctetSequence.{OctetSequence};
ghost use Rattle.net_model.specs.World.{Network, World};
ghost use Rattle.net_model.specs.Needed.{view_of};
ghost use Rattle.net_model.specs.Action.{Environment};
ghost use Rattle.net_model.specs.Handle.{handle};
ghost use Rattle.hop_frames.specs.Sealing.{hop_sealing};
ghost use Rattle.source_devices.specs.Telling.{IsRest};
ghost use Rattle.kme_store.specs.Course.{course, in_world};

/// Proof only. An event does to a network what it does to the manager that is asked, given this manager's view, its
/// journal and the rest of its entropy.
pub fn a_network_asks_as_its_managers_answer()
    ensures { (net : Network) (w : World) (v : ℕ) (event : EventValue) (environment : Environment) (rest : OctetSequence) →
        net.sealing ≡ hop_sealing → w.up v ≡ true → IsRest (net.entropy v) (w.drawn v) rest →
        handle net w v event environment ≡ in_world net w v (course net.site w.link_up (view_of net w v) (w.journal v) rest event environment) }
{}
