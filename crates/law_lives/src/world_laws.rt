// The law that all disks have one world behind them: what one life leaves is where the next may begin.
ghost use Rattle.std.specs.Prelude.{ℕ, Bool, List};
ghost use Rattle.net_model.specs.declared.record.Record.{Record};
ghost use Rattle.net_model.specs.Premises.{IsNetwork};
ghost use Rattle.net_model.specs.World.{Network, World, Journal};
ghost use Rattle.net_model.specs.Action.{Action};
ghost use Rattle.net_model.specs.Step.{run, IsRun};
ghost use Rattle.net_model.specs.Invariant.{Conserved, IsJournal};
ghost use Rattle.law_recovery.specs.Saved.{DoubtsFit};
ghost use Rattle.law_lives.specs.Images.{AreImages};
ghost use Rattle.run_model.specs.Begin.{IsAtRest, MayBegin};
ghost use Rattle.law_lives.specs.AtRest.{at_rest};
ghost use Rattle.law_lives.specs.OneWorld.{IsOneWorld};
ghost use Rattle.law_lives.specs.Lasting.{Lasts, LeasesLast, FramesAreBelow};
ghost use Rattle.law_lives.specs.NextNetwork.{with_drawn, IsNextNetwork, GoesOnIn, BeginsAs};

/// If one image of each disk is read, there is one world at rest that gives all nodes back as their images do. Each
/// batch in doubt is made there or not, as its node's image has it. Premises: the conserved properties hold, and each
/// batch in doubt fits its manager's view. Both hold in every run. What is asked of journals is that their sizes are
/// those of journals. A course may begin in that world.
pub fn law_images_give_one_world()
    ensures world { (net : Network) (w : World) (images : ℕ → List (List Record)) (journals : ℕ → Journal) → Conserved net w → DoubtsFit net w →
        AreImages net w images → ((v : ℕ) → IsJournal (journals v)) → (made : ℕ → Bool) × IsOneWorld net w images journals made }
    ensures begins { (net : Network) (w : World) (images : ℕ → List (List Record)) (journals : ℕ → Journal) (made : ℕ → Bool) → IsOneWorld net w images journals made →
        MayBegin net (at_rest net.site made journals w) }
{}

/// Whichever doubts are made, the world at rest has all that disks had: facts, marks and blocks. No byte of a frame is
/// used again, since each lane goes on behind its frames.
pub fn law_rest_lasts()
    ensures lasts { (net : Network) (w : World) (made : ℕ → Bool) (journals : ℕ → Journal) → Lasts w.durable (at_rest net.site made journals w).durable }
    ensures leases { (net : Network) (w : World) (made : ℕ → Bool) (journals : ℕ → Journal) → Conserved net w → DoubtsFit net w →
        LeasesLast w.durable (at_rest net.site made journals w).durable }
    ensures below { (net : Network) (w : World) (made : ℕ → Bool) (journals : ℕ → Journal) → Conserved net w → DoubtsFit net w →
        FramesAreBelow w (at_rest net.site made journals w) }
{}

/// A world at rest is also one of the next life's network: its devices have told more, and its entropies begin anew, or
/// go on. If a course may begin there in the earlier network, one may in the later network. A run from there keeps what is
/// conserved, so what is said of images holds at its end again.
pub fn law_rest_goes_on()
    ensures network { (earlier later : Network) (counts : ℕ → ℕ) (w : World) → IsAtRest w → Conserved earlier w → IsNextNetwork earlier later counts w →
        GoesOnIn earlier later counts w }
    ensures front { (earlier later : Network) (w : World) → Conserved earlier w → BeginsAs earlier later w → IsNextNetwork earlier later w.drawn w }
    ensures begin { (net : Network) (w : World) → IsAtRest w → DoubtsFit net w }
    ensures begins { (earlier later : Network) (counts : ℕ → ℕ) (w : World) → MayBegin earlier w → IsNextNetwork earlier later counts w → MayBegin later (with_drawn counts w) }
    ensures run { (net : Network) (w : World) (actions : List Action) → IsNetwork net → Conserved net w → DoubtsFit net w → IsRun net w actions →
        Conserved net (run net w actions) × DoubtsFit net (run net w actions) }
{}
