// The laws of lives that follow one another over the same disks.
ghost use Rattle.std.specs.Prelude.{◌≡◌, ◌<◌, ◌∷◌, ℕ, List, Some, slice_get};
ghost use Rattle.net_model.specs.World.{first};
ghost use Rattle.net_model.specs.Invariant.{Conserved};
ghost use Rattle.run_model.specs.Begin.{IsAtRest};
ghost use Rattle.law_lives.specs.Lives.{Life, end_of, AreLives, IsEarlier};

/// Of two lives over the same disks, the later one has lost nothing that the earlier one had. A key or chunk that was
/// ready for an application still is; of group keys this is not said. No byte of a lane masks a frame of each, no key is
/// handed to an application in both, and bytes handed out under one name are equal. All that is conserved holds at the
/// end of each life. A first life begins with nothing.
pub fn law_lives_go_on()
    ensures first { IsAtRest first }
    ensures earlier { (l : Life) (ls : List Life) → IsAtRest l.begin → Conserved l.net l.begin → AreLives (l ∷ ls) →
        (i j : ℕ) (a b : Life) → i < j → slice_get (l ∷ ls) i ≡ Some a → slice_get (l ∷ ls) j ≡ Some b → IsEarlier a b }
    ensures conserved { (l : Life) (ls : List Life) → IsAtRest l.begin → Conserved l.net l.begin → AreLives (l ∷ ls) →
        (i : ℕ) (a : Life) → slice_get (l ∷ ls) i ≡ Some a → Conserved a.net (end_of a) }
{}
