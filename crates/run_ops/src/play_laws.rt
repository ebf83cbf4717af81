// Laws of scripts: playing two scripts one after the other is playing their concatenation.
ghost use Rattle.std.specs.Prelude.{◌≡◌, ℕ, true, false, List, ◌++◌};
ghost use Rattle.net_model.specs.World.{Network, World};
ghost use Rattle.net_model.specs.Action.{Action};
ghost use Rattle.run_model.specs.Script.{Script, then_comes};
ghost use Rattle.run_model.specs.Play.{play, reporting, IsPlay};
ghost use Rattle.run_model.specs.Report.{is_whole};

/// If the play of a script ends whole, playing a second script in the world after it gives the play of both scripts
/// in sequence.
pub fn law_plays_follow()
    ensures is { (net : Network) (number : ℕ) (w : World) (s last : Script) (prefix rest : List Action) → IsPlay net w s prefix →
        is_whole (play net number w s prefix).ending ≡ true → IsPlay net (play net number w s prefix).world last rest →
        IsPlay net w (then_comes s last) (prefix ++ rest) }
    ensures said { (net : Network) (number : ℕ) (w : World) (s last : Script) (prefix rest : List Action) → IsPlay net w s prefix →
        is_whole (play net number w s prefix).ending ≡ true → IsPlay net (play net number w s prefix).world last rest →
        play net number w (then_comes s last) (prefix ++ rest) ≡ reporting (play net number w s prefix).items (play net number (play net number w s prefix).world last rest) }
{}

/// If the play of the first script ends early, nothing of the second script is done.
pub fn law_cut_play_ends()
    ensures is { (net : Network) (number : ℕ) (w : World) (s last : Script) (prefix : List Action) → IsPlay net w s prefix →
        is_whole (play net number w s prefix).ending ≡ false → IsPlay net w (then_comes s last) prefix }
    ensures said { (net : Network) (number : ℕ) (w : World) (s last : Script) (prefix : List Action) → IsPlay net w s prefix →
        is_whole (play net number w s prefix).ending ≡ false → play net number w (then_comes s last) prefix ≡ play net number w s prefix }
{}
