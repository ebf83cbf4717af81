// The laws of lives over one folder of journals.
ghost use Rattle.std.specs.Prelude.{◌≡◌, ◌<◌, ℕ, Bool, List, Option, Some, slice_get};
ghost use Rattle.net_model.specs.declared.record.Record.{Record};
ghost use Rattle.net_model.specs.OctetSequence.{OctetSequence};
ghost use Rattle.net_model.specs.Sealing.{Sealing};
ghost use Rattle.net_model.specs.World.{Network, World, Journal};
ghost use Rattle.net_model.specs.View.{View};
ghost use Rattle.net_model.specs.Action.{Action};
ghost use Rattle.run_types.specs.declared.scenario.Scenario.{Scenario};
ghost use Rattle.run_model.specs.Turn.{HttpTexts};
ghost use Rattle.run_model.specs.Bench.{DiskBatches, Seen};
ghost use Rattle.run_model.specs.Course.{Words, Course};
ghost use Rattle.run_model.specs.Headline.{Stop, Given, Headline};
ghost use Rattle.law_lives.specs.Belongs.{AreRead, Belongs, NothingBehind};
ghost use Rattle.law_lives.specs.Left.{HasOneWorld, life_of};
ghost use Rattle.law_lives.specs.KeptWorld.{kept_network, kept_world};
ghost use Rattle.law_lives.specs.SameViews.{SeeTheSame, HasAllOf};
ghost use Rattle.law_lives.specs.Lives.{Life};
ghost use Rattle.law_lives.specs.FolderLives.{BeginsLife, IsNextOver, AreLivesOver, IsEarlierOver};

/// Of two conserved worlds in which each node sees the same, each has all that the other has: facts, but for bytes that
/// no node needs, knowledge, marks and handings. What an application may have, it may have in both, also group keys. Each
/// lane that leaves a node has the same blocks and the same lease.
pub fn law_same_views_last()
    ensures last { (a b : Network) (v w : World) → SeeTheSame a b v w → HasAllOf a v w }
    ensures back { (a b : Network) (v w : World) → SeeTheSame a b v w → SeeTheSame b a w v }
{}

/// Lives follow one another over one folder. Each begins in a world in which each node sees what its journal gives back. Of
/// two of them, the later one has forgotten no fact, no knowledge and no handing. A key or chunk that was ready still is; of
/// group keys this is not said. No key is handed to an application in both, bytes handed out under one name are equal, and
/// no byte of a lane masks a frame of each. A course with its headline is such a life. Each life's views belong to one
/// network, and in the world that is made of them the next life may begin. No call reads a folder yet.
pub fn law_folder_lives_go_on()
    ensures earlier { (ls : List Life) → AreLivesOver ls → (i j : ℕ) (a b : Life) → i < j → slice_get ls i ≡ Some a → slice_get ls j ≡ Some b → IsEarlierOver a b }
    ensures course { (words : Words) (stop : Stop) (http : HttpTexts) (reading : DiskBatches) (scenario : Scenario) (seen : Seen) (old new : Given) (c : Course) (journals : ℕ → Journal) →
        Headline words stop http reading scenario seen old new c → NothingBehind c.net c.begin → (one : HasOneWorld reading seen c journals) →
        BeginsLife (life_of c one.images one.made journals) }
    ensures belong { (l : Life) (views : List View) → BeginsLife l → AreRead l.net.site l.images views → Belongs l.net.site l.net.device views }
    ensures kept { (l : Life) (sealing : Sealing) (devices entropies : ℕ → OctetSequence) (views : List View) (journals : ℕ → Journal) (actions : List Action)
        (images : ℕ → List (List Record)) (made : ℕ → Bool) (later : ℕ → Journal) → AreRead l.net.site l.images views → Belongs l.net.site devices views →
        IsNextOver l (record { net = kept_network l.net.site sealing devices entropies views; begin = kept_world l.net.site views journals; actions = actions; images = images; made = made; journals = later }) }
{}
