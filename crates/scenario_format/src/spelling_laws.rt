// How a scenario's commands are spelled as lines of text, with a proof that the parser reads the same commands back.
ghost use Rattle.std.specs.Prelude.{◌≡◌, ℕ, ◌+◌, ◌≤◌, ◌++◌, List, length, Some, None, Ok};
ghost use lib.Chars.{codes};
ghost use Rattle.declared_site.specs.declared.site.Site.{Site};
ghost use Rattle.run_types.specs.declared.command.Command.{Command};
ghost use Rattle.scenario_text.specs.declared.reading.Reading.{Reading};
ghost use Rattle.scenario_text.specs.Line.{command_at};
ghost use Rattle.scenario_text.specs.Text.{parts_from, parts_of};
ghost use Rattle.scenario_format.specs.Spelling.{keyword, arguments, lines_of, said};
ghost use Rattle.scenario_format.specs.Readable.{CanSay, CanSayAll, RoundsFit};

/// If a command can be written for a site, the parser reads it back from its words.
pub fn law_command_is_read()
    ensures { (site : Site) (c : Command) → CanSay site c → command_at site (keyword c) (arguments site c) ≡ Some c }
{}

/// Behind whatever was read before, the parser reads spelled commands and the line `end` back, in order. No block may be
/// open, and the limits of a text, of its lines and of all rounds of settles must hold.
pub fn law_lines_are_read()
    ensures { (left n : ℕ) (r : Reading) (cs : List Command) → r.block ≡ None → CanSayAll r.site cs → RoundsFit r.rounds cs → length (lines_of r.site cs) + 4 ≤ left → parts_from left n r (parts_of (lines_of r.site cs ++ codes "end\n")) ≡ Ok (said r n cs) }
{}
