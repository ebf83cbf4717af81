// The normal form of a scenario's text, with a proof that all texts with the same meaning have the same form.
ghost use Rattle.std.specs.Prelude.{◌≡◌, ℕ, ◌∷◌, List, Some, Ok};
ghost use Rattle.std.specs.List.{flat_map};
ghost use lib.Chars.{codes};
ghost use Rattle.declared_site.specs.declared.site.Site.{Site};
ghost use Rattle.run_types.specs.declared.command.Command.{Command};
ghost use Rattle.run_types.specs.declared.scenario.Scenario.{Scenario};
ghost use Rattle.scenario_text.specs.Words.{Word};
ghost use Rattle.scenario_text.specs.Line.{command_at};
ghost use Rattle.scenario_text.specs.Text.{meaning_of};
ghost use Rattle.scenario_format.specs.Form.{one_case, said_by, numbers, of_kind, asking, form};
ghost use Rattle.scenario_format.specs.Spelled.{command_words, numbers_in, lines_of};

/// Words that are read as a command are that command's spelling, apart from the case of hexadecimal digits.
pub fn law_command_is_spelled()
    ensures { (site : Site) (word : Word) (ws : List Word) (c : Command) → command_at site word ws ≡ Some c → one_case (word ∷ ws) ≡ command_words site c }
{}

/// If a text is read as a scenario, its form is the scenario's spelling. The scenario's line numbers are those of the text.
pub fn law_text_is_spelled()
    ensures lines { (text : List ℕ) (s : Scenario) → meaning_of text ≡ Ok s → form (said_by text) ≡ lines_of s }
    ensures node_numbers { (text : List ℕ) (s : Scenario) → meaning_of text ≡ Ok s → numbers (of_kind (codes "node") (said_by text)) ≡ s.node_lines }
    ensures numbers { (text : List ℕ) (s : Scenario) → meaning_of text ≡ Ok s → numbers (asking (said_by text)) ≡ flat_map numbers_in s.entries }
{}

/// Two texts that are read as the same scenario have the same form.
pub fn law_one_meaning_is_one_form()
    ensures { (text other : List ℕ) (s : Scenario) → meaning_of text ≡ Ok s → meaning_of other ≡ Ok s → form (said_by text) ≡ form (said_by other) }
{}
