// Laws about managers that were recovered from a journal.
ghost use Rattle.std.specs.Prelude.{ℕ, List};
ghost use Rattle.std.specs.List.{All};
ghost use Rattle.net_model.specs.declared.record.Record.{Record as RecordValue};
ghost use Rattle.net_model.specs.Site.{Site};
ghost use Rattle.net_model.specs.Fold.{recovered_view};
ghost use Rattle.journal_records.specs.declared.version.Version.{Version as VersionValue};
ghost use Rattle.journal_records.specs.Grammar.{IsBatch};
ghost use Rattle.kme_journal.specs.Formed.{IsFormed};

/// Proof only. A manager that was recovered from valid batches can be written as a checkpoint.
pub fn law_read_back_is_formed()
    ensures { (site : Site) (me : ℕ) (version : VersionValue) (story : List (List RecordValue)) → All (IsBatch version) story → IsFormed (recovered_view site me story) }
{}
