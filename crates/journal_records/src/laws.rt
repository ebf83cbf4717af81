// Laws of the encoding, over all batches.
ghost use Rattle.std.specs.Prelude.{◌≡◌, ℕ, List, length, Ok};
ghost use Rattle.net_model.specs.declared.record.Record.{Record as RecordValue};
ghost use Rattle.net_model.specs.Journal.{body_len};
ghost use Rattle.frame_codec.specs.Payload.{AreOctets};
ghost use Rattle.journal_records.specs.Grammar.{IsBatch, body_octets, version_number};
ghost use Rattle.journal_records.specs.Layout.{batch_of};
ghost use Rattle.journal_records.specs.declared.version.Version.{Version as VersionValue};

/// Decoding the encoding of a batch gives that batch. So two batches have different encodings in each version. The length of an
/// encoding is the one that the network model defines.
pub fn spelled_is_read()
    ensures read { (v : VersionValue) (batch : List RecordValue) → IsBatch v batch → batch_of v (body_octets v batch) ≡ Ok batch }
    ensures length { (v : VersionValue) (batch : List RecordValue) → length (body_octets v batch) ≡ body_len (version_number v) batch }
{}

/// Octets that decode to a batch are the encoding of that batch.
pub fn read_is_spelled()
    ensures { (v : VersionValue) (octets : List ℕ) (batch : List RecordValue) → AreOctets octets → batch_of v octets ≡ Ok batch → IsBatch v batch × (octets ≡ body_octets v batch) }
{}
