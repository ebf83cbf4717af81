//! Names of keys as UUIDs (RFC 9562 section 5.8), whose text is the key_ID of ETSI GS QKD 014.
#![tactic(auto)]

ghost use Rattle.std.specs.Prelude.{◌≡◌, Some, IfSome};
ghost use Rattle.qkd_base.specs.Name.{Name, IsName, octets_of, name_at};

use qkd_base::KeyName;
use uuid::Uuid;

/// The name as a UUID. The UUID's text is hyphenated and in lower case.
pub fn to_uuid(name: KeyName) -> Uuid
    ensures octets { result ≡ octets_of name }
    ensures named { IsName name }
{
    Uuid::from_bytes(name.to_octets())
}

/// The name that a UUID spells. `None` if the UUID doesn't have the layout of a name.
pub fn from_uuid(uuid: Uuid) -> Option<KeyName>
    ensures is { IfSome result (λ n. IsName n × (uuid ≡ octets_of n)) }
    ensures all { (n : Name) → IsName n → uuid ≡ octets_of n → result ≡ Some n }
    ensures name { result ≡ name_at uuid }
{
    KeyName::from_octets(&uuid.into_bytes())
}
