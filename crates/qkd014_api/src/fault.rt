// Why a request asks for no event.
use http_front::HttpResponse;
use qkd_base::Memory;
use std::alloc::AllocError;

/// Why a request doesn't reach a manager.
#[derive(Debug, Drop)]
pub enum CallRefusal {
    /// The request is answered at once.
    Answer(HttpResponse),
    /// Out of memory.
    Memory,
}

/// What is wrong with a request. The cases are tried in this order, except that the faults of a body come before those of
/// parameters.
#[derive(Clone, Copy, Debug, PartialEq, Eq)]
pub enum CallFault {
    UnknownResource,
    MissingCaller,
    NotAllowed,
    BadBody,
    BadNumber,
    BadSize,
    SlavesRefused,
    MandatoryRefused,
    BadKeyId,
    BadKeyIds,
    Memory,
}

impl CallFault {
    ghost use Rattle.std.specs.Prelude.{◌≡◌};
    ghost use Rattle.qkd014_api.specs.Calls.{fault_status, fault_message};

    /// The HTTP status of the answer to this fault.
    pub(crate) fn status(self) -> u16
        ensures { result ≡ fault_status self }
    {
        match self {
            CallFault::MissingCaller | CallFault::NotAllowed => 401,
            _ => 400,
        }
    }

    /// The message of the answer to this fault. Out of memory has none.
    pub(crate) fn text(self) -> &'static str
        ensures { result.now ≡ fault_message self }
    {
        match self {
            CallFault::UnknownResource => "unknown resource",
            CallFault::MissingCaller => "X-SAE-ID missing",
            CallFault::NotAllowed => "not allowed",
            CallFault::BadBody => "bad body",
            CallFault::BadNumber => "bad number",
            CallFault::BadSize => "bad size",
            CallFault::SlavesRefused => "additional_slave_SAE_IDs refused",
            CallFault::MandatoryRefused => "extension_mandatory refused",
            CallFault::BadKeyId => "bad key_ID",
            CallFault::BadKeyIds => "bad key_IDs",
            CallFault::Memory => "",
        }
    }
}

impl From<Memory> for CallFault {
    ghost use Rattle.qkd014_api.specs.declared.fault.CallFault.TheVariants as faults;
    ghost use Rattle.std.specs.Prelude.{◌≡◌};

    ghost from_gives = { λ _ e. e ≡ faults.Memory };

    fn from(_: Memory) -> Self {
        CallFault::Memory
    }
}

impl From<AllocError> for CallFault {
    ghost use Rattle.qkd014_api.specs.declared.fault.CallFault.TheVariants as faults;
    ghost use Rattle.std.specs.Prelude.{◌≡◌};

    ghost from_gives = { λ _ e. e ≡ faults.Memory };

    fn from(_: AllocError) -> Self {
        CallFault::Memory
    }
}
