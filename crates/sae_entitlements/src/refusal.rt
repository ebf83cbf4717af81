// The refusals of calls about applications and their entitlements.
ghost use Rattle.std.specs.Prelude.{◌≡◌};
ghost use Rattle.sae_entitlements.specs.declared.refusal.AddRefusal.TheVariants.{Memory};

use qkd_base::Memory;
use std::error::Error;
use std::fmt;

/// Why an application isn't added. The cases are tried in this order.
#[derive(Clone, Copy, Debug, PartialEq, Eq)]
pub enum AddRefusal {
    /// An application with this ID is already there.
    Known,
    /// There are 256 applications already.
    Full,
    /// Memory ran out.
    Memory,
}

impl From<Memory> for AddRefusal {
    ghost from_gives = { λ _ e. e ≡ Memory };

    fn from(_: Memory) -> Self {
        AddRefusal::Memory
    }
}

impl fmt::Display for AddRefusal {
    ghost use Rattle.std.specs.Prelude.{Some};
    ghost use Rattle.sae_entitlements.specs.Sayings.{adding_said};

    ghost output = { λ r. Some (adding_said r) };

    fn fmt<W: fmt::Write>(&self, f: &mut fmt::Formatter<W>) -> fmt::Result {
        match self {
            AddRefusal::Known => write!(f, "the application is known"),
            AddRefusal::Full => write!(f, "256 applications are known"),
            AddRefusal::Memory => write!(f, "out of memory"),
        }
    }
}

impl Error for AddRefusal {}

/// Why a master gets no key for a slave. The cases are tried in this order.
#[derive(Clone, Copy, Debug, PartialEq, Eq)]
pub enum EntitlementRefusal {
    /// One of the two numbers is not that of an application.
    UnknownSae,
    /// The pair is not allowed in this order.
    NotAllowed,
}

impl fmt::Display for EntitlementRefusal {
    ghost use Rattle.std.specs.Prelude.{Some};
    ghost use Rattle.sae_entitlements.specs.Sayings.{pair_said};

    ghost output = { λ r. Some (pair_said r) };

    fn fmt<W: fmt::Write>(&self, f: &mut fmt::Formatter<W>) -> fmt::Result {
        match self {
            EntitlementRefusal::UnknownSae => write!(f, "unknown application"),
            EntitlementRefusal::NotAllowed => write!(f, "the pair isn't allowed"),
        }
    }
}

impl Error for EntitlementRefusal {}

/// No application has this number.
#[derive(Clone, Copy, Debug, PartialEq, Eq)]
pub struct UnknownSae;

impl fmt::Display for UnknownSae {
    ghost use Rattle.std.specs.Prelude.{Some, codes};

    ghost output = { λ _. Some (codes "unknown application") };

    fn fmt<W: fmt::Write>(&self, f: &mut fmt::Formatter<W>) -> fmt::Result {
        write!(f, "unknown application")
    }
}

impl Error for UnknownSae {}
