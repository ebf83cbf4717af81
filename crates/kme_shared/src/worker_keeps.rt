// What each worker holds before its first job.
ghost use Rattle.std.specs.Prelude.{◌≡◌, IfOk, map};
ghost use Rattle.std.specs.List.{AllZip, AllByRecursion};
ghost use Rattle.lane_shares.specs.Names.{knows, Fits};
ghost use Rattle.kme_shared.specs.Keeping.{IsFresh};

use crate::bare_row;
use lane_shares::{Share, Shares};
use par_lanes::FrameLog;
use par_managers::{Keep, Turn};
use qkd_base::Memory;
use shared_objects::Shift;
use std::alloc::Global;

// What a worker with this shift holds before its first job.
fn keep_for<'a>(
    alloc: Global,
    shares: &[Shares],
    issuers: &mut [Share],
    shift: Shift<Turn<'a>>,
) -> Result<Keep<'a>, Memory>
    requires { AllZip Fits shares.now issuers.old }
    ensures fits { AllZip Fits shares.now issuers.new }
    ensures same { map knows issuers.new ≡ map knows issuers.old }
    ensures shift { IfOk result (λ keep. keep.shift.items ≡ shift.entry.items) }
    ensures fresh { IfOk result (λ keep. IsFresh shares.now keep) }
{
    let replies = Vec::with_capacity(alloc, shift.len())?;
    let granted = bare_row(alloc, shares, issuers)?;
    Ok(Keep {
        shift,
        granted,
        replies,
        log: FrameLog::new(alloc),
    })
}

/// What the workers with these shifts hold before their first jobs: a share of each lane with no bytes, and room for all their replies. The
/// issuers keep their bytes.
pub fn keeps<'a>(
    alloc: Global,
    shares: &[Shares],
    issuers: &mut [Share],
    shifts: Vec<Shift<Turn<'a>>>,
) -> Result<Vec<Keep<'a>>, Memory>
    requires { AllZip Fits shares.now issuers.old }
    ensures fits { AllZip Fits shares.now issuers.new }
    ensures same { map knows issuers.new ≡ map knows issuers.old }
    ensures shifts { IfOk result (λ keeps. map (λ keep. keep.shift.items) keeps.items ≡ map (λ shift. shift.items) shifts.entry.items) }
    ensures fresh { IfOk result (λ keeps. AllByRecursion (IsFresh shares.now) keeps.items) }
{
    let mut keeps = Vec::new(alloc);
    for shift in shifts {
        keeps.push(keep_for(alloc, shares, issuers, shift)?)?;
    }
    Ok(keeps)
}
