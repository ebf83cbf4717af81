ghost use Rattle.std.specs.Prelude.{◌≡◌, ℕ, [], ◌∷◌, length, All, IfSome, IfOk, Some, None, slice_get};
ghost use Rattle.block_run.specs.Jobs.{jobs_of};
ghost use Rattle.shared_objects.specs.Asked.{IsTaken};

use crate::parts::{Meeting, Sum, sums};
use edge_io::OpenGate;
use qkd_base::Memory;
use shared_objects::{Call, Shift, work_together};
use std::alloc::Global;
use std::collections::VecDeque;
use std::test::*;

fn first_shift(alloc: Global) -> Result<Shift<u64>, Memory>
    ensures { IfOk result (λ shift. shift.items ≡ Some (record { machine = 0; request = 1 }) ∷ None ∷ Some (record { machine = 1; request = 20 }) ∷ []) }
{
    let mut shift = VecDeque::new(alloc);
    shift.push_back(Some(Call {
        machine: 0,
        request: 1,
    }))?;
    shift.push_back(None)?;
    shift.push_back(Some(Call {
        machine: 1,
        request: 20,
    }))?;
    Ok(shift)
}

fn second_shift(alloc: Global) -> Result<Shift<u64>, Memory>
    ensures { IfOk result (λ shift. shift.items ≡ Some (record { machine = 1; request = 300 }) ∷ Some (record { machine = 0; request = 4 }) ∷ []) }
{
    let mut shift = VecDeque::new(alloc);
    shift.push_back(Some(Call {
        machine: 1,
        request: 300,
    }))?;
    shift.push_back(Some(Call {
        machine: 0,
        request: 4,
    }))?;
    Ok(shift)
}

// Two machines, and two workers that call both of them in five jobs.
fn block(alloc: Global) -> Result<(Vec<Sum>, Vec<Shift<u64>>), Memory>
    ensures machines { IfOk result (λ block. length block.0.items ≡ 2) }
    ensures workers { IfOk result (λ block. length block.1.items ≡ 2) }
    ensures entries { IfOk result (λ block. (w : ℕ) (shift : _) → slice_get block.1.items w ≡ Some shift → length shift.items ≡ length (jobs_of w (length block.1.items) 5)) }
    ensures taken { IfOk result (λ block. (w : ℕ) (shift : _) → slice_get block.1.items w ≡ Some shift → All (λ entry. IfSome entry (IsTaken (λ s. Prim.tt {0}) (λ none request. Unit {0}) block.0.items)) shift.items) }
{
    let sums = sums(alloc)?;
    let mut shifts = Vec::new(alloc);
    shifts.push(first_shift(alloc)?)?;
    shifts.push(second_shift(alloc)?)?;
    Ok((sums, shifts))
}

// Run with an allocation that fails, it ends at the refusal.
#[test]
fn each_call_is_made_once(rt: HostRuntime) -> Result<(), Fail> {
    let Ok((machines, asked)) = block(rt.alloc()) else {
        return Ok(());
    };
    match work_together(&rt, rt.alloc(), &OpenGate, machines, asked, 5) {
        Ok(after) => {
            assert_eq!(rt; (after.len(), after[0].total, after[1].total), (2, 12, 420));
        }
        Err((_, before)) => {
            assert_eq!(rt;
                (before.len(), before[0].total, before[1].total),
                (2, 7, 100)
            );
        }
    }
    Ok(())
}

#[test]
fn two_workers_are_inside_at_once(rt: HostRuntime) -> Result<(), Fail> {
    let meeting = Meeting::new();
    let (machines, asked) = block(rt.alloc())?;
    let ended = work_together(&rt, rt.alloc(), &meeting, machines, asked, 5);
    assert!(rt; ended.is_ok());
    assert!(rt; !meeting.is_missed());
    Ok(())
}
