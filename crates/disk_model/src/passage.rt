// Which calls of a disk in memory fail.
ghost use Rattle.std.specs.Prelude.{◌≡◌, ◌≤◌, false, None, Some, IsTrue};
ghost use Rattle.qkd_base.specs.Faults.{Rose};
ghost use Rattle.disk_model.specs.Plan.{call_of, due_at, passage_of, cut_after, fails_in, passage as passage_at, after_call};

use crate::{Arm, Image};
use std::marker::Model;

/// How a call ends.
#[derive(Clone, Copy, Debug, PartialEq, Eq)]
pub enum Passage {
    Passes,
    /// The call fails and has no effect.
    Fails,
    /// The call fails, and the power is cut.
    Cuts,
}

impl Passage {
    fn fails(self) -> bool
        ensures { result ≡ fails_in self }
    {
        match self {
            Passage::Passes => false,
            Passage::Fails => true,
            Passage::Cuts => true,
        }
    }
}

/// The numbers of the calls that fail, and the fault that is armed.
#[derive(Debug, Drop)]
pub struct FaultPlan {
    fails: Vec<u64>,
    calls: u64,
    armed: Option<Arm>,
    since: u32,
    cut: Option<Image>,
    faults: u64,
}

impl Model for FaultPlan {
    ghost use Rattle.disk_model.specs.Plan.{PlanForm};

    ghost Value = { PlanForm };

    ghost view = { λ p. record { fails = p.fails.items; calls = p.calls; armed = p.armed; since = p.since; cut = p.cut; faults = p.faults } };
}

impl Arm {
    fn call(self) -> u32
        ensures { result ≡ call_of self }
    {
        match self {
            Arm::Cut { call, .. } => call,
            Arm::Fail { call } => call,
        }
    }
}

// The armed fault, if it strikes the call of this number.
fn due(armed: Option<Arm>, call: u32) -> Option<Arm>
    ensures { result ≡ due_at armed call }
{
    match armed {
        None => None,
        Some(arm) => { if arm.call() == call { Some(arm) } else { None } }
    }
}

fn way_of(fault: Option<Arm>, cut: Option<Image>, listed: bool) -> Passage
    ensures { result ≡ passage_of fault cut listed }
{
    match (fault, cut) {
        (Some(Arm::Cut { .. }), None) => Passage::Cuts,
        (Some(_), _) => Passage::Fails,
        (None, Some(_)) => Passage::Fails,
        (None, None) => {
            if listed {
                Passage::Fails
            } else {
                Passage::Passes
            }
        }
    }
}

// The image of the first cut: a later fault doesn't change it.
fn cut_by(fault: Option<Arm>, cut: Option<Image>) -> Option<Image>
    ensures { result ≡ cut_after fault cut }
{
    match (fault, cut) {
        (Some(Arm::Cut { image, .. }), None) => Some(image),
        (_, cut) => cut,
    }
}

impl FaultPlan {
    /// The plan in which the calls of these numbers fail. The first call is 1.
    pub fn new(fails: Vec<u64>) -> Self
        ensures { result ≡ record { fails = fails.items; calls = 0; armed = None; since = 0; cut = None; faults = 0 } }
    {
        FaultPlan {
            fails,
            calls: 0,
            armed: None,
            since: 0,
            cut: None,
            faults: 0,
        }
    }

    /// Arms a fault, in place of an older one. Calls are counted from 1 again.
    pub fn arm(&mut self, arm: Arm)
        ensures { self.new ≡ record self.old { armed = Some arm; since = 0 } }
    {
        self.armed = Some(arm);
        self.since = 0;
    }

    /// Counts a call, and answers how it ends.
    pub fn pass(&mut self) -> Passage
        ensures passage { result ≡ passage_at self.old }
        ensures plan { self.new ≡ after_call self.old }
        ensures later { self.old.faults ≤ self.new.faults }
        ensures rose { IsTrue (fails_in result) → Rose self.old.faults self.new.faults }
        ensures calm { fails_in result ≡ false → self.new.faults ≡ self.old.faults }
    {
        self.calls = self.calls.saturating_add(1);
        self.since = self.since.saturating_add(1);
        // Most disks have no fault before them, and none behind.
        if self.armed.is_none() && self.cut.is_none() && self.fails.is_empty() {
            return Passage::Passes;
        }
        let listed = self.fails.contains(&self.calls);
        let fault = due(self.armed, self.since);
        let way = way_of(fault, self.cut, listed);
        self.cut = cut_by(fault, self.cut);
        if fault.is_some() {
            self.armed = None;
        }
        if way.fails() {
            self.faults = self.faults.saturating_add(1);
        }
        way
    }

    /// Ends a cut. The answer is the image that it left.
    pub fn revive(&mut self) -> Option<Image>
        ensures cut { result ≡ self.old.cut }
        ensures plan { self.new ≡ record self.old { cut = None } }
    {
        self.cut.take()
    }
}
