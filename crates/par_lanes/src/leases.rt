// The leases of a plan.
ghost use Rattle.par_lanes.specs.Leases.{ArePlansLeased};

/// On each lane, the bytes that a plan's orders take lie after the planned end and below the lease that the plan leaves. So
/// they may be granted after the plan.
pub fn law_plans_are_leased()
    ensures { ArePlansLeased }
{}
