// Laws on what a cut leaves. They hold of every disk in memory.
ghost use Rattle.std.specs.Prelude.{◌≡◌, take, Some};
ghost use Rattle.disk_model.specs.Record.{replayed};
ghost use Rattle.disk_model.specs.MemForm.{MemForm, content_of, left_by};
ghost use Rattle.disk_model.specs.declared.arm.Image.TheVariants.{Lost, Kept};

/// What a disk in memory holds after a cut. With `Lost`, its content is that of the last sync. With `Kept`, it is that
/// at the time of the cut.
pub fn what_a_cut_leaves()
    ensures lost { (d : MemForm) → content_of (left_by (Some Lost) d) ≡ replayed d.first (take d.synced d.used) }
    ensures kept { (d : MemForm) → content_of (left_by (Some Kept) d) ≡ content_of d }
{}
