ghost use Rattle.std.specs.Prelude.{◌≡◌, ℕ, Bool};
ghost use Rattle.journal_snapshot.specs.Layout.{chosen, next_area, is_slot, version_place, mark_place, open_mark, fields_place};

/// Where a disk says the start of its live area.
#[derive(Clone, Copy, Debug, PartialEq, Eq)]
pub enum Area {
    /// Nowhere: the start is octet 16, after the header. No checkpoint was made on this disk.
    Header,
    /// In octets 9 to 15: a checkpoint was made, and neither slot is open.
    Field,
    /// In the first slot, octets 18 to 33.
    First,
    /// In the second slot, octets 34 to 49.
    Second,
}

impl Area {
    /// Chooses among the areas: by whether a checkpoint was made, which slots are open, and whether the second slot is newer.
    pub fn chosen(moved: bool, first: bool, second: bool, newer: bool) -> Self
        ensures { result ≡ chosen moved first second newer }
    {
        if !moved {
            return Area::Header;
        }
        if first {
            if second && newer {
                Area::Second
            } else {
                Area::First
            }
        } else if second {
            Area::Second
        } else {
            Area::Field
        }
    }

    /// Where the next checkpoint says its start.
    pub fn next(self) -> Self
        ensures { result ≡ next_area self }
    {
        match self {
            Area::Header => Area::Field,
            Area::Field => Area::First,
            Area::First => Area::Second,
            Area::Second => Area::First,
        }
    }

    /// Whether this is one of the two slots.
    pub fn is_slot(self) -> bool
        ensures { result ≡ is_slot self }
    {
        match self {
            Area::Header => false,
            Area::Field => false,
            Area::First => true,
            Area::Second => true,
        }
    }

    /// The place of the octet that tells the version of the area's records. Except for `Header`, the start field begins with
    /// this octet.
    pub fn version_place(self) -> usize
        ensures { result ≡ version_place self }
    {
        match self {
            Area::Header => 7,
            Area::Field => 9,
            Area::First => 26,
            Area::Second => 42,
        }
    }

    /// The place of the mark: the octet that makes this area the live one.
    pub fn mark_place(self) -> u64
        ensures { result ≡ mark_place self }
    {
        match self {
            Area::Header => 8,
            Area::Field => 8,
            Area::First => 16,
            Area::Second => 17,
        }
    }

    /// The value of the mark when it is open.
    pub fn open_mark(self) -> u8
        ensures { result ≡ open_mark self }
    {
        match self {
            Area::Header => 0,
            Area::Field => 1,
            Area::First => 3,
            Area::Second => 3,
        }
    }

    /// Where the area's fields begin.
    pub fn fields_place(self) -> u64
        ensures { result ≡ fields_place self }
    {
        match self {
            Area::Header => 9,
            Area::Field => 9,
            Area::First => 18,
            Area::Second => 34,
        }
    }
}
