// The laws of this crate: each is the contract of a function that does nothing.
ghost use Rattle.report_json.specs.Laws.{ObjectsTell};

/// Two items that a report can tell never have the same object.
pub fn law_objects_tell()
    ensures { ObjectsTell }
{}
