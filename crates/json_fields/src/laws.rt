//! What holds of every field.
ghost use Rattle.json_fields.specs.Laws.{MemberOffPath, NullIsAbsent, AbsentParent};
ghost use Rattle.json_fields.specs.Laws.{ParentIsNoObject};

/// A member off a path leaves what stands at the path alone.
pub fn member_off_path()
    ensures { MemberOffPath }
{}

/// A member that is null is as one that is absent, at any depth.
pub fn null_is_absent()
    ensures { NullIsAbsent }
{}

/// A parent that is absent gives an absent field.
pub fn absent_parent()
    ensures { AbsentParent }
{}

/// A parent that is there and is no object gives the fault of the whole path.
pub fn parent_is_no_object()
    ensures { ParentIsNoObject }
{}
