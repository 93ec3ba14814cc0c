//! What holds of what is told as unused.
ghost use Rattle.kube_model.specs.declared.object.Kind.{Kind};
ghost use Rattle.explained_lines.specs.Unread.{MembersAreUnread};

/// No program reads the members that are told as unused: whatever stands there, the object is read
/// as the same one.
pub fn unused_members_are_unread()
    ensures { (kind : Kind) → MembersAreUnread kind }
{}
