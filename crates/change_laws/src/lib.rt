//! Laws of changes of a text: of places in both texts, and of the marks that no change meets.
#![tactic(auto)]

ghost use Rattle.change_laws.specs.EdgeLaws.{EndLaw, NewStartLaw, ForthLaw};
ghost use Rattle.change_laws.specs.PlaceLaws.{ImagesRise, OriginsRise, RoomLaw, OldMarkLaw, NewMarkLaw, StretchLaw};

/// Places keep their order over changes, from the old text to the new one and back.
pub fn places_keep_their_order()
    ensures images { ImagesRise }
    ensures origins { OriginsRise }
{}

/// From a place of the new text that has an old one, the old text goes on as the new one does, up to the next change:
/// images lie as far behind, and so do marks, which are clear of all changes.
pub fn texts_go_alike_up_to_the_next_change()
    ensures places { RoomLaw }
    ensures old_marks { OldMarkLaw }
    ensures new_marks { NewMarkLaw }
{}

/// From a place of the new text that has an old one up to the next change, both texts have the same marks, if they have
/// the same marks that are clear of all changes.
pub fn marks_are_the_same_up_to_the_next_change()
    ensures { StretchLaw }
{}

/// The ends of a change are images of each other; the start of a change that puts something in is its old start; and a
/// place that has an old one is the image of that, unless a change starts there.
pub fn edges_of_changes_lead_back()
    ensures ends { EndLaw }
    ensures starts { NewStartLaw }
    ensures forth { ForthLaw }
{}
