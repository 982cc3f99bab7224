//! Laws of the definitions of the slots, as functions that do nothing.
ghost use Rattle.std.specs.Prelude.{◌≡◌, ◌↔◌, ℕ, List, Some, None};
ghost use Rattle.um_model.specs.Disk.{Image};
ghost use Rattle.um_model.specs.declared.layout.Layout.{Layout};
ghost use Rattle.um_model.specs.declared.layout.Slot.{Slot};
ghost use Rattle.um_model.specs.Store.{IsNewest, HasNoHeader, Newest, newest_of, IsSlotRead};

/// An image has one newest body at most.
pub fn the_newest_body_is_one()
    ensures { (layout : Layout) (image : Image) (s t : Slot) (g h : ℕ) (x y : List ℕ) → IsNewest layout image s g x → IsNewest layout image t h y → (s ≡ t) × (g ≡ h) × (x ≡ y) }
{}

/// Images that agree in both headers and in the sectors within the newest one's length have the same newest body, or none.
pub fn unread_sectors_of_the_slots_do_not_count()
    ensures one { (layout : Layout) (a b : Image) (slot : Slot) (generation : ℕ) (body : List ℕ) → ((j : ℕ) → IsSlotRead layout a j → b j ≡ a j)
        → IsNewest layout a slot generation body → IsNewest layout b slot generation body }
    ensures none { (layout : Layout) (a b : Image) → ((j : ℕ) → IsSlotRead layout a j → b j ≡ a j) → HasNoHeader layout a → HasNoHeader layout b }
{}

/// The body that the function gives of an image is its newest body, and it gives none exactly where there is none.
pub fn the_newest_body_is_told()
    ensures one { (layout : Layout) (image : Image) (n : Newest) → (newest_of layout image ≡ Some n) ↔ IsNewest layout image n.slot n.generation n.body }
    ensures none { (layout : Layout) (image : Image) → (newest_of layout image ≡ None) ↔ HasNoHeader layout image }
{}
