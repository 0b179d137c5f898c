ghost use Rattle.std.specs.Prelude.{◌≡◌, ◌<◌, ◌≤◌, ℕ, List, length, All, Some};
ghost use Rattle.mt_rowfile.specs.Layouts.{body_width};
ghost use Rattle.mt_rowfile.specs.Slots.{IsBody};
ghost use Rattle.mt_catslot.specs.Bytes.{body_of, says};
ghost use Rattle.mt_catslot.specs.Slots.{IsSayable, table_of};
ghost use Rattle.mt_catslot.specs.declared.slot.CatSlot.{CatSlot};

/// The bytes that are written of a slot say it. It does nothing.
pub fn written_slots_are_read()
    ensures { (slot : CatSlot) → IsSayable slot → says (table_of slot) (body_of slot) ≡ Some slot }
{}

/// They fill the slot of their table, and are such as a page may hold. It does nothing.
pub fn written_slots_are_readable()
    ensures { (slot : CatSlot) → IsSayable slot → (length (body_of slot) ≡ body_width (table_of slot)) × IsBody (table_of slot) (body_of slot) }
{}

/// The bytes of a tenant, a placement, an extended table or a field are those that are written of it, so
/// that such a slot can be removed by what it says. It does nothing.
pub fn said_bodies_are_written()
    ensures { (table : ℕ) (body : List ℕ) (slot : CatSlot) → 10 ≤ table → table ≤ 13 → length body ≡ body_width table → All (λ byte. byte < 256) body
        → says table body ≡ Some slot → body ≡ body_of slot }
{}

/// What bytes say stands in the table in which they do. It does nothing.
pub fn said_slots_stand_in_their_table()
    ensures { (table : ℕ) (body : List ℕ) (slot : CatSlot) → says table body ≡ Some slot → table_of slot ≡ table }
{}
