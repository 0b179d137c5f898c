ghost use Rattle.std.specs.Prelude.{◌≡◌, length};
ghost use Rattle.mt_rowfile.specs.declared.layout.Layout.{Layout};
ghost use Rattle.mt_rowfile.specs.declared.slot.SlotRow.{SlotRow};
ghost use Rattle.mt_rowfile.specs.Fields.{AreKinds};
ghost use Rattle.mt_rowfile.specs.Layouts.{IsLayout, IsOfRows, slot_width};
ghost use Rattle.mt_rowfile.specs.Slots.{FitsLayout, HasNumbers, IsSlot, slot_bytes, slot_of};

use mt_codec::fields_and_values_are_one;

/// What is written for a slot that fits reads as this slot, and is a slot as wide as its layout says.
pub fn slots_are_read_again()
    ensures again { (layout : Layout) (slot : SlotRow) → IsLayout layout → IsOfRows layout.head → AreKinds layout.kinds → FitsLayout layout slot → HasNumbers slot
        → slot_of layout (slot_bytes layout slot) ≡ slot }
    ensures slot { (layout : Layout) (slot : SlotRow) → IsLayout layout → IsOfRows layout.head → AreKinds layout.kinds → FitsLayout layout slot → HasNumbers slot
        → IsSlot layout (slot_bytes layout slot) }
    ensures width { (layout : Layout) (slot : SlotRow) → IsLayout layout → IsOfRows layout.head → AreKinds layout.kinds → FitsLayout layout slot → HasNumbers slot
        → length (slot_bytes layout slot) ≡ slot_width layout }
{
    fields_and_values_are_one();
}
