ghost use Rattle.std.specs.Prelude.{◌≡◌, ◌<◌, ◌+◌, ◌++◌, ℕ, List, Some, filter_map, length, map, option_map, replicate};
ghost use Rattle.std.specs.List.{range_with_len};
ghost use Rattle.mt_value.specs.declared.value.Value.TheVariants as value;
ghost use Rattle.mt_rowfile.specs.declared.slot.SlotRow.{SlotRow};
ghost use Rattle.mt_physplan.specs.declared.change.Change.{Change};
ghost use Rattle.mt_physplan.specs.Applied.{applied};
ghost use Rattle.mt_physplan.specs.Content.{Content, scanned};
ghost use Rattle.mt_tree.specs.declared.schema.Column.{Column};
ghost use Rattle.mt_fold.specs.declared.fold.Fold.{Fold};
ghost use Rattle.mt_fold.specs.declared.fold.Placement.TheVariants.{Settled};
ghost use Rattle.mt_fold.specs.declared.shape.Shape.{Shape};
ghost use Rattle.mt_fold.specs.Extended.{FillShapes, extended_fold, kinds_of};
ghost use Rattle.mt_rows.specs.Assembled.{Kept, assembled, row_of};
ghost use Rattle.mt_rows.specs.Changes.{AreApplied};
ghost use Rattle.mt_rows.specs.Rules.{KeepsRules};
ghost use Rattle.mt_rows.specs.Series.{Series, anchors_of, scan_of, slot_at, slots_of};

/// A scan of so many Rows gives the slots that stand at them, in their order. It does nothing.
pub fn scans_are_rows()
    ensures { (content : Content) (series : Series) (from count : ℕ) → scanned content (scan_of series from (from + count)) ≡ filter_map (slot_at content series) (range_with_len from count) }
{}

/// Where no slot has a higher Row, the slots with some identifiers are those at the Rows below. It does
/// nothing.
pub fn all_slots_are_rows()
    ensures { (content : Content) (series : Series) (made : ℕ) → ((row : ℕ) (slot : SlotRow) → slot_at content series row ≡ Some slot → row < made)
        → slots_of content series ≡ filter_map (slot_at content series) (range_with_len 0 made) }
{}

/// The rows of a table that keeps its rules are those of the anchors at the Rows that were made. It does
/// nothing.
pub fn rows_stand_by_anchors()
    ensures { (content : Content) (kept : Kept) (columns : List Column) (base_len made : ℕ) → KeepsRules content kept columns base_len made
        → assembled content kept ≡ filter_map (λ row. option_map (row_of content kept) (slot_at content (anchors_of kept.tenant kept.base) row)) (range_with_len 0 made) }
{}

/// Where a table that keeps its rules gets chunks for further columns, each row ends in NULL for each of
/// these, and is as it was before. It does nothing.
pub fn extended_rows_end_in_nulls()
    ensures { (content : Content) (tenant base generation : ℕ) (fold : Fold) (columns added : List Column) (base_len made : ℕ) (shapes : List Shape)
        → FillShapes (kinds_of added) shapes
        → KeepsRules content (record { tenant = tenant; base = base; placement = Settled generation fold }) columns base_len made
        → assembled content (record { tenant = tenant; base = base; placement = Settled generation (extended_fold fold (kinds_of added) shapes) })
        ≡ map (λ row. record { visible = row.visible; values = row.values ++ replicate (length added) value.Null }) (assembled content (record { tenant = tenant; base = base; placement = Settled generation fold })) }
{}

/// Applied changes do to each place what they say of it. It does nothing.
pub fn changed_slots()
    ensures { (changes : List Change) (content : Content) → AreApplied changes content (applied changes content) }
{}

/// Two contents in which each place holds what changes make of it are the same, which is that of the
/// applied changes. It does nothing.
pub fn applied_changes_are_changes()
    ensures { (changes : List Change) (before after : Content) → AreApplied changes before after → after ≡ applied changes before }
{}
