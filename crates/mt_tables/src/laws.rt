ghost use Rattle.std.specs.Prelude.{◌≡◌, Bool, filter_map};
ghost use Rattle.std.specs.FinMap as finite;
ghost use Rattle.mt_journal.specs.Layout.{Area};
ghost use Rattle.mt_physplan.specs.declared.key.Key.{Key};
ghost use Rattle.mt_tables.specs.Pages.{AreSlotSizes, page_count};
ghost use Rattle.mt_tables.specs.Rows.{ArePages, KnownLayouts, row_in, rows_of, sizes_of};
ghost use Rattle.mt_tables.specs.Tables.{passing, slots_below, with_entries};

/// Slots have bytes, and those of a page lie within it, whatever layouts are known. It does nothing.
pub fn slots_lie_within_pages()
    ensures { (known : KnownLayouts) → AreSlotSizes (sizes_of known) }
{}

/// A walk over the slots of all pages finds those rows that pass a test, and no others, where each
/// slot can be read and no two have one key. It does nothing.
pub fn walks_find_rows()
    ensures { (known : KnownLayouts) (pages : Area) (test : Key → Bool) → ArePages known pages
        → with_entries (passing test (filter_map (row_in known) (slots_below (sizes_of known) (page_count pages) pages))) finite.empty ≡ finite.retain_keys (rows_of known pages) test }
{}
