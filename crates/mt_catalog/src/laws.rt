ghost use Rattle.std.specs.Prelude.{◌≡◌, List};
ghost use Rattle.mt_catslot.specs.declared.slot.CatSlot.{CatSlot};
ghost use Rattle.mt_catalog.specs.Reading.{ReadAs};
ghost use Rattle.mt_catalog.specs.Rules.{IsCatalogue};
ghost use Rattle.mt_catalog.specs.State.{State};

/// No slots are those of two catalogues that keep the rules. It does nothing.
pub fn catalogs_are_determined()
    ensures { (slots : List CatSlot) (state other : State) → IsCatalogue state → IsCatalogue other → ReadAs slots state → ReadAs slots other → state ≡ other }
{}
