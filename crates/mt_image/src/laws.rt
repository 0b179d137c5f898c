ghost use Rattle.std.specs.Prelude.{◌≡◌};
ghost use Rattle.mt_machine.specs.Meaning.{Disk};
ghost use Rattle.mt_journal.specs.Layout.{Area};
ghost use Rattle.mt_tables.specs.Rows.{AreKnown, ArePages};
ghost use Rattle.mt_catalog.specs.State.{State, empty_state};
ghost use Rattle.mt_image.specs.declared.damage.Damage.{Damage as DiskDamage};
ghost use Rattle.mt_image.specs.Image.{Holds, IsDamageOf, IsHeld};
ghost use Rattle.mt_image.specs.Layouts.{known_of};

/// A disk holds one catalogue at most. It does nothing.
pub fn disks_hold_one_catalogue()
    ensures pages { (pages : Area) (state other : State) → Holds pages state → Holds pages other → state ≡ other }
    ensures disk { (disk : Disk) (state other : State) → IsHeld disk state → IsHeld disk other → state ≡ other }
{}

/// A disk that holds a catalogue is not damaged. It does nothing.
pub fn held_disks_are_not_damaged()
    ensures { (disk : Disk) (state : State) (damage : DiskDamage) → IsHeld disk state → IsDamageOf disk damage → ⊥ }
{}

/// A disk has one first damage at most. It does nothing.
pub fn disks_have_one_damage()
    ensures { (disk : Disk) (damage other : DiskDamage) → IsDamageOf disk damage → IsDamageOf disk other → damage ≡ other }
{}

/// A disk of zeros holds the catalogue without tables and tenants. It does nothing.
pub fn empty_disks_hold_nothing()
    ensures { IsHeld (λ area position. 0) empty_state }
{}

/// The slots of pages that hold a catalogue can be read by its layouts, and have keys of their own. It
/// does nothing.
pub fn held_pages_are_sound()
    ensures pages { (pages : Area) (state : State) → Holds pages state → ArePages (known_of state) pages }
    ensures known { (pages : Area) (state : State) → Holds pages state → AreKnown (known_of state) }
{}
