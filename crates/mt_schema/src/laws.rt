ghost use Rattle.std.specs.Prelude.{◌≡◌, ℕ, List, filter_map, None};
ghost use Rattle.mt_tree.specs.declared.command.AdminCmd.{AdminCmd};
ghost use Rattle.mt_catslot.specs.declared.slot.CatSlot.{CatSlot};
ghost use Rattle.mt_catslot.specs.Slots.{IsSayable};
ghost use Rattle.mt_catalog.specs.Rules.{IsCatalogue};
ghost use Rattle.mt_catalog.specs.Slots.{HasSlot, slot_of};
ghost use Rattle.mt_catalog.specs.State.{State};
ghost use Rattle.mt_schema.specs.Changed.{AreTenants, changed_keys};
ghost use Rattle.mt_schema.specs.Refusals.{step_refusal};
ghost use Rattle.mt_schema.specs.Steps.{IsWellFormed, stepped};
ghost use Rattle.mt_schema.specs.Turns.{TurnsInto};

/// The catalogue after a schema step that is not refused keeps the rules. It does nothing.
pub fn schema_steps_keep_the_rules()
    ensures { (state : State) (kept : ℕ → ℕ) (step : AdminCmd) → IsCatalogue state → IsWellFormed step → step_refusal state kept step ≡ None → IsCatalogue (stepped state step) }
{}

/// The slots that the catalogue after a schema step has with the keys that it changes, and those that
/// the one before has with them, turn one catalogue into the other. It does nothing.
pub fn changed_slots_turn_the_catalogue()
    ensures { (state : State) (kept : ℕ → ℕ) (step : AdminCmd) (tenants : List ℕ) → IsCatalogue state → IsWellFormed step → step_refusal state kept step ≡ None → AreTenants tenants state
        → TurnsInto (filter_map (slot_of (stepped state step)) (changed_keys state tenants step)) (filter_map (slot_of state) (changed_keys state tenants step)) state (stepped state step) }
{}

/// A slot of the catalogue has the bytes that say it. It does nothing.
pub fn slots_are_sayable()
    ensures { (state : State) (slot : CatSlot) → IsCatalogue state → HasSlot state slot → IsSayable slot }
{}
