ghost use Rattle.std.specs.Prelude.{◌≡◌, ◌≤◌, ◌+◌, ◌++◌, ℕ, List, count_by, length};
ghost use Rattle.mt_codec.specs.declared.field.FieldKind.{FieldKind};
ghost use Rattle.mt_codec.specs.declared.field.FieldKind.TheVariants.{Int, Text};
ghost use Rattle.mt_tree.specs.declared.schema.Column.{Column};
ghost use Rattle.mt_fold.specs.declared.fold.Fold.{Fold};
ghost use Rattle.mt_fold.specs.declared.shape.Shape.{Shape};
ghost use Rattle.mt_fold.specs.Covers.{IsCover, cover_of};
ghost use Rattle.mt_fold.specs.Extended.{FillShapes, extended_fold, kinds_of};
ghost use Rattle.mt_fold.specs.Folds.{IsValidFold};
ghost use Rattle.mt_fold.specs.Shapes.{same_sort};

/// A valid fold with the chunks of further columns is valid for the columns and these behind them. It
/// does nothing.
pub fn extended_folds_are_valid()
    ensures { (fold : Fold) (columns added : List Column) (base_len : ℕ) (shapes : List Shape)
        → IsValidFold fold columns base_len → FillShapes (kinds_of added) shapes → length fold.shapes + length shapes ≤ 16
        → IsValidFold (extended_fold fold (kinds_of added) shapes) (columns ++ added) base_len }
{}

/// There is one cheapest cover at most. It does nothing.
pub fn covers_are_determined()
    ensures { (numbers texts : ℕ) (shapes other : List Shape) → IsCover numbers texts shapes → IsCover numbers texts other → shapes ≡ other }
{}

/// The list that is defined as the cover is the cheapest cover. It does nothing.
pub fn each_cover_is_one()
    ensures { (numbers texts : ℕ) → IsCover numbers texts (cover_of numbers texts) }
{}

/// Each chunk of the cover of some columns gets a column, and each column a place. It does nothing.
pub fn covers_are_filled()
    ensures { (kinds : List FieldKind) (shapes : List Shape) → IsCover (count_by (same_sort Int) kinds) (count_by (same_sort (Text 120)) kinds) shapes → FillShapes kinds shapes }
{}
