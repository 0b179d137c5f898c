ghost use Rattle.std.specs.Prelude.{◌≡◌, ℕ, ◌++◌, List, [], length, map, All, None, Some, option_map, slice_get, sum_by};
ghost use Rattle.std.specs.List.{range_with_len};
ghost use Rattle.std.specs.FinMap as finite;
ghost use Rattle.mt_value.specs.declared.value.Value.{Value};
ghost use Rattle.mt_tree.specs.declared.command.AdminCmd.{AdminCmd};
ghost use Rattle.mt_tree.specs.declared.schema.Column.{Column};
ghost use Rattle.mt_tree.specs.declared.row.MarkedRow.{MarkedRow};
ghost use Rattle.mt_tree.specs.declared.row.TableContent.{TableContent};
ghost use Rattle.mt_tree.specs.Rows.{AreSound, with_row};
ghost use Rattle.mt_catalog.specs.Rules.{IsPlain};
ghost use Rattle.mt_catalog.specs.State.{State, empty_state};
ghost use Rattle.mt_schema.specs.Refusals.{step_refusal};
ghost use Rattle.mt_schema.specs.Steps.{stepped};
ghost use Rattle.mt_model.specs.Command.{applied, command_refusal};
ghost use Rattle.mt_model.specs.Database.{with_nulls};
ghost use Rattle.mt_model.specs.Parts.{ConsistsOf, KeptRows, database_of, made_one, named_tenant, rows_after, rows_inserted, with_content};
ghost use Rattle.mt_model.specs.Service.{Service, Tenant, empty_service, kept_of, put_database};

/// The service at first has an empty catalogue and no row.
pub fn empty_services_have_no_parts()
    ensures { ConsistsOf empty_service empty_state (λ tenant base. []) }
{}

/// A schema step that is not refused makes of the catalogue and the rows what it makes of them alone.
pub fn schema_steps_keep_the_parts()
    ensures { (service : Service) (state : State) (rows : KeptRows) (command : AdminCmd) → ConsistsOf service state rows → command_refusal service command ≡ None
        → ConsistsOf (applied service command) (stepped state command) (rows_after state command rows) }
{}

/// A row that is inserted into a tenant's table is one more that the catalogue counts, and one more of
/// the rows.
pub fn inserted_rows_are_parts()
    ensures { (service : Service) (state : State) (rows : KeptRows) (number base : ℕ) (tenant : Tenant) (content : TableContent) (values : List Value)
        → ConsistsOf service state rows → finite.get service.tenants number ≡ Some tenant → slice_get tenant.database.current base ≡ Some content
        → ConsistsOf (put_database service number (Some (with_content tenant.database base (with_row content values)))) (made_one state number base) (rows_inserted rows number base values) }
{}

/// What a service consists of tells each tenant's database, how many rows are kept of it, and why a
/// command is refused.
pub fn parts_tell_the_service()
    ensures databases { (service : Service) (state : State) (rows : KeptRows) (number : ℕ) → ConsistsOf service state rows
        → option_map (λ tenant. tenant.database) (finite.get service.tenants number) ≡ option_map (database_of (rows number)) (finite.get state.tenants number) }
    ensures kept { (service : Service) (state : State) (rows : KeptRows) (number : ℕ) → ConsistsOf service state rows
        → kept_of service number ≡ sum_by (λ base. length (rows number base)) (range_with_len 0 (length state.bases)) }
    ensures refusals { (service : Service) (state : State) (rows : KeptRows) (command : AdminCmd) (kept : ℕ) → ConsistsOf service state rows → kept ≡ kept_of service (named_tenant command)
        → command_refusal service command ≡ step_refusal state (λ tenant. kept) command }
{}

/// Rows that are sound stay so where each has NULL behind it for the columns of an extension.
pub fn extended_rows_are_sound()
    ensures { (columns added : List Column) (rows : List MarkedRow) → All (λ row. length row.values ≡ length columns) rows → All IsPlain added
        → AreSound columns rows → AreSound (columns ++ added) (map (with_nulls (length added)) rows) }
{}
