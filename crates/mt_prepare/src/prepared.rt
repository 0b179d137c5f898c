//! A schema step, refused or prepared.
ghost use Rattle.std.specs.Prelude.{◌≡◌, IfOk, Err, Some};
ghost use Rattle.mt_tree.specs.declared.code.Code.{Code as Refusal};
ghost use Rattle.mt_catalog.specs.Rules.{IsCatalogue};
ghost use Rattle.mt_prepare.specs.declared.prepared.StepFault.TheVariants as faults;
ghost use Rattle.mt_prepare.specs.Prepared.{IsPrepared};
ghost use Rattle.mt_schema.specs.Refusals.{step_refusal};
ghost use Rattle.mt_schema.specs.Steps.{IsWellFormed};

use crate::changed::changed_keys;
use crate::steps::stepped;
use mt_catalog::{CatBodies, Catalog};
use mt_schema::{refusal, written};
use mt_tree::{AdminCmd, Code};
use std::alloc::{AllocError, Global};
use thiserror::Error;

/// The slots of the catalogue that a step puts and removes, each as its table, from 8 to 13, and its
/// body. None stands twice, nor in both lists.
#[derive(Debug, Drop)]
pub struct CatRows {
    pub put: CatBodies,
    pub removed: CatBodies,
}

/// A schema step that is not refused, with the catalogue after it.
#[derive(Debug, Drop)]
pub struct Prepared {
    pub next: Catalog,
    pub rows: CatRows,
}

/// Why a schema step is not prepared.
#[derive(Clone, Copy, Debug, PartialEq, Eq, Error)]
pub enum StepFault {
    #[error("refused")]
    Refused(Code),
    #[error("out of memory")]
    Memory,
}

impl From<AllocError> for StepFault {
    ghost use Rattle.std.specs.Prelude.{◌≡◌};
    ghost use Rattle.mt_prepare.specs.declared.prepared.StepFault.TheVariants as faults;

    ghost from_gives = { λ _ fault. fault ≡ faults.Memory };

    fn from(_: AllocError) -> StepFault {
        StepFault::Memory
    }
}

/// Prepares a schema step on a catalogue, where so many rows are kept, visible and trashed, of the
/// tenant that the step names. `Refused` with the first of E42, E40, E41, E43, E44, E45, E61 and E63
/// that holds, `Memory` for want of memory; the catalogue is as before in any case.
pub fn prepare(
    alloc: Global,
    catalog: &Catalog,
    kept: u64,
    step: &AdminCmd,
) -> Result<Prepared, StepFault>
    requires formed { IsWellFormed step.now }
    requires rules { IsCatalogue catalog.now }
    ensures prepared { IfOk result (λ prepared. IsPrepared catalog.now kept step.now prepared) }
    ensures refused { (code : Refusal) → result ≡ Err (faults.Refused code) → step_refusal catalog.now (λ tenant. kept) step.now ≡ Some code }
{
    if let Some(code) = refusal(alloc, catalog, kept, step)? {
        return Err(StepFault::Refused(code));
    }
    let next = stepped(alloc, catalog, step)?;
    let changed = changed_keys(alloc, catalog, step)?;
    let rows = CatRows {
        put: written(alloc, &next, changed.as_slice())?,
        removed: written(alloc, catalog, changed.as_slice())?,
    };
    Ok(Prepared { next, rows })
}

/// Makes a prepared catalogue the value. It takes no memory.
pub fn accept(catalog: &mut Catalog, prepared: Prepared)
    ensures { catalog.new ≡ prepared.next }
{
    *catalog = prepared.next;
}
