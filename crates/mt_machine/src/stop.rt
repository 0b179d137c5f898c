ghost use Rattle.std.specs.Prelude.{◌≡◌, ◌+◌, ◌-◌, ◌≤◌, length, take, reverse, IfOk, OnOk};
ghost use Rattle.mt_machine.specs.Image.{image_disk};
ghost use Rattle.mt_machine.specs.Run.{filled_by, filled_of, replayed, output_of};
ghost use Rattle.mt_machine.specs.Stops.{SplitsAt, IsStopIn};

use crate::Bytes;
use crate::image::Image;
use crate::step::Step;
use mt_list::List;
use std::alloc::{AllocError, Global};

/// What a stop leaves in each range that was written since the last sync: the newest bytes, or this
/// byte everywhere.
#[derive(Clone, Copy, Debug, PartialEq, Eq)]
pub enum Fill {
    Kept,
    Byte(u8),
}

/// What a stop leaves: the bytes of the two areas, which read zero behind them, and the output by then.
#[derive(Debug, Drop)]
pub struct Stopped {
    pub log: Bytes,
    pub pages: Bytes,
    pub out: Bytes,
}

/// What a stop within a call leaves, the first call being 1, where the steps began with this image.
pub fn stop_in(
    alloc: Global,
    first: &Image,
    steps: &[Step],
    call: usize,
    fill: Fill,
) -> Result<Stopped, AllocError>
    requires from { 1 ≤ call }
    requires to { call ≤ length steps.now }
    ensures { IfOk result (IsStopIn fill (image_disk first.now) steps.now call) }
{
    let before = &steps[..call - 1];
    let mut areas = areas_before(alloc, first, before, fill)?;
    replay_step(&mut areas, &steps[call - 1], fill)?;
    let out = List::from_vec(output_after(alloc, before)?);
    let (log, pages) = areas.into_areas();
    Ok(Stopped { log, pages, out })
}

/// The areas after these steps, with each range filled that was written since the last sync.
fn areas_before(
    alloc: Global,
    first: &Image,
    steps: &[Step],
    fill: Fill,
) -> Result<Image, AllocError>
    ensures { IfOk result (λ areas. image_disk areas ≡ filled_of fill (image_disk first.now) (reverse steps.now)) }
{
    let synced = synced_len(steps);
    let mut areas = first.copy(alloc)?;
    replay(&mut areas, &steps[..synced], Fill::Kept)?;
    replay(&mut areas, &steps[synced..], fill)?;
    Ok(areas)
}

/// How many steps there are up to the last sync.
fn synced_len(steps: &[Step]) -> usize
    ensures { SplitsAt result steps.now }
{
    let mut synced = 0;
    for (i, step) in steps.iter().enumerate() {
        if let Step::Synced = step {
            synced = i + 1;
        }
    }
    synced
}

/// Makes the steps again, with each range filled.
fn replay(areas: &mut Image, steps: &[Step], fill: Fill) -> Result<(), AllocError>
    ensures { OnOk result (image_disk areas.new ≡ replayed fill (image_disk areas.old) (reverse steps.now)) }
{
    for step in steps {
        replay_step(areas, step, fill)?;
    }
    Ok(())
}

/// Makes one step again, with its range filled.
fn replay_step(areas: &mut Image, step: &Step, fill: Fill) -> Result<(), AllocError>
    ensures { OnOk result (image_disk areas.new ≡ filled_by fill step.now (image_disk areas.old)) }
{
    if let Step::Wrote(area, at, bytes, unwritten) = step {
        match fill {
            Fill::Kept => areas.write(*area, *at, bytes.as_slice())?,
            Fill::Byte(byte) => {
                let count = bytes.len().checked_add(*unwritten).ok_or(AllocError)?;
                areas.fill(*area, *at, count, byte)?;
            }
        }
    }
    Ok(())
}

/// What these steps put out.
fn output_after(alloc: Global, steps: &[Step]) -> Result<Vec<u8>, AllocError>
    ensures { IfOk result (λ out. out.items ≡ output_of (reverse steps.now)) }
{
    let mut out = Vec::new(alloc);
    for step in steps {
        if let Step::Emitted(bytes) = step {
            out.extend_from_slice(bytes.as_slice())?;
        }
    }
    Ok(out)
}
