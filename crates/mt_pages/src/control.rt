ghost use Rattle.std.specs.Prelude.{◌≡◌, ◌≤◌, ◌^◌, IfSome, IfNone, IsTrue, ◌↔◌, take, drop, replicate};
ghost use Rattle.mt_journal.specs.Layout.{Area, StandAt};
ghost use Rattle.byteorder.specs.Endian.{little_number};
ghost use Rattle.mt_pages.specs.Control.{IsControl, IsPageZero, control_bytes, magic};
ghost use Rattle.mt_tables.specs.Pages.{page_count};

use byteorder::{ByteOrder, LittleEndian};

/// How many bytes of page 0 are read.
pub(crate) const CONTROL_SIZE: usize = 20;

const MAGIC: [u8; 8] = *b"CHNKFLD1";

const VERSION: u32 = 1;

/// The most pages that there are.
const PAGES_MAX: u64 = 1 << 28;

/// The count of pages that the first bytes of page 0 say; `None` where page 0 is damaged.
pub(crate) fn count_in(bytes: &[u8; CONTROL_SIZE]) -> Option<u64>
    ensures some { IfSome result (λ count. (pages : Area) → StandAt pages 0 bytes.now → IsPageZero pages × (page_count pages ≡ count)) }
    ensures bounds { IfSome result (λ count. (1 ≤ count) × (count ≤ 2 ^ 28)) }
    ensures none { IfNone result ((pages : Area) → StandAt pages 0 bytes.now → IsPageZero pages → ⊥) }
{
    if is_blank(bytes) {
        return Some(1);
    }
    counted(bytes)
}

/// Whether nothing was written there.
fn is_blank(bytes: &[u8; CONTROL_SIZE]) -> bool
    ensures { IsTrue result ↔ (bytes.now ≡ replicate 20 0) }
{
    *bytes == [0; CONTROL_SIZE]
}

/// The count behind the magic bytes and the version, from 1 to 2^28.
fn counted(bytes: &[u8; CONTROL_SIZE]) -> Option<u64>
    ensures some { IfSome result (λ count. (pages : Area) → StandAt pages 0 bytes.now → IsControl pages × (page_count pages ≡ count)) }
    ensures bounds { IfSome result (λ count. (1 ≤ count) × (count ≤ 2 ^ 28)) }
    ensures none { IfNone result ((pages : Area) → StandAt pages 0 bytes.now → IsControl pages → ⊥) }
{
    let count = number(bytes);
    if has_magic(bytes) && version(bytes) == VERSION && is_count(count) {
        Some(count)
    } else {
        None
    }
}

/// Whether the magic bytes come first.
#[tactic(auto, unfolding(crate::specs::Control::magic))]
fn has_magic(bytes: &[u8; CONTROL_SIZE]) -> bool
    ensures { IsTrue result ↔ (take 8 bytes.now ≡ magic) }
{
    &bytes[..8] == MAGIC.as_slice()
}

/// The version behind them.
fn version(bytes: &[u8; CONTROL_SIZE]) -> u32
    ensures { result ≡ little_number 4 (drop 8 bytes.now) }
{
    LittleEndian::read_u32(&bytes[8..])
}

/// The number behind the version.
fn number(bytes: &[u8; CONTROL_SIZE]) -> u64
    ensures { result ≡ little_number 8 (drop 12 bytes.now) }
{
    LittleEndian::read_u64(&bytes[12..])
}

/// Whether there may be so many pages.
fn is_count(count: u64) -> bool
    ensures { IsTrue result ↔ ((1 ≤ count) × (count ≤ 2 ^ 28)) }
{
    1 <= count && count <= PAGES_MAX
}

/// The first bytes of page 0 where so many pages count.
#[tactic(auto, unfolding(crate::specs::Control::magic))]
pub(crate) fn control_bytes(count: u64) -> [u8; CONTROL_SIZE]
    ensures { result ≡ control_bytes count }
{
    let mut bytes = [0; CONTROL_SIZE];
    let (front, rest) = bytes.split_at_mut(8);
    front.copy_from_slice(&MAGIC);
    let (version, number) = rest.split_at_mut(4);
    LittleEndian::write_u32(version, VERSION);
    LittleEndian::write_u64(number, count);
    bytes
}
