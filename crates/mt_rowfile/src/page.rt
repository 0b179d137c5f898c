ghost use Rattle.std.specs.Prelude.{◌≡◌};
ghost use Rattle.mt_rowfile.specs.Layouts.{IsLayout};
ghost use Rattle.mt_rowfile.specs.Pages.{free_slots};

use crate::layout::{Layout, slot_width, slots_per_page};
use crate::slot::FREE;

/// The bytes in front of the slots of a page.
const PAGE_HEAD: usize = 8;

/// How many slots of the page are free.
pub fn free_slots(layout: &Layout, page: &[u8; 4096]) -> usize
    requires { IsLayout layout.now }
    ensures { result ≡ free_slots layout.now page.now }
{
    let width = slot_width(layout);
    let mut rest = &page[PAGE_HEAD..];
    let mut free = 0;
    let count = slots_per_page(layout);
    for _i in 0..count {
        let (slot, behind) = rest.split_at(width);
        if slot[0] == FREE {
            free += 1;
        }
        rest = behind;
    }
    free
}
