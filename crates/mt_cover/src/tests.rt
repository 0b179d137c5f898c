use crate::cover;
use mt_fold::Shape;
use mt_fold::Shape::{C1, C2, C3, C4, C5, C6};
use std::test::Fail;

/// How many integers and texts, the cover of these, and what it costs.
type Case = (u32, u32, &'static [Shape], u64);

/// By the prices 94, 208, 217, 121, 349 and 613. Those of more than eight columns were found by a
/// search through all lists, apart from this code.
const CASES: [Case; 24] = [
    (0, 0, &[], 0),
    (1, 0, &[C1], 94),
    (0, 1, &[C2], 208),
    // 217, and in two chunks 302
    (1, 1, &[C3], 217),
    // 121, and in two chunks 188
    (2, 0, &[C4], 121),
    (4, 0, &[C4], 121),
    (5, 0, &[C1, C4], 215),
    (6, 0, &[C4, C4], 242),
    // 349, and in two chunks 416
    (0, 2, &[C5], 349),
    (2, 2, &[C5], 349),
    // 311; one of four integers and a text cost 329, and one of two of each 349
    (2, 1, &[C1, C3], 311),
    // 329; two of one integer and one of each 405
    (3, 1, &[C2, C4], 329),
    (4, 1, &[C2, C4], 329),
    // 338; one of one, one of four and a text 423
    (5, 1, &[C3, C4], 338),
    // 613; one of each, two of each and an integer 660
    (4, 3, &[C6], 613),
    (3, 3, &[C3, C5], 566),
    (7, 5, &[C2, C4, C6], 942),
    (8, 8, &[C6, C6], 1_226),
    (17, 15, &[C2, C4, C5, C6, C6, C6], 2_517),
    (31, 1, &[C2, C4, C4, C4, C4, C4, C4, C4, C4], 1_176),
    (1, 31, &[C2, C5, C6, C6, C6, C6, C6, C6, C6], 4_848),
    (32, 0, &[C4; 8], 968),
    (0, 32, &[C6; 8], 4_904),
    (16, 16, &[C6; 4], 2_452),
];

#[test]
fn covers_are_the_cheapest(rt: HostRuntime) -> Result<(), Fail> {
    let alloc = rt.alloc();
    for (numbers, texts, wanted, cost) in CASES {
        let shapes = cover(alloc, numbers, texts)?;
        assert_eq!(rt; shapes.as_slice(), wanted, "{numbers} and {texts}");
        let mut price: u64 = 0;
        for shape in wanted {
            price = price.saturating_add(shape.price());
        }
        assert_eq!(rt; price, cost, "{numbers} and {texts}");
    }
    Ok(())
}
