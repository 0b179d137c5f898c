ghost use Rattle.std.specs.Prelude.{◌≡◌, ◌+◌, ◌-◌, ◌*◌, ◌<◌, ◌≤◌, length, IfOk};
ghost use Rattle.mt_fold.specs.Shapes.{price_of};
ghost use Rattle.mt_cover.specs.Steps.{ArePrices, Begins, cost_of, numbers_of, shapes_for, texts_of};

use crate::wanted::{Wanted, shapes};
use mt_fold::{Shape, Shapes};
use mt_list::List;
use std::alloc::{AllocError, Global};

/// What the covers of few columns cost. There is a row for each number of integers, and in it a price
/// for each number of texts that is below the width.
#[derive(Drop)]
pub(crate) struct Prices {
    width: usize,
    prices: Vec<u64>,
}

/// The shape with which a cover begins, and what the cover costs.
#[derive(Clone, Copy)]
struct Start {
    price: u64,
    shape: Shape,
}

impl Prices {
    /// The prices for no more integers and no more texts than these.
    pub(crate) fn up_to(alloc: Global, most: Wanted) -> Result<Prices, AllocError>
        requires few { most.numbers + most.texts ≤ 32 }
        ensures width { IfOk result (λ table. table.width ≡ most.texts + 1) }
        ensures rows { IfOk result (λ table. length table.prices.items ≡ (most.numbers + 1) * table.width) }
        ensures prices { IfOk result (λ table. ArePrices table.width table.prices.items) }
    {
        let width = most.texts + 1;
        let count = (most.numbers + 1) * width;
        let mut prices = Vec::with_capacity(alloc, count)?;
        // nothing costs nothing
        prices.push(0)?;
        let mut table = Prices { width, prices };
        for place in 1..count {
            let start = table.start_of(Wanted {
                numbers: place / width,
                texts: place % width,
            });
            table.prices.push(start.price)?;
        }
        Ok(table)
    }

    /// The cover of so many.
    pub(crate) fn shapes_for(&self, alloc: Global, most: Wanted) -> Result<Shapes, AllocError>
        requires few { most.numbers + most.texts ≤ 32 }
        requires width { self.now.width ≡ most.texts + 1 }
        requires rows { length self.now.prices.items ≡ (most.numbers + 1) * self.now.width }
        requires prices { ArePrices self.now.width self.now.prices.items }
        ensures { IfOk result (λ shapes. shapes ≡ shapes_for most.numbers most.texts) }
    {
        let mut shapes = List::new(alloc);
        let mut wanted = most;
        while !wanted.is_nothing() {
            let start = self.start_of(wanted);
            shapes.push(start.shape)?;
            wanted = wanted.after(start.shape);
        }
        Ok(shapes)
    }

    /// How the cover of so many begins, of which all that are fewer have a price already.
    fn start_of(&self, wanted: Wanted) -> Start
        requires few { wanted.numbers + wanted.texts ≤ 32 }
        requires some { 1 ≤ wanted.numbers + wanted.texts }
        requires width { wanted.texts < self.now.width }
        requires known { wanted.numbers * self.now.width + wanted.texts ≤ length self.now.prices.items }
        requires prices { ArePrices self.now.width self.now.prices.items }
        ensures begins { Begins wanted.numbers wanted.texts result.shape }
        ensures price { result.price ≡ cost_of wanted.numbers wanted.texts }
    {
        let mut best = Start {
            price: u64::MAX,
            shape: Shape::C1,
        };
        for shape in shapes() {
            let price = self.price_with(wanted, shape);
            if price < best.price {
                best = Start { price, shape };
            }
        }
        best
    }

    /// What the cheapest chunks for so many cost of which one has this shape. Where that one has no
    /// field that is wanted, it is the greatest number.
    fn price_with(&self, wanted: Wanted, shape: Shape) -> u64
        requires few { wanted.numbers + wanted.texts ≤ 32 }
        requires width { wanted.texts < self.now.width }
        requires known { wanted.numbers * self.now.width + wanted.texts ≤ length self.now.prices.items }
        requires prices { ArePrices self.now.width self.now.prices.items }
        ensures of_use { wanted.numbers - numbers_of shape + (wanted.texts - texts_of shape) < wanted.numbers + wanted.texts
            → result ≡ price_of shape + cost_of (wanted.numbers - numbers_of shape) (wanted.texts - texts_of shape) }
        ensures no_use { wanted.numbers + wanted.texts ≤ wanted.numbers - numbers_of shape + (wanted.texts - texts_of shape) → result ≡ u64.MAX }
    {
        let rest = wanted.after(shape);
        if rest.is_fewer_than(wanted) {
            shape.price() + self.cost(rest)
        } else {
            u64::MAX
        }
    }

    /// What the cover of so many costs.
    fn cost(&self, wanted: Wanted) -> u64
        requires width { wanted.texts < self.now.width }
        requires known { wanted.numbers * self.now.width + wanted.texts < length self.now.prices.items }
        requires prices { ArePrices self.now.width self.now.prices.items }
        ensures { result ≡ cost_of wanted.numbers wanted.texts }
    {
        self.prices[wanted.numbers * self.width + wanted.texts]
    }
}
