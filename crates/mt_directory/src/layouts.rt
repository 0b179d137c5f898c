ghost use Rattle.std.specs.Prelude.{◌≡◌, ℕ, ◌<◌, ◌≤◌, length, get_or, option_map, IfOk, IfSome};
ghost use Rattle.mt_rowfile.specs.declared.layout.Head.TheVariants.{Conventional};
ghost use Rattle.mt_rowfile.specs.Layouts.{IsLayout};
ghost use Rattle.mt_tables.specs.Rows.{AreKnown, layout_of};
ghost use Rattle.mt_directory.specs.Known.{known_in, with_layout};

use mt_list::List;
use mt_rowfile::{Head, Layout, chunk_layout};
use std::alloc::{AllocError, Global};
use std::marker::Model;

/// The physical tables have numbers below this one.
const TABLES: usize = 32;

/// The layouts that are known, which contracts see as those of conventional tables: the chunk tables
/// and the tables of the catalogue have theirs from the start.
#[derive(Debug, Drop)]
pub struct Layouts {
    // by table, from 0 to 31
    each: Vec<Option<Layout>>,
}

impl Model for Layouts {
    ghost use Rattle.std.specs.Prelude.{List, Option};
    ghost use Rattle.mt_rowfile.specs.declared.layout.Layout.{Layout};
    ghost use Rattle.mt_directory.specs.Known.{AreLayouts};

    ghost Value = { List (Option Layout) };

    ghost view = { λ it. it.each.items };

    ghost invariant = { λ it. AreLayouts it.each.items };
}

impl Layouts {
    /// Those of the chunk tables and of the catalogue. `AllocError` is want of memory.
    pub fn new(alloc: Global) -> Result<Layouts, AllocError>
        ensures { IfOk result (λ layouts. known_in layouts ≡ (λ table. None)) }
    {
        let each = first_layouts(alloc)?;
        Ok(Layouts { each })
    }

    /// The layout of a table, where it is known.
    pub fn get(&self, table: u32) -> Option<&Layout>
        ensures layout { option_map (λ layout. layout.now) result ≡ layout_of (known_in self.now) table }
        ensures sound { IfSome result (λ layout. IsLayout layout.now) }
        ensures known { AreKnown (known_in self.now) }
    {
        match self.each.get(table as usize) {
            Some(Some(layout)) => Some(layout),
            _ => None,
        }
    }

    /// Makes the layout of a conventional table known, in the place of one that was. It takes no
    /// memory.
    pub fn set(&mut self, table: u32, layout: Layout)
        requires from { 16 ≤ table }
        requires upto { table ≤ 31 }
        requires head { layout.head ≡ Conventional }
        requires sound { IsLayout layout }
        ensures known { known_in self.new ≡ with_layout table layout (known_in self.old) }
        ensures each { (t : ℕ) → known_in self.new t ≡ with_layout table layout (known_in self.old) t }
    {
        self.each[table as usize] = Some(layout);
    }
}

// The layout that a table has while none of a conventional table is known.
fn first_layout(alloc: Global, table: u32) -> Result<Option<Layout>, AllocError>
    ensures { IfOk result (λ layout. layout ≡ layout_of (λ t. None) table) }
{
    match table {
        1..=6 => Ok(Some(chunk_layout(alloc, table)?)),
        8..=13 => Ok(Some(Layout {
            head: Head::Catalogue(table as u8),
            kinds: List::new(alloc),
        })),
        _ => Ok(None),
    }
}

// The layouts of all tables while none of a conventional table is known.
fn first_layouts(alloc: Global) -> Result<Vec<Option<Layout>>, AllocError>
    ensures size { IfOk result (λ each. length each.items ≡ 32) }
    ensures each { IfOk result (λ each. (t : ℕ) → t < 32 → get_or each.items t None ≡ layout_of (λ table. None) t) }
{
    let mut each = Vec::with_capacity(alloc, TABLES)?;
    for table in 0..TABLES {
        each.push(first_layout(alloc, table as u32)?)?;
    }
    Ok(each)
}
