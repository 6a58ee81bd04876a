//! The number of the item that begins at a place of the code, found among the items of one block.

ghost use Rattle.std.specs.Prelude.{◌≡◌, ◌≤◌, ◌<◌, ◌^◌, List, length, IfOk};
ghost use Rattle.taint_flow.specs.Places.{Rise, StandInOrder, BeginsNowhereBelow, NumbersItems, FindsItems, number_at};

use code_sweep::{Listing, Placed};
use cv_word::NoMemory;
use std::alloc::Global;
use std::marker::Model;

/// How many bytes of a code have one entry in the table.
const BLOCK: usize = 8;

/// A listing's items, and for each block of the code the number of the first item that begins there.
#[derive(Drop)]
pub struct ItemNumbers<'a> {
    items: &'a [Placed],
    firsts: Vec<u32>,
}

impl<'a> Model for ItemNumbers<'a> {
    ghost use Rattle.std.specs.Prelude.{List};
    ghost use Rattle.code_sweep.specs.declared.item.Placed.{Placed as PlacedItem};
    ghost use Rattle.taint_flow.specs.Places.{FindsItems};

    ghost Value = { List PlacedItem };

    ghost view = { λ t. t.items.now };

    ghost invariant = { λ t. FindsItems t.items.now t.firsts.items };
}

impl<'a> ItemNumbers<'a> {
    /// The number of the item that begins at that place of the code. `None` exactly where none does; past the code's end
    /// none does. It looks at the items of the place's block, and at one behind them at most.
    pub fn at(&self, place: u64) -> Option<u32>
        ensures { result ≡ number_at self.now place }
    {
        if place / BLOCK as u64 >= self.firsts.len() as u64 {
            return None;
        }
        let first = self.firsts[place as usize / BLOCK];
        search_from(self.items, first as usize, place)
    }
}

/// The number of the item that begins at a place, where no item before the first does.
fn search_from(items: &[Placed], first: usize, place: u64) -> Option<u32>
    requires rising { Rise items.now }
    requires limit { length items.now < 2 ^ 32 }
    requires none { BeginsNowhereBelow items.now first place }
    ensures { result ≡ number_at items.now place }
{
    for i in first..items.len() {
        let at = u64::from(items[i].at);
        if at == place {
            return Some(i as u32);
        }
        if at > place {
            return None;
        }
    }
    None
}

/// The numbers of a listing's items, from 0, by their places.
pub fn item_numbers<'a>(
    alloc: Global,
    listing: &'a Listing<'_>,
) -> Result<ItemNumbers<'a>, NoMemory>
    requires order { StandInOrder listing.now.items.items listing.now.code.now }
    requires limit { length listing.now.code.now < 2 ^ 32 }
    ensures { IfOk result (λ table. NumbersItems listing.now.items.items (number_at table)) }
{
    let items = listing.items.as_slice();
    let firsts = first_numbers(alloc, items, listing.code)?;
    Ok(ItemNumbers { items, firsts })
}

/// For each block of a code the number of the first item that begins there, or a larger number than any.
fn first_numbers(alloc: Global, items: &[Placed], code: &[u8]) -> Result<Vec<u32>, NoMemory>
    requires order { StandInOrder items.now code.now }
    requires limit { length code.now < 2 ^ 32 }
    ensures { IfOk result (λ firsts. FindsItems items.now firsts.items) }
{
    let mut firsts = vec![in alloc; u32::MAX; code.len() / BLOCK + 1]?;
    for (i, p) in items.iter().enumerate() {
        let block = p.at as usize / BLOCK;
        firsts[block] = firsts[block].min(i as u32);
    }
    Ok(firsts)
}
