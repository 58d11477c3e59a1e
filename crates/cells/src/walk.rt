//! Walks over the cells.
ghost use Rattle.std.specs.Prelude.{◌≡◌, ◌-◌, ◌^◌, ◌<◌, ◌≤◌, ◌++◌, drop, length, replicate};
ghost use Rattle.cells.specs.Cells.{Raised, besides, cell, decoded};
ghost use Rattle.kinds.specs.Totals.{total};

use crate::span::{power, span};
use kinds::Reckoned;
use runs::Place;

// The cell of a place.
pub(crate) fn cell_of<K: Reckoned>(cells: &[K], place: Place) -> K
    requires { place.number ≤ length cells.now }
    ensures { result ≡ cell K.Reckoned.own cells.now place.number }
{
    cells[place.index()]
}

// What the cell of a place holds, or is to hold, besides the entry there.
pub(crate) fn others<K: Reckoned>(cells: &[K], place: Place) -> K
    requires { place.number - 1 ≤ length cells.now }
    ensures { result ≡ besides K.Reckoned.own cells.now place.number }
{
    let mut sum = K::zero();
    // t is an exponent, and no index of anything
    for t in 0..place.number.trailing_zeros() {
        let before = Place {
            number: place.number - power(t),
        };
        sum = sum.join(cell_of(cells, before));
    }
    sum
}

// The join of all the entries that the cells stand for.
pub(crate) fn joined<K: Reckoned>(cells: &[K]) -> K
    requires { length cells.now < 2 ^ 32 }
    ensures { result ≡ total K.Reckoned.own (decoded K.Reckoned.own cells.now (length cells.now)) }
{
    let mut sum = K::zero();
    // no index counted: each place is where the reach of the last one ends
    let mut left = cells.len() as u32;
    while left > 0 {
        let place = Place { number: left };
        sum = cell_of(cells, place).join(sum);
        left -= span(place);
    }
    sum
}

// Joins an amount to each cell that has the entry of a place, of the first so many. The cells are the
// whole table and not a slice cut to those: what is past them is in the promise too.
pub(crate) fn raise<K: Reckoned>(cells: &mut [K], count: u32, place: Place, amount: K)
    requires last { count ≤ length cells.old }
    requires few { count ≤ 1_048_576 }
    ensures { Raised K.Reckoned.own cells.old cells.new count place.number amount }
{
    // no index counted: each place is the next cell that has the entry
    let mut above = place.number;
    while above <= count {
        let having = Place { number: above };
        cells[having.index()] = cell_of(cells, having).join(amount);
        above += span(having);
    }
}

// Sets the first so many cells of a whole table to zero, as `raise` takes one.
pub(crate) fn clear<K: Reckoned>(cells: &mut [K], count: usize)
    requires { count ≤ length cells.old }
    ensures { cells.new ≡ replicate count K.zero ++ drop count cells.old }
{
    for cell in &mut cells[..count] {
        *cell = K::zero();
    }
}
