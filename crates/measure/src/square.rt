ghost use Rattle.std.specs.Prelude.{◌≡◌, ◌*◌, ◌<◌, ◌≤◌, length, ⊤, IsTrue, ◌↔◌, MatchOption, slice_index_or, slice_set};
ghost use Rattle.std.specs.Bool.{OnTrue, OnFalse};
ghost use Rattle.measure.specs.Squares.{HasCell, HasRow, cell_of, row_of, in_square};

use std::alloc::AllocError;

// The place of the pair in a list of so many cells, if the pair and the list have one.
fn place(side: usize, cells: usize, row: usize, column: usize) -> Option<usize>
    ensures { MatchOption result (HasCell side cells row column → ⊥)
        (λ k. HasCell side cells row column × (k ≡ cell_of side row column)) }
{
    if row >= side || column >= side {
        return None;
    }
    let cell = row.checked_mul(side)?.checked_add(column)?;
    if cell < cells { Some(cell) } else { None }
}

/// One value for every ordered pair (row, column) of numbers below the side, to be read.
/// The values lie in a list, row by row; it may be longer than the square.
pub struct Square<'a, V> {
    pub side: usize,
    pub cells: &'a [V],
}

// Not derived: a derive would ask that the values are `Copy`.
impl<'a, V> Clone for Square<'a, V> {
    ghost is_clone = { λ x y. y ≡ x };

    ghost is_infallible = { λ _. ⊤ };

    fn clone(&self) -> Result<Square<'a, V>, AllocError> {
        Ok(*self)
    }
}

impl<'a, V> Copy for Square<'a, V> {}

impl<'a, V> Square<'a, V> {
    /// A square of this side, in this list.
    pub fn new(side: usize, cells: &'a [V]) -> Square<'a, V>
        ensures side { result.side ≡ side }
        ensures cells { result.cells.now ≡ cells.now }
    {
        Square { side, cells }
    }

    /// Whether the list has all cells of the square.
    pub fn fits(&self) -> bool
        ensures { IsTrue result ↔ (self.now.side * self.now.side ≤ length self.now.cells.now) }
    {
        match self.side.checked_mul(self.side) {
            Some(all) => all <= self.cells.len(),
            None => false,
        }
    }

    /// The values of a row; none if there is no such row, or the list lacks part of it.
    pub fn row(&self, row: usize) -> Option<&'a [V]>
        ensures { let all = self.now.cells.now in
            MatchOption result (HasRow self.now.side all row → ⊥)
            (λ part. HasRow self.now.side all row × (part.now ≡ row_of self.now.side all row)) }
    {
        if row >= self.side {
            return None;
        }
        let start = row.checked_mul(self.side)?;
        let end = start.checked_add(self.side)?;
        if end <= self.cells.len() {
            Some(&self.cells[start..end])
        } else {
            None
        }
    }
}

impl<'a, V: Copy> Square<'a, V> {
    /// The value of the pair; none if the pair has no cell, or the list lacks it.
    pub fn get(&self, row: usize, column: usize) -> Option<V>
        ensures { let cells = length self.now.cells.now in
            MatchOption result (HasCell self.now.side cells row column → ⊥)
            (λ v. HasCell self.now.side cells row column
            × ((d : V) → v ≡ in_square d self.now.side self.now.cells.now row column)) }
    {
        let cell = place(self.side, self.cells.len(), row, column)?;
        Some(self.cells[cell])
    }

    // The value of a pair of relays.
    pub(crate) fn entry(&self, row: usize, column: usize) -> V
        requires small { self.now.side ≤ 256 }
        requires full { self.now.side * self.now.side ≤ length self.now.cells.now }
        requires row { row < self.now.side }
        requires column { column < self.now.side }
        ensures { (d : V) → result ≡ in_square d self.now.side self.now.cells.now row column }
    {
        self.cells[row * self.side + column]
    }
}

/// The same, to be written, for programs that keep a square of their own:
/// `measure` fills whole rows, and so cuts them as slices.
#[derive(Drop)]
pub struct SquareMut<'a, V> {
    pub side: usize,
    pub cells: &'a mut [V],
}

impl<'a, V> SquareMut<'a, V> {
    /// A square of this side, in this list.
    pub fn new(side: usize, cells: &'a mut [V]) -> SquareMut<'a, V>
        ensures lent { result.cells.ghost_name ≡ cells.entry.ghost_name }
        ensures side { result.side ≡ side }
        ensures cells { result.cells.now ≡ cells.old }
    {
        SquareMut { side, cells }
    }

    /// The square, to be read.
    pub fn view(&self) -> Square<V>
        ensures side { result.side ≡ self.now.side }
        ensures cells { result.cells.now ≡ self.now.cells.now }
    {
        Square {
            side: self.side,
            cells: self.cells,
        }
    }

    /// Gives the pair this value, and says whether it has a cell; if not, nothing changes.
    pub fn set(&mut self, row: usize, column: usize, value: V) -> bool
    where
        V: Drop,
        ensures lent { self.new.cells.ghost_name ≡ self.old.cells.ghost_name }
        ensures side { self.new.side ≡ self.old.side }
        ensures told { IsTrue result
            ↔ HasCell self.old.side (length self.old.cells.now) row column }
        ensures written { OnTrue result (self.new.cells.now
            ≡ slice_set self.old.cells.now (cell_of self.old.side row column) value) }
        ensures unchanged { OnFalse result (self.new.cells.now ≡ self.old.cells.now) }
    {
        match place(self.side, self.cells.len(), row, column) {
            Some(cell) => {
                self.cells[cell] = value;
                true
            }
            None => false,
        }
    }
}
