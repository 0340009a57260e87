// The table of numerators: a cell for each pair of pieces, in the scratch that is lent.
ghost use Rattle.std.specs.Prelude.{◌≤◌, length};
ghost use Rattle.numerator.specs.Places.{room_of};

// The scratch as a square: the cells of the first piece with each, those of the second, and so on.
#[derive(Drop)]
pub(crate) struct Table<'s> {
    cells: &'s mut [u64],
    pieces: usize,
    ghost few: { pieces ≤ 64 },
    ghost room: { room_of pieces ≤ length cells.now },
}

impl<'s> Table<'s> {
    ghost use Rattle.std.specs.Prelude.{◌≡◌, ◌&&◌, ◌==◌};
    ghost use Rattle.numerator.specs.Cells.{PlaceSays, cell, Wrote};

    // The table of so many pieces, which holds what the scratch held.
    pub(crate) fn new(scratch: &'s mut [u64], pieces: usize) -> Table<'s>
        requires few { pieces ≤ 64 }
        requires room { room_of pieces ≤ length scratch.old }
        ensures pieces { result.pieces ≡ pieces }
        ensures cells { result.cells.now ≡ scratch.old }
    {
        Table {
            cells: scratch,
            pieces,
        }
    }

    // Where the cell of the pair u, w lies, and nowhere past the table.
    fn place(&self, u: usize, w: usize) -> Option<usize>
        ensures { PlaceSays self.now u w result }
    {
        if u < self.pieces && w < self.pieces {
            Some(u * self.pieces + w)
        } else {
            None
        }
    }

    // What the cell of the pair u, w holds, and 0 past the table.
    pub(crate) fn get(&self, u: usize, w: usize) -> u64
        ensures { result ≡ cell self.now u w }
    {
        match self.place(u, w) {
            Some(place) => self.cells[place],
            None => 0,
        }
    }

    // Writes the cell of the pair u, w; nothing changes past the table.
    pub(crate) fn set(&mut self, u: usize, w: usize, value: u64)
        ensures { Wrote (λ a b. (u == a) && (w == b)) (λ a b. value) self.old self.new }
    {
        if let Some(place) = self.place(u, w) {
            self.cells[place] = value;
        }
    }
}
