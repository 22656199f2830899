// A table of 300 rows of cells, each five words: a row for each cell by its number; row 298, which collects; and row 299, which says which cells
// have a row. A cell that no strip has stored has none, and lists itself: so the table begins as zeros.
ghost use Rattle.std.specs.Prelude.{◌≡◌, false, cond, ◌&&◌, ℕ, ◌+◌, ◌/◌, ◌%◌, ◌^◌, ◌≤◌, ◌<◌, length, replicate};
ghost use Rattle.reach.specs.Reach.{table};
ghost use Rattle.reach.specs.Rows.{in_row, row_words, put_row, join_row, copy_row, wipe_row, add_cell, owned, rows_loaded, rows_stored, rows_stored_all, gathered, collected, listed_at, listed_cells};

use crate::cells::Cells;

#[derive(Drop)]
pub struct Rows {
    words: [u64; 1500],
}

impl Rows {
    pub fn new() -> Rows
        ensures { result.words ≡ replicate 1500 0 }
    {
        Rows { words: [0; 1500] }
    }

    // Cell d is in the row.
    fn has(&self, row: usize, d: usize) -> bool
        requires { (row < 300) × (d < 298) }
        ensures { result ≡ in_row self.now.words row d }
    {
        (self.words[row * 5 + d / 64] >> (d % 64)) % 2 == 1
    }

    fn row(&self, r: usize) -> [u64; 5]
        requires { r < 300 }
        ensures { result ≡ row_words self.now.words r }
    {
        let at = r * 5;
        [
            self.words[at],
            self.words[at + 1],
            self.words[at + 2],
            self.words[at + 3],
            self.words[at + 4],
        ]
    }

    fn put(&mut self, to: usize, row: [u64; 5])
        requires { to < 300 }
        ensures { self.new.words ≡ put_row self.old.words to row }
    {
        self.words[to * 5..to * 5 + 5].copy_from_slice(&row);
    }

    // A row with what another holds.
    pub fn join(&mut self, to: usize, from: usize)
        requires { (to < 300) × (from < 300) }
        ensures { self.new.words ≡ join_row self.old.words to from }
    {
        let mut row = self.row(to);
        for (i, w) in self.row(from).iter().enumerate() {
            row[i] |= *w;
        }
        self.put(to, row);
    }

    fn copy(&mut self, to: usize, from: usize)
        requires { (to < 300) × (from < 300) }
        ensures { self.new.words ≡ copy_row self.old.words to from }
    {
        self.put(to, self.row(from));
    }

    pub fn wipe(&mut self, to: usize)
        requires { to < 300 }
        ensures { self.new.words ≡ wipe_row self.old.words to }
    {
        self.put(to, [0; 5]);
    }

    // Cell d comes into a row.
    fn add(&mut self, to: usize, d: usize)
        requires { (to < 300) × (d < 298) }
        ensures { self.new.words ≡ add_cell self.old.words to d }
    {
        self.words[to * 5 + d / 64] |= 1 << (d % 64);
    }

    // A row for a cell that has none.
    fn own(&mut self, c: usize)
        requires { c < 298 }
        ensures { self.new.words ≡ owned self.old.words c }
    {
        if !self.has(299, c) {
            self.wipe(c);
            self.add(c, c);
            self.add(299, c);
        }
    }

    // What a loaded cell lists is collected. Number 298 is no cell.
    pub fn load(&mut self, c: usize)
        ensures { self.new.words ≡ rows_loaded self.old.words c }
    {
        if 298 <= c {
            return;
        }
        if self.has(299, c) {
            self.join(298, c);
        } else {
            self.add(298, c);
        }
    }

    // The row of a cell that a strip stores. Number 298 is no cell.
    fn store(&mut self, c: usize, block: bool)
        ensures { self.new.words ≡ rows_stored block self.old.words c }
    {
        if 298 <= c {
            return;
        }
        self.own(c);
        if block {
            self.join(c, 298);
        } else {
            self.copy(c, 298);
        }
    }

    // The rows of the cells that a strip stores.
    pub fn store_all(&mut self, cells: &[usize], block: bool)
        ensures { self.new.words ≡ rows_stored_all block self.old.words cells.now (length cells.now) }
    {
        for c in cells {
            self.store(*c, block);
        }
    }

    // From d up to this number row 299 has no cell.
    fn next(&self, d: usize) -> usize
        requires { d ≤ 298 }
        ensures { (d ≤ result) × ((j : ℕ) → d ≤ j → j < result → in_row self.now.words 299 j ≡ false) }
    {
        let k = d % 64;
        d + low_zeros(self.words[1495 + d / 64] >> k, 64 - k)
    }

    // The row of a cell that is listed, where it has one, is collected.
    fn collect_row(&mut self, c: usize, listed: bool)
        requires { c < 298 }
        ensures { self.new.words ≡ cond (listed && in_row self.old.words 299 c) (join_row self.old.words 298 c) self.old.words }
    {
        if listed && self.has(299, c) {
            self.join(298, c);
        }
    }

    // The rows of the listed cells, collected.
    // Kept: the index jumps to the next cell that has a row, here and in `list_from`. With a `for` over all cells both took 391 ns a reach in
    // plain Rust, with the jumps 74; a whole reach of one strip takes 333.
    fn gather(&mut self, cells: &[bool], first: usize)
        requires { first + length cells.now ≤ 298 }
        ensures { self.new.words ≡ gathered self.old.words cells.now first (length cells.now) }
    {
        let mut i = self.next(first) - first;
        while i < cells.len() {
            self.collect_row(first + i, cells[i]);
            i = self.next(first + i + 1) - first;
        }
    }

    // The rows of the asked cells, collected; row 299 has these cells too.
    pub fn collect(&mut self, asked: &Cells)
        ensures { self.new.words ≡ collected self.old.words asked.now }
    {
        self.gather(&asked.regs, 0);
        self.gather(&asked.preds, 255);
        self.gather(&asked.flags, 262);
        self.gather(&asked.slots, 266);
        self.join(299, 298);
    }

    fn is_listed(&self, d: usize, asked: bool) -> bool
        requires { d < 298 }
        ensures { result ≡ cond (in_row self.now.words 299 d) (in_row self.now.words 298 d) asked }
    {
        if self.has(299, d) {
            self.has(298, d)
        } else {
            asked
        }
    }

    // Which cells are listed in the end, from number first on.
    fn list_from(&self, cells: &mut [bool], first: usize)
        requires { first + length cells.old ≤ 298 }
        ensures { cells.new ≡ table (length cells.old) (listed_at self.now.words first cells.old) }
    {
        let mut i = self.next(first) - first;
        while i < cells.len() {
            cells[i] = self.is_listed(first + i, cells[i]);
            i = self.next(first + i + 1) - first;
        }
    }

    // What is collected, as cells, beside the asked ones that have no row.
    pub fn list(&self, cells: &mut Cells)
        ensures { cells.new ≡ listed_cells self.now.words cells.old }
    {
        self.list_from(&mut cells.regs, 0);
        self.list_from(&mut cells.preds, 255);
        self.list_from(&mut cells.flags, 262);
        self.list_from(&mut cells.slots, 266);
    }
}

// How many of the lowest bits are zero, at most so many.
fn low_zeros(w: u64, most: usize) -> usize
    ensures { (result ≤ most) × ((j : ℕ) → j < result → w / 2 ^ j % 2 ≡ 0) }
{
    most.min(w.trailing_zeros() as usize)
}
