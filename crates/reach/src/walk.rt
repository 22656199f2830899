// The reach of a run, in one pass forwards. The rule of a strip is additive in the listed cells, so the strips so far are a table of rows: what
// they list where one cell alone is asked.
ghost use Rattle.std.specs.Prelude.{◌≡◌, ◌+◌, ◌≤◌, ◌<◌, is_ok, replicate};
ghost use Rattle.reach.specs.Reach.{answer_of, reach_answer};
ghost use Rattle.reach.specs.Rows.{Passed, RowSteps, cell_number, load_place, store_place, empty_summary, with_stored, rows_ended};

use crate::cells::{Cells, Reached, Refusal};
use crate::rows::Rows;
use strip::{Entry, Layout, Shape};

// The number of cell n of those from first on; 298 where it is out of their range.
// Kept: 298, the number of the row that collects, is no cell's. As an Option it would stand in the list of the stored cells too, and be asked
// for again at the strip's end.
fn cell_number(n: u8, limit: u8, first: usize) -> usize
    requires { first + limit ≤ 298 }
    ensures { result ≡ cell_number n limit first }
{
    if n < limit {
        first + usize::from(n)
    } else {
        298
    }
}

// Of the cell that an entry loads; a note loads none.
fn load_place(k: u8, n: u8) -> usize
    ensures { result ≡ load_place k n }
{
    match k {
        4 => cell_number(n, 255, 0),
        5 => cell_number(n, 7, 255),
        10 => cell_number(n, 32, 266),
        110 => 298,
        _ => cell_number(n, 4, 262),
    }
}

// Of the cell that an entry stores.
fn store_place(k: u8, n: u8) -> usize
    ensures { result ≡ store_place k n }
{
    match k {
        7 => cell_number(n, 255, 0),
        8 => cell_number(n, 7, 255),
        _ => cell_number(n, 4, 262),
    }
}

// Of the strip so far: the cells that it stores, and whether it holds an open.
#[derive(Drop)]
struct StripSummary {
    // Kept: an array and its count: there is no heap.
    stored: [usize; 64],
    count: usize,
    block: bool,
}

impl StripSummary {
    fn new() -> StripSummary
        ensures { result ≡ empty_summary (replicate 64 0) }
    {
        StripSummary {
            stored: [0; 64],
            count: 0,
            block: false,
        }
    }

    fn store(&mut self, c: usize)
        requires { self.old.count < 64 }
        ensures { self.new ≡ with_stored self.old c }
    {
        self.stored[self.count] = c;
        self.count += 1;
    }

    // At the end of the strip the stored cells get what was collected, and a strip begins.
    fn end(&mut self, rows: &mut Rows)
        requires { self.old.count ≤ 64 }
        ensures rows_after { rows.new.words ≡ rows_ended rows.old.words self.old }
        ensures summary_after { self.new ≡ empty_summary self.old.stored }
    {
        rows.store_all(&self.stored[..self.count], self.block);
        rows.wipe(298);
        self.count = 0;
        self.block = false;
    }

    // An entry that was read.
    fn step(&mut self, e: Entry, rows: &mut Rows)
        requires { self.old.count < 64 }
        ensures { RowSteps rows.old.words self.old e rows.new.words self.new }
    {
        match e {
            Entry::Bare(k) => {
                if k == 255 {
                    self.end(rows);
                }
            }
            Entry::Cell(k, n) => rows.load(load_place(k, n)),
            Entry::Store(k, n, _) => self.store(store_place(k, n)),
            Entry::One(k, _) => self.block |= k == 100,
            Entry::Word(_) | Entry::Two(..) | Entry::Three(..) | Entry::Four(..) => {}
        }
    }
}

// The strips of a run, each entry after its step of the shape test.
// Kept: a loop of its own over the entries. With one loop for several the reader has a second caller, and is called and not built in (docs/DECISIONS.md).
fn pass(run: &[u8], rows: &mut Rows) -> Result<(), Refusal>
    requires { rows.old.words ≡ replicate 1500 0 }
    ensures { Passed rows.new.words run.now (is_ok result) }
{
    let mut s = StripSummary::new();
    let mut g = Shape::new();
    let mut at = 0;
    while at < run.len() {
        let Some((e, n)) = strip::read_entry(&run[at..], Layout::Wide) else {
            return Err(Refusal::BadShape);
        };
        g = g.entry(e);
        if g.left == 0 {
            return Err(Refusal::BadShape);
        }
        s.step(e, rows);
        at += n;
    }
    if g.left == 64 {
        Ok(())
    } else {
        Err(Refusal::BadShape)
    }
}

// The cells at the start of a run that can matter to the asked ones at its end. A run that is not well-formed is refused, with the asked cells.
pub fn reach(run: &[u8], asked: Cells) -> Reached
    ensures { answer_of result ≡ reach_answer run.now asked }
{
    let mut rows = Rows::new();
    let mut cells = asked;
    let outcome = pass(run, &mut rows);
    if outcome.is_ok() {
        rows.collect(&asked);
        rows.list(&mut cells);
    }
    Reached { cells, outcome }
}
