// Reach, on cells in 298 bytes.
ghost use Rattle.std.specs.Prelude.{◌≡◌, length};
ghost use Rattle.host.specs.Cells.{cells_in, cell_bytes, returns, reach_answer};

use reach::{Cells, Refusal};
use truth_bytes::{read_truths, write_truths};

// The cells that bytes list.
fn read_cells(bytes: &[u8]) -> Cells
    requires { length bytes.now ≡ 298 }
    ensures { result ≡ cells_in bytes.now }
{
    let mut cells = Cells {
        regs: [false; 255],
        preds: [false; 7],
        flags: [false; 4],
        slots: [false; 32],
    };
    read_truths(bytes, 0, &mut cells.regs);
    read_truths(bytes, 255, &mut cells.preds);
    read_truths(bytes, 262, &mut cells.flags);
    read_truths(bytes, 266, &mut cells.slots);
    cells
}

// Cells into bytes.
fn write_cells(c: &Cells, bytes: &mut [u8])
    requires { length bytes.old ≡ 298 }
    ensures { bytes.new ≡ cell_bytes c.now }
{
    write_truths(&c.regs, bytes, 0);
    write_truths(&c.preds, bytes, 255);
    write_truths(&c.flags, bytes, 262);
    write_truths(&c.slots, bytes, 266);
}

// The cells at the start of a run that can matter to the listed ones at its end, in place: 255 registers, 7 predicates, the flags Z, S, C, O and 32
// constant slots, a byte each (nonzero is listed, answered as 1). 0 where the rule answers; 7 where the run is not well-formed, and for another
// length of cells; a refusal leaves the bytes as they were.
#[unsafe(no_mangle)]
pub extern "C" fn mehkura_reach(run: &[u8], cells: &mut [u8]) -> u32
    ensures { returns result cells.new ≡ reach_answer run.now cells.old }
{
    if cells.len() != 298 {
        return u32::from(Refusal::BadShape);
    }
    let r = reach::reach(run, read_cells(cells));
    match r.outcome {
        Ok(()) => {
            write_cells(&r.cells, cells);
            0
        }
        Err(refusal) => u32::from(refusal),
    }
}
