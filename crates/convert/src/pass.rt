// A pass over a run, entry by entry: to test and measure it, or to write it in the other layout. One loop for both, so that the reader has one caller:
// with two loops it is called, and not built in, and converting takes half as long again.
ghost use Rattle.std.specs.Prelude.{◌≡◌, true, ◌+◌, ◌≤◌, length};
ghost use Rattle.strip.specs.Format.{format_of};
ghost use Rattle.strip.specs.Entry.{ref_length, kind_of, body_of, encode};
ghost use Rattle.strip.specs.Shape.{shape_ok};
ghost use Rattle.strip.specs.Pass.{Ready};
ghost use Rattle.convert.specs.Convert.{converted};
ghost use Rattle.convert.specs.Pass.{Turns, Passes};

use strip::{Entry, Layout, Shape};

// An entry is tested or, where the run was tested, written.
fn turn(g: Shape, to: Layout, out: &mut [u8], at: usize, writing: bool, e: Entry) -> Shape
    requires { Ready g × ((format_of (kind_of e)).body ≡ body_of e) × (writing ≡ true → at + length (encode (ref_length to) e) ≤ length out.old) }
    ensures { Turns (ref_length to) g writing e out.old at out.new result }
{
    if writing {
        strip::put_entry(out, to, at, e);
        return g;
    }
    g.entry(e)
}

// How many bytes the run takes in the other layout, or none where it is not well-formed.
// Kept: a flag says which step to run, and not a closure: with a loop for each step the reader has two callers (docs/DECISIONS.md, The converter).
pub fn pass(run: &[u8], from: Layout, to: Layout, out: &mut [u8], writing: bool) -> Option<usize>
    requires { writing ≡ true → (shape_ok (ref_length from) run.now ≡ true) × (length (converted (ref_length from) (ref_length to) run.now) ≤ length out.old) }
    ensures { Passes (ref_length from) (ref_length to) run.now writing out.old out.new result }
{
    let mut g = Shape::new();
    let mut rest = run;
    let mut at = 0;
    while !rest.is_empty() {
        let Some((e, n)) = strip::read_entry(rest, from) else {
            return None;
        };
        let next = at + strip::entry_length(to, e);
        g = turn(g, to, out, at, writing, e);
        if g.left == 0 {
            return None;
        }
        at = next;
        rest = &rest[n..];
    }
    if g.left == 64 {
        return Some(at);
    }
    None
}
