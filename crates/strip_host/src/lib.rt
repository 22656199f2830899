// The shape test with C linkage. A library of its own: a second caller of the reader would make it slower (docs/DECISIONS.md).
#![tactic(auto)]

ghost use Rattle.std.specs.Prelude.{◌≡◌};
ghost use Rattle.strip.specs.Entry.{layout_numbered};
ghost use Rattle.strip.specs.Shape.{shape_answer};

use strip::Layout;

// Whether a run of strips is well-formed in the layout of this number: 0, or 7 where it is not.
#[unsafe(no_mangle)]
pub extern "C" fn mehkura_shape(run: &[u8], layout: u32) -> u32
    ensures { result ≡ shape_answer (layout_numbered layout) run.now }
{
    let Ok(l) = Layout::try_from(layout) else {
        return 7;
    };
    if strip::shape_ok(run, l) { 0 } else { 7 }
}
