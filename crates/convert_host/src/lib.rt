// The converter with C linkage. A library of its own: a second caller of the reader would make it slower (docs/DECISIONS.md).
#![tactic(auto)]

ghost use Rattle.std.specs.Prelude.{◌≡◌};
ghost use Rattle.strip.specs.Entry.{layout_numbered};
ghost use Rattle.convert_host.specs.Converted.{returns, convert_answer};

use convert::convert;
use strip::Layout;

// A run in the layout of this number becomes one in the other layout, at the start of out, its length in `written`. 0 where it was converted; 7 where the
// run is not well-formed, and for no layout, then 6 where out is too short; a refusal leaves `written` and out as they were.
#[unsafe(no_mangle)]
pub extern "C" fn mehkura_convert(
    run: &[u8],
    layout: u32,
    out: &mut [u8],
    written: &mut usize,
) -> u32
    ensures { returns result written.new out.new ≡ convert_answer (layout_numbered layout) run.now out.old written.old }
{
    let Ok(l) = Layout::try_from(layout) else {
        return 7;
    };
    match convert(run, l, out) {
        Ok(n) => {
            *written = n;
            0
        }
        Err(r) => u32::from(r),
    }
}
