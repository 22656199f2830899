// The shape test block by block with C linkage. A library of its own: a second caller of the reader would make it slower (docs/DECISIONS.md).
#![tactic(auto)]

ghost use Rattle.std.specs.Prelude.{◌≡◌, cond, eqb};
ghost use Rattle.strip.specs.Entry.{layout_numbered};
ghost use Rattle.stream_host.specs.Tested.{begins, shape_begin, returns, shape_block, shape_end};

use strip::{Layout, Stream};

// Begins a test in the layout of this number: the state becomes that of no byte yet. 0; 7 where no layout has the number or the state another length than
// 45, which leaves it as it was.
#[unsafe(no_mangle)]
pub extern "C" fn mehkura_shape_begin(state: &mut [u8], layout: u32) -> u32
    ensures { begins result state.new ≡ shape_begin (layout_numbered layout) state.old }
{
    let Ok(l) = Layout::try_from(layout) else {
        return 7;
    };
    if state.len() == 45 {
        strip::put_state(Stream::new(l), state);
        return 0;
    }
    7
}

// A block more of the run. `passed` and `strips` become how many bytes were passed with it and how many strips ended. 0; 7 where an entry is refused, or
// was before: the state becomes that of a test that has refused. 7 too where the state has another length, and then nothing is touched.
#[unsafe(no_mangle)]
pub extern "C" fn mehkura_shape_block(
    state: &mut [u8],
    block: &[u8],
    passed: &mut usize,
    strips: &mut usize,
) -> u32
    ensures { returns result state.new passed.new strips.new ≡ shape_block state.old block.now passed.old strips.old }
{
    if state.len() == 45 {
        let fed = strip::state_of(state).feed(block);
        strip::put_state(fed.stream, state);
        *passed = fed.bytes;
        *strips = fed.strips;
        return number(fed.stream.shape.left);
    }
    7
}

// 7 where no entry may come.
fn number(left: usize) -> u32
    ensures { result ≡ cond (eqb left 0) 7 0 }
{
    if left == 0 { 7 } else { 0 }
}

// Whether the run may end here: 0 or 7.
#[unsafe(no_mangle)]
pub extern "C" fn mehkura_shape_end(state: &[u8]) -> u32
    ensures { result ≡ shape_end state.now }
{
    if strip::state_of(state).at_end() {
        0
    } else {
        7
    }
}
