// From one layout to the other (02, #102): the same strips, each reference in one byte instead of two or in two instead of one.
#![tactic(auto)]

mod pass;

ghost use Rattle.std.specs.Prelude.{◌≡◌};
ghost use Rattle.convert.specs.Convert.{refusal_number, other, answer_of, conversion};

use pass::pass;
use strip::Layout;

// Why a run is not converted. 02's numbers: 7, 6 in this order.
#[derive(Clone, Copy, Debug, PartialEq, Eq)]
pub enum Refusal {
    // The run is not well-formed in its layout.
    BadShape,
    // What it becomes is longer than the room.
    NoRoom,
}

// 02's number.
#[tactic(auto, unfolding(crate::specs::Convert::refusal_number))]
impl From<Refusal> for u32 {
    ghost from_gives = { λ r number. number ≡ refusal_number r };

    fn from(r: Refusal) -> u32 {
        match r {
            Refusal::BadShape => 7,
            Refusal::NoRoom => 6,
        }
    }
}

// The layout that a run of this one becomes.
fn other(layout: Layout) -> Layout
    ensures { result ≡ other layout }
{
    match layout {
        Layout::Wide => Layout::Narrow,
        Layout::Narrow => Layout::Wide,
    }
}

// A run in the layout that is stated becomes one in the other, at the start of the room; the length of what was written. The whole run is tested, and
// measured, before anything is written: a refusal touches nothing.
pub fn convert(run: &[u8], layout: Layout, out: &mut [u8]) -> Result<usize, Refusal>
    ensures { answer_of result out.new ≡ conversion layout run.now out.old }
{
    let to = other(layout);
    let Some(n) = pass(run, layout, to, out, false) else {
        return Err(Refusal::BadShape);
    };
    if out.len() < n {
        return Err(Refusal::NoRoom);
    }
    pass(run, layout, to, out, true);
    Ok(n)
}
