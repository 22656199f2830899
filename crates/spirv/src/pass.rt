// The pass over the bytes, entry by entry: it tests their shape, lists the constants and writes the words. The ids of the body begin after the constants',
// and how many these are is known at the end alone: till then they are counted from 2 ^ 40 + 2 ^ 31 on (`FIRST_ID`), which is above all others.
ghost use Rattle.std.specs.Prelude.{◌≡◌, []};
ghost use Rattle.spirv.specs.Page.{Passes};

use crate::answer::Refusal;
use crate::given::Given;
use crate::page::Page;
use strip::{Layout, Shape};

// Kept: a loop of its own over the entries. With one loop for several the reader has a second caller, and is called and not built in (docs/DECISIONS.md).
pub fn pass(run: &[u8], given: &mut Given, page: &mut Page) -> Result<(), Refusal>
    requires { given.old.constants ≡ [] }
    ensures { Passes run.now given.old page.old result given.new page.new }
{
    let mut shape = Shape::new();
    let mut rest = run;
    while !rest.is_empty() {
        let Some((e, size)) = strip::read_entry(rest, Layout::Wide) else {
            return Err(Refusal::BadShape);
        };
        page.enter(given, e);
        shape = shape.entry(e);
        rest = &rest[size..];
        if shape.left == 0 {
            return Err(Refusal::BadShape);
        }
        if shape.left == 64 {
            return if rest.is_empty() {
                Ok(())
            } else {
                Err(Refusal::BadShape)
            };
        }
    }
    Err(Refusal::BadShape)
}
