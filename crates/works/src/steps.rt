// Records interpreted one after another. `specs/Steps.antt` says what comes back, by the meanings.
ghost use Rattle.std.specs.Prelude.{◌≡◌, ◌*◌, ◌≤◌, length};
ghost use Rattle.meaning.specs.Told.{answer_of};
ghost use Rattle.works.specs.Steps.{step, up_to};

use evaluation::State;
use meaning::Interpreted;

// After a refusal nothing is interpreted. No constant is lent: the works read none.
fn step(bytes: &[u8], i: Interpreted) -> Interpreted
    ensures { answer_of result ≡ step bytes.now (answer_of i) }
{
    match i.outcome {
        Ok(_) => meaning::interpret(bytes, i.state, &[]),
        Err(_) => i,
    }
}

// So many records of a list, one after another.
// Kept: a count beside the list, which `up_to count records` of specs/Steps.antt has.
pub fn in_order(records: &[u8], count: usize, start: State) -> Interpreted
    requires { 18 * count ≤ length records.now }
    ensures { answer_of result ≡ up_to count records.now start }
{
    let mut i = Interpreted {
        state: start,
        outcome: Ok(()),
    };
    for n in 0..count {
        i = step(&records[18 * n..18 * n + 18], i);
    }
    i
}
