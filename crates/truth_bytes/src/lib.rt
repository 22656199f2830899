// Truths in bytes: a byte that is not 0 is true; a truth is answered as 1 or 0.
#![tactic(auto)]

ghost use Rattle.std.specs.Prelude.{◌≡◌, map, ◌+◌, ◌≤◌, length};
ghost use Rattle.std.proofs.lemmas.List.Edits.{sets};
ghost use Rattle.truth_bytes.specs.Truths.{truth_byte, truths_at};

// The bytes from a place on, to truths.
pub fn read_truths(from: &[u8], at: usize, to: &mut [bool])
    requires { at + length to.old ≤ length from.now }
    ensures { to.new ≡ truths_at (length to.old) at from.now }
{
    for (i, b) in from[at..at + to.len()].iter().enumerate() {
        to[i] = *b != 0;
    }
}

// Truths, to the bytes from a place on.
pub fn write_truths(from: &[bool], to: &mut [u8], at: usize)
    requires { at + length from.now ≤ length to.old }
    ensures { to.new ≡ sets to.old at (map truth_byte from.now) }
{
    for (i, t) in from.iter().enumerate() {
        to[at + i] = u8::from(*t);
    }
}
