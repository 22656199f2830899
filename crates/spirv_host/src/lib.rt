// The writer of SPIR-V words with C linkage. A library of its own: a second caller of the reader would make it slower (docs/DECISIONS.md).
#![tactic(auto)]

ghost use Rattle.std.specs.Prelude.{◌≡◌};
ghost use Rattle.spirv_host.specs.Written.{returns, spirv_answer};

// The SPIR-V words of one strip at the start of out: `written` words, `constants` of them the list of constants, and `next` the first free id.
// 0 where they were written; 7, 17, 10, 11 in this order where not: a refusal leaves `written`, `constants`, `next` and out as they were.
#[unsafe(no_mangle)]
pub extern "C" fn mehkura_to_spirv(
    strip: &[u8],
    bound: u32,
    table: &[u32],
    out: &mut [u32],
    written: &mut usize,
    constants: &mut usize,
    next: &mut u32,
) -> u32
    ensures { returns result written.new constants.new next.new out.new ≡ spirv_answer strip.now bound table.now out.old written.old constants.old next.old }
{
    match spirv::to_spirv(strip, bound, table, out) {
        Ok(words) => {
            *written = words.words;
            *constants = words.constants;
            *next = words.next;
            0
        }
        Err(refusal) => u32::from(refusal),
    }
}
