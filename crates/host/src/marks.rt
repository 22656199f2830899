// Translation, with the use marks in 128 bytes.
ghost use Rattle.std.specs.Prelude.{◌≡◌, ◌+◌, ◌≤◌, length};
ghost use Rattle.strip.specs.Entry.{word_at};
ghost use Rattle.host.specs.Marks.{words_in, mark_bytes, returns, translate_answer};

// The word at a place of a list of bytes.
fn word_at(bytes: &[u8], at: usize) -> u32
    requires { at + 4 ≤ length bytes.now }
    ensures { result ≡ word_at bytes.now at }
{
    u32::from_le_bytes([bytes[at], bytes[at + 1], bytes[at + 2], bytes[at + 3]])
}

fn read_marks(bytes: &[u8]) -> [u32; 32]
    requires { length bytes.now ≡ 128 }
    ensures { result ≡ words_in 32 bytes.now }
{
    let mut marks = [0; 32];
    for i in 0..32 {
        marks[i] = word_at(bytes, i * 4);
    }
    marks
}

fn write_marks(marks: &[u32; 32], bytes: &mut [u8])
    requires { length bytes.old ≡ 128 }
    ensures { bytes.new ≡ mark_bytes marks.now }
{
    for (i, mark) in marks.iter().enumerate() {
        bytes[i * 4..i * 4 + 4].copy_from_slice(&mark.to_le_bytes());
    }
}

// A record's strip at the front of out, its length in `written`, and the use marks raised: 32 words in 128 bytes, little-endian. 0 where the record
// was translated; 1 to 6 where it was refused, and 1 for another length of marks; a refusal leaves `written`, marks and out as they were.
#[unsafe(no_mangle)]
pub extern "C" fn mehkura_translate(
    bytes: &[u8],
    marks: &mut [u8],
    out: &mut [u8],
    written: &mut usize,
) -> u32
    ensures { returns result written.new marks.new out.new ≡ translate_answer bytes.now written.old marks.old out.old }
{
    if marks.len() != 128 {
        return 1;
    }
    let r = translation::translate(bytes, read_marks(marks), out);
    match r.outcome {
        Ok(n) => {
            write_marks(&r.cbuf_used, marks);
            *written = n;
            0
        }
        Err(f) => u32::from(f),
    }
}
