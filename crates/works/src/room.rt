// Records translated in turn into one room. `specs/Room.antt` says what it holds then.
ghost use Rattle.std.specs.Prelude.{◌≡◌, ◌*◌, ◌≤◌, length, drop};
ghost use Rattle.works.specs.Room.{room_after, step, up_to, room_view};
ghost use Rattle.translation.specs.Strip.{number_of, length_of, translation};

use translation::Refusal;

// How many bytes of the room accepted strips fill, the use marks, and the number of the refusal, 0 where there is none.
// Kept: a number and no Option, since it is the number that `Room` of specs/Room.antt has.
#[derive(Clone, Copy)]
pub struct Turn {
    pub used: usize,
    pub cbuf_used: [u32; 32],
    pub number: u32,
}

// Before the first record.
pub fn empty() -> Turn
    ensures { (result.used ≡ 0) × (result.number ≡ 0) }
{
    Turn {
        used: 0,
        cbuf_used: [0; 32],
        number: 0,
    }
}

// The strip's length, 0 of a refusal, and the refusal's number, 0 where there is none.
fn told(o: Result<usize, Refusal>) -> (usize, u32)
    ensures { (result.0 ≡ length_of o) × (result.1 ≡ number_of o) }
{
    match o {
        Ok(n) => (n, 0),
        Err(r) => (0, u32::from(r)),
    }
}

// A record's strip goes after the last accepted one.
fn translated(bytes: &[u8], t: Turn, room: &mut [u8]) -> Turn
    requires { t.used ≤ length room.old }
    ensures result_after { room_view room.new result ≡ room_after (room_view room.old t) (translation bytes.now t.cbuf_used (drop t.used room.old)) }
    ensures room_len_unchanged { (length room.new ≡ length room.old) × ((t.used ≤ result.used) × (result.used ≤ length room.new)) }
{
    let a = translation::translate(bytes, t.cbuf_used, &mut room[t.used..]);
    let (written, number) = told(a.outcome);
    let cbuf_used = a.cbuf_used;
    Turn {
        used: t.used + written,
        cbuf_used,
        number,
    }
}

// After a refusal nothing is translated.
fn step(bytes: &[u8], t: Turn, room: &mut [u8]) -> Turn
    requires { t.used ≤ length room.old }
    ensures result_after { room_view room.new result ≡ step bytes.now (room_view room.old t) }
    ensures room_len_unchanged { (length room.new ≡ length room.old) × ((t.used ≤ result.used) × (result.used ≤ length room.new)) }
{
    if t.number == 0 {
        translated(bytes, t, room)
    } else {
        t
    }
}

// So many records of a list, in turn.
// Kept: a count beside the list, which `up_to count records` of specs/Room.antt has.
pub fn in_turn(records: &[u8], count: usize, start: Turn, room: &mut [u8]) -> Turn
    requires { (18 * count ≤ length records.now) × (start.used ≤ length room.old) }
    ensures result_after { room_view room.new result ≡ up_to count records.now (room_view room.old start) }
    ensures room_len_unchanged { (length room.new ≡ length room.old) × ((start.used ≤ result.used) × (result.used ≤ length room.new)) }
{
    let mut t = start;
    for n in 0..count {
        t = step(&records[18 * n..18 * n + 18], t, room);
    }
    t
}
