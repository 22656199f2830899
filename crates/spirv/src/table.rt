// The lent table: 303 ids, each above 0 and below the bound, none above the limit, none twice.
ghost use Rattle.std.specs.Prelude.{◌≡◌, ◌<◌, true, ◌&&◌, length};
ghost use Rattle.strip.specs.Shape.{all};
ghost use Rattle.spirv.specs.Writer.{lent_ok, distinct, table_ok};
ghost use Rattle.spirv.specs.Page.{rising, bucket_of};

// Whether each id is above the one before it, by 2^22 at most: then the one before it minus the id has all ten high bits. An id that is further off is above
// the limit. No early end, and each id is read twice: so the processor takes several at a time.
fn rises(table: &[u32]) -> bool
    requires { length table.now ≡ 303 }
    ensures { result ≡ true → rising 0 table.now ≡ true }
{
    let mut high = 0u32.wrapping_sub(table[0]);
    for i in 0..302 {
        high &= table[i].wrapping_sub(table[i + 1]);
    }
    high >= 4290772992
}

fn lent_ok(x: u32, bound: u32) -> bool
    ensures { result ≡ lent_ok bound x }
{
    x != 0 && x < bound && x <= 4194302
}

// The bucket of an id, one of 1024. Ids that follow each other have different ones.
fn bucket(x: u32) -> usize
    ensures { (result ≡ bucket_of x) × (result < 1024) }
{
    (u64::from(x) * 2654435769 / 4194304 % 1024) as usize
}

// Whether each id passes and none stands twice, in any order. From the last one on, each bucket has a chain of its ids: heads says where the first one
// stands, links where the next one does, and 303 is none. Not built in: such a table takes 900 ns, built in 1100.
#[inline(never)]
fn each_ok(table: &[u32], bound: u32) -> bool
    requires { length table.now ≡ 303 }
    ensures { result ≡ all (lent_ok bound) table.now && distinct table.now }
{
    let mut heads: [u16; 1024] = [303; 1024];
    let mut links: [u16; 303] = [303; 303];
    for i in (0..303).rev() {
        let x = table[i];
        if !lent_ok(x, bound) {
            return false;
        }
        let h = bucket(x);
        let first = heads[h];
        let mut j = usize::from(first);
        while j < 303 {
            if table[j] == x {
                return false;
            }
            j = usize::from(links[j]);
        }
        links[i] = first;
        heads[h] = i as u16;
    }
    true
}

pub fn table_ok(table: &[u32], bound: u32) -> bool
    ensures { result ≡ table_ok table.now bound }
{
    if table.len() != 303 {
        return false;
    }
    if rises(table) {
        return lent_ok(table[302], bound);
    }
    each_ok(table, bound)
}
