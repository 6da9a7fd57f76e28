// Marks: a map of bits, 32 to a word, one bit for each hash. Whoever marks the hash of every key that went by knows, of a
// hash without a mark, that its key is new. A mark says nothing by itself: two keys may share it.
ghost use Rattle.std.specs.Prelude.{◌≡◌, ◌*◌, ◌<◌, ◌^◌, length};
ghost use Rattle.rows.specs.Marks.{marked, marking, hash as hash_of};

// A number below 1,024 for a key that stands in four numbers.
pub fn hash(a: u32, b: u32, c: u32, d: u32) -> usize
    ensures { (result ≡ hash_of a b c d) × (result < 1024) }
{
    let front = 811766591 * (a as u64) + 735356845 * (b as u64);
    let back = 227300033 * (c as u64) + 244215329 * (d as u64);
    ((front + back) / 4194304 % 1024) as usize
}

fn bit(j: usize) -> u32
    requires { j < 32 }
    ensures { result ≡ 2 ^ j }
{
    1u32 << j
}

// Marks h, and says whether it was marked before.
pub fn mark(map: &mut [u32], h: usize) -> bool
    requires { h < 32 * length map.old }
    ensures { (result ≡ marked map.old h) × (map.new ≡ marking map.old h) }
{
    let k = h / 32;
    let j = h % 32;
    let old = map[k];
    map[k] = old | bit(j);
    crate::is_bit(old as u64, j)
}
