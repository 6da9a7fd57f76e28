// Rows of fixed width in lent bytes: the words that the other crates' rules are written in (specs/), the laws of those
// words (proofs/), and the few functions that read and write a part. No function here knows what the bytes mean.
#![tactic(auto)]

pub mod marks;

ghost use Rattle.std.specs.Prelude.{◌≡◌, ℕ, ◌+◌, ◌*◌, ◌≤◌, ◌<◌, length};
ghost use Rattle.rows.specs.Words.{all, first, same, zero_at, zeros};
ghost use Rattle.rows.specs.Rows.{part as part_of, put as put_in, over, begins, copies};
ghost use Rattle.rows.specs.Numbers.{low_first, bit_at};
ghost use Rattle.rows.specs.Outcomes.{Gives, Finds};

// The n bytes of s that begin at `at`.
pub fn part(s: &[u8], at: usize, n: usize) -> &[u8]
    requires { at + n ≤ length s.now }
    ensures { result.now ≡ part_of s.now at n }
{
    &s[at..at + n]
}

// Puts p down in s, from `at` on.
pub fn put(s: &mut [u8], at: usize, p: &[u8])
    requires { at + length p.now ≤ length s.old }
    ensures { s.new ≡ put_in s.old at p.now }
{
    let end = at + p.len();
    s[at..end].copy_from_slice(p);
}

// Moves the n bytes at `from` down to `to`, one by one.
pub fn slide(s: &mut [u8], from: usize, to: usize, n: usize)
    requires { (to ≤ from) × (from + n ≤ length s.old) }
    ensures { s.new ≡ put_in s.old to (part_of s.old from n) }
{
    for k in 0..n {
        s[to + k] = s[from + k];
    }
}

// Puts r down n times, one after the other, at the start of s.
pub fn fill(s: &mut [u8], n: usize, r: &[u8])
    requires { length r.now * n ≤ length s.old }
    ensures { s.new ≡ over (copies n r.now) s.old }
{
    for i in 0..n {
        put(s, r.len() * i, r);
    }
}

// The N bytes of s that begin at `at`, where they stand.
pub fn array_in<const N: usize>(s: &[u8], at: usize) -> &[u8; N]
    requires { at + N ≤ length s.now }
    ensures { result.now ≡ part_of s.now at N }
{
    part(s, at, N).first_chunk::<N>().unwrap()
}

// The N bytes of s that begin at `at`, by value.
pub fn array_at<const N: usize>(s: &[u8], at: usize) -> [u8; N]
    requires { at + N ≤ length s.now }
    ensures { result ≡ part_of s.now at N }
{
    *array_in(s, at)
}

// A number that stands in so many bytes, low byte first.
pub trait LowFirst: Sized {
    ghost width: { ℕ };

    ghost value: { Self → ℕ };

    // The number in the bytes that begin at `at`.
    fn low_first_at(s: &[u8], at: usize) -> Self
        requires { at + width ≤ length s.now }
        ensures { value result ≡ low_first (part_of s.now at width) };
}

impl LowFirst for u16 {
    ghost width = { 2 };

    ghost value = { λ x. x };

    fn low_first_at(s: &[u8], at: usize) -> Self {
        u16::from_le_bytes(array_at(s, at))
    }
}

impl LowFirst for u32 {
    ghost width = { 4 };

    ghost value = { λ x. x };

    fn low_first_at(s: &[u8], at: usize) -> Self {
        u32::from_le_bytes(array_at(s, at))
    }
}

impl LowFirst for u64 {
    ghost width = { 8 };

    ghost value = { λ x. x };

    fn low_first_at(s: &[u8], at: usize) -> Self {
        u64::from_le_bytes(array_at(s, at))
    }
}

// Every byte is zero, one after the other.
fn bytes_zero(s: &[u8]) -> bool
    ensures { result ≡ zeros s.now }
{
    for b in s {
        if *b != 0 {
            return false;
        }
    }
    true
}

// The first n words of eight bytes are zero.
fn words_zero(s: &[u8], n: usize) -> bool
    requires { 8 * n ≤ length s.now }
    ensures { result ≡ all (zero_at s.now) (8 * n) }
{
    for k in 0..n {
        if u64::low_first_at(s, 8 * k) != 0 {
            return false;
        }
    }
    true
}

// Every byte is zero. Eight or more are read as numbers of eight, the last of which may begin in the one before it.
pub fn is_zero(s: &[u8]) -> bool
    ensures { Gives (zeros s.now) result }
{
    let n = s.len();
    if n < 8 {
        return bytes_zero(s);
    }
    if !words_zero(s, n / 8) {
        return false;
    }
    u64::low_first_at(s, n - 8) == 0
}

// Two slices of one length are the same, byte by byte.
fn bytes_same(a: &[u8], b: &[u8]) -> bool
    requires { length b.now ≡ length a.now }
    ensures { result ≡ same a.now b.now }
{
    for k in 0..a.len() {
        if a[k] != b[k] {
            return false;
        }
    }
    true
}

// Two slices of one length of 8 to 16 bytes are the same: the first eight bytes are, and the last eight. As numbers they are
// compared at once.
fn ends_same(a: &[u8], b: &[u8]) -> bool
    requires { (8 ≤ length a.now) × (length a.now ≤ 16) × (length b.now ≡ length a.now) }
    ensures { result ≡ same a.now b.now }
{
    if u64::low_first_at(a, 0) != u64::low_first_at(b, 0) {
        return false;
    }
    let last = a.len() - 8;
    u64::low_first_at(a, last) == u64::low_first_at(b, last)
}

// Two slices are as long as each other and the same byte by byte. No `==`: the edits same_by_both_fronts and same_by_first_byte say
// their wrong thing of these bodies.
pub fn is_same(a: &[u8], b: &[u8]) -> bool
    ensures { Gives (same a.now b.now) result }
{
    let n = a.len();
    if n != b.len() {
        return false;
    }
    if n < 8 {
        return bytes_same(a, b);
    }
    if 16 < n {
        return bytes_same(a, b);
    }
    ends_same(a, b)
}

// The first of n rows of w bytes that begins with these bytes.
#[tactic(auto, using(crate::proofs::IndexLaws::search_on, crate::proofs::IndexLaws::search_hit, crate::proofs::IndexLaws::search_ends, crate::proofs::RowLaws::row_end), unfolding(crate::specs::Rows::begins, crate::specs::Words::any))]
pub fn find(table: &[u8], w: usize, n: usize, bytes: &[u8]) -> Option<usize>
    requires { (w * n ≤ length table.now) × (length bytes.now ≤ w) }
    ensures { Finds n (first (begins w table.now bytes.now) n) result }
{
    for i in 0..n {
        if is_same(part(table, w * i, bytes.len()), bytes) {
            return Some(i);
        }
    }
    None
}

// Bit n of a word is set; it has none past the sixty-fourth.
pub fn is_bit(word: u64, n: usize) -> bool
    ensures { Gives (bit_at word n) result }
{
    if 64 <= n {
        return false;
    }
    (word >> n) % 2 == 1
}
