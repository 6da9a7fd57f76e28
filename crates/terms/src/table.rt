// Lock strings in the rows of a table: the search for one, and the check that none stands twice. The rows are of one width;
// a row is free where its first byte says so, and the string stands at one place in its row.
ghost use Rattle.std.specs.Prelude.{◌+◌, ◌*◌, ◌≤◌, length};

use crate::LockString;

// The width of a row, where in it the string stands, and the first byte of a free row.
#[derive(Clone, Copy)]
pub struct Shape {
    pub width: usize,
    pub string: usize,
    pub free: u8,
    pub ghost room: { string + 14 ≤ width },
}

// So many rows of one shape, in lent bytes.
#[derive(Clone, Copy)]
pub struct Table<'a> {
    pub bytes: &'a [u8],
    pub shape: Shape,
    pub count: usize,
    pub ghost whole: { shape.width * count ≤ length bytes.now },
}

impl Table<'_> {
    ghost use Rattle.std.specs.Prelude.{◌≡◌, ℕ, true, false, ◌&&◌, ◌<◌, eqb};
    ghost use Rattle.rows.specs.Outcomes.{Finds};
    ghost use Rattle.rows.specs.Words.{all, first, same};
    ghost use Rattle.terms.specs.Strings.{string_at, key, normal};
    ghost use Rattle.terms.specs.Tables.{row_free, row_string, row_holds, row_alone};
    ghost use Rattle.terms.specs.Shortcuts.{string_hash, row_has_key};

    // Row i is free.
    #[tactic(auto, using(crate::proofs::TableLaws::free_at_lem))]
    fn is_free(&self, i: usize) -> bool
        requires { i < self.now.count }
        ensures { result ≡ row_free self.now.shape self.now.bytes.now i }
    {
        self.bytes[self.shape.width * i] == self.shape.free
    }

    // The first free row.
    #[tactic(auto, using(rows::proofs::IndexLaws::search_on, rows::proofs::IndexLaws::search_hit, rows::proofs::IndexLaws::search_ends), unfolding(rows::specs::Words::any))]
    pub fn first_free(&self) -> Option<usize>
        ensures { Finds self.now.count (first (row_free self.now.shape self.now.bytes.now) self.now.count) result }
    {
        for i in 0..self.count {
            if self.is_free(i) {
                return Some(i);
            }
        }
        None
    }

    // The string of row i where it stands, its length first.
    #[tactic(auto, using(crate::proofs::TableLaws::string_in_row))]
    fn string_of(&self, i: usize) -> &[u8; 14]
        requires { i < self.now.count }
        ensures { string_at result.now 0 ≡ row_string self.now.shape self.now.bytes.now i }
    {
        rows::array_in(self.bytes, self.shape.width * i + self.shape.string)
    }

    // Row i is used and holds the string of this length and these bytes. They are compared where they stand.
    #[tactic(auto, unfolding(crate::specs::Shortcuts::row_has_key, crate::specs::Strings::string_at))]
    fn holds(&self, i: usize, len: u8, own: &[u8]) -> bool
        requires { i < self.now.count }
        ensures { result ≡ row_has_key self.now.shape self.now.bytes.now len own.now i }
    {
        if self.is_free(i) {
            return false;
        }
        let string = self.string_of(i);
        string[0] == len && rows::is_same(crate::key_in(string), own)
    }

    // The first of n rows that holds it.
    #[tactic(auto, using(rows::proofs::IndexLaws::search_on, rows::proofs::IndexLaws::search_hit, rows::proofs::IndexLaws::search_ends), unfolding(rows::specs::Words::any))]
    fn find_key(&self, n: usize, len: u8, own: &[u8]) -> Option<usize>
        requires { n ≤ self.now.count }
        ensures { Finds n (first (row_has_key self.now.shape self.now.bytes.now len own.now) n) result }
    {
        for i in 0..n {
            if self.holds(i, len, own) {
                return Some(i);
            }
        }
        None
    }

    // The first row that holds s.
    #[tactic(auto, using(crate::proofs::StringLaws::key_used, crate::proofs::TableLaws::key_held))]
    pub fn find(&self, s: LockString) -> Option<usize>
        ensures { Finds self.now.count (first (row_holds self.now.shape self.now.bytes.now s) self.now.count) result }
    {
        self.find_key(self.count, s.len, &s.bytes[..crate::used(s.len)])
    }

    // Row i is free, or no earlier row holds its string: where its hash was not seen in an earlier row, none does.
    #[tactic(auto, using(crate::proofs::StringLaws::len_first, crate::proofs::TableLaws::key_held, rows::proofs::OutcomeLaws::finds_some), unfolding(crate::specs::Tables::row_alone))]
    fn row_alone(&self, i: usize, seen: bool) -> bool
        requires in_bounds { i < self.now.count }
        requires unseen { seen ≡ false → row_alone self.now.shape self.now.bytes.now i ≡ true }
        ensures { result ≡ row_alone self.now.shape self.now.bytes.now i }
    {
        if !seen || self.is_free(i) {
            return true;
        }
        let string = self.string_of(i);
        self.find_key(i, string[0], crate::key_in(string)).is_none()
    }

    // The hash of the string of row i.
    fn hash_of(&self, i: usize) -> usize
        requires { i < self.now.count }
        ensures { (result ≡ string_hash (row_string self.now.shape self.now.bytes.now i)) × (result < 1024) }
    {
        crate::hash_in(self.string_of(i))
    }

    // No two rows hold the same string, where zeros stand after each. The hash of each row is marked, and only a row whose
    // hash was marked before is compared with the rows before it.
    #[tactic(auto, using(crate::proofs::TableLaws::unseen_alone), unfolding(rows::specs::Words::all))]
    pub fn rows_alone(&self) -> bool
        requires { (i : ℕ) → i < self.now.count → row_free self.now.shape self.now.bytes.now i ≡ false → normal (row_string self.now.shape self.now.bytes.now i) ≡ row_string self.now.shape self.now.bytes.now i }
        ensures { result ≡ all (row_alone self.now.shape self.now.bytes.now) self.now.count }
    {
        let mut map = [0u32; 32];
        for i in 0..self.count {
            let seen = rows::marks::mark(&mut map, self.hash_of(i));
            if !self.row_alone(i, seen) {
                return false;
            }
        }
        true
    }
}
