// The OS table (specs/Systems.antt): which systems fit a user and his machine, and which of them he gets.
ghost use Rattle.std.specs.Prelude.{ℕ, slice_index, ◌≡◌, ◌+◌, ◌*◌, ◌≤◌, ◌<◌, length};
ghost use Rattle.rows.specs.Rows.{part};
ghost use Rattle.rows.specs.Words.{first, smallest};
ghost use Rattle.rows.specs.Numbers.{low_first, bit_at};
ghost use Rattle.rows.specs.Outcomes.{Finds};
ghost use Rattle.directory.specs.Directory.{files, file_of};
ghost use Rattle.boot.specs.Tables.{seven_bits};
ghost use Rattle.boot.specs.Systems.{system_rows, os_fits, first_name, load_list, suits, fits, system_size, fits_exactly};
ghost use Rattle.boot.specs.Lent.{names_of};
ghost use Rattle.boot.specs.Inner.{Weighs, lighter, smallest_choice, choice_among};

use crate::{Choice, Honor, lookups};

// The systems, the directory that their files are in, and what is asked of a system: it is the one wanted, and for the
// product.
#[derive(Clone, Copy)]
pub struct Systems<'a> {
    table: &'a [u8],
    directory: &'a [u8],
    wanted: u8,
    product: u8,
    ghost bytes: { (k : ℕ) → slice_index directory.now k < 256 },
}

// A system that fits, by its row, and the length of its file. Both as wide, so that a loop carries it in registers: with a size of
// two bytes it went through the stack for each system.
#[derive(Clone, Copy)]
struct Lightest {
    row: usize,
    size: usize,
}

// A system of this number is the one wanted: the kind matches, and the one of its kind does or is not asked for.
fn os_fits(number: u8, wanted: u8) -> bool
    ensures { result ≡ os_fits number wanted }
{
    if number / 16 != wanted / 16 {
        return false;
    }
    wanted % 16 == 0 || number % 16 == wanted % 16
}

// The bit of a product number in a map of 128 bits.
fn in_map(map: &[u8; 16], product: u8) -> bool
    ensures { result ≡ bit_at (low_first map.now) (seven_bits product) }
{
    let bit = usize::from(lookups::seven_bits(product));
    let byte = map[bit / 8];
    (byte >> (bit % 8)) & 1 == 1
}

// The N bytes of row i that begin at `at`.
#[tactic(auto, unfolding(crate::specs::Systems::system_rows))]
fn field<const N: usize>(table: &[u8], i: usize, at: usize) -> &[u8; N]
    requires { (i < system_rows table.now) × (at + N ≤ 96) }
    ensures { result.now ≡ part table.now (96 * i + at) N }
{
    rows::array_in(table, lookups::SYSTEM * i + at)
}

// The load list of system i: its names before the first null name.
fn load_list(table: &[u8], i: usize) -> &[u8]
    requires { i < system_rows table.now }
    ensures { (result.now ≡ load_list table.now i) × (length result.now ≤ 64) }
{
    let names: &[u8; 64] = field(table, i, 23);
    let n = rows::find(names, directory::NAME, 8, &[0u8; 8]).unwrap_or(8);
    rows::part(names, 0, directory::NAME * n)
}

// The lighter of the lightest so far and of system i, where that fits: the one before it where both weigh the same.
fn lighter(best: Option<Lightest>, i: usize, size: Option<u16>) -> Option<Lightest>
    ensures { result ≡ lighter best i size }
{
    match (best, size) {
        (best, None) => best,
        (None, Some(size)) => Some(Lightest {
            row: i,
            size: usize::from(size),
        }),
        (Some(b), Some(size)) => {
            let size = usize::from(size);
            if size < b.size {
                Some(Lightest { row: i, size })
            } else {
                best
            }
        }
    }
}

// An index stands in each contract with its bound: it is what the caller chooses.
impl<'a> Systems<'a> {
    pub fn new(table: &'a [u8], directory: &'a [u8], wanted: u8, product: u8) -> Systems<'a>
        ensures { (result.table.now ≡ table.now) × (result.directory.now ≡ directory.now) × (result.wanted ≡ wanted) × (result.product ≡ product) }
    {
        Systems {
            table,
            directory,
            wanted,
            product,
        }
    }

    // System i is the one wanted and for the product.
    #[tactic(auto, unfolding(crate::specs::Systems::system_rows))]
    fn is_suited(&self, i: usize) -> bool
        requires { i < system_rows self.now.table.now }
        ensures { result ≡ suits self.now.table.now self.now.wanted self.now.product i }
    {
        if !os_fits(self.table[lookups::SYSTEM * i], self.wanted) {
            return false;
        }
        in_map(field(self.table, i, 1), self.product)
    }

    // The file that the first name of system i is.
    fn first_file(&self, i: usize) -> Option<usize>
        requires { i < system_rows self.now.table.now }
        ensures { Finds (files self.now.directory.now) (file_of self.now.directory.now (first_name self.now.table.now i)) result }
    {
        directory::find(self.directory, field(self.table, i, 23))
    }

    // The size of system i, the length of the file that its first name is, where it fits.
    fn size_of(&self, i: usize) -> Option<u16>
        requires { i < system_rows self.now.table.now }
        ensures { Weighs (fits self.now.table.now self.now.directory.now self.now.wanted self.now.product i) (system_size self.now.table.now self.now.directory.now i) result }
    {
        if !self.is_suited(i) {
            return None;
        }
        match self.first_file(i) {
            Some(file) => Some(directory::length_of(self.directory, file)),
            None => None,
        }
    }

    // System i fits, and its option map is this one.
    fn fits_exactly(&self, i: usize, options: &[u8]) -> bool
        requires { i < system_rows self.now.table.now }
        ensures { result ≡ fits_exactly self.now.table.now self.now.directory.now self.now.wanted self.now.product options.now i }
    {
        if self.size_of(i).is_none() {
            return false;
        }
        rows::is_same(field::<6>(self.table, i, 17), options)
    }

    // The first system that fits exactly.
    #[tactic(auto, unfolding(crate::specs::Systems::system_rows))]
    fn find_exact(&self, options: &[u8]) -> Option<usize>
        ensures { Finds (system_rows self.now.table.now) (first (fits_exactly self.now.table.now self.now.directory.now self.now.wanted self.now.product options.now) (system_rows self.now.table.now)) result }
    {
        let n = self.table.len() / lookups::SYSTEM;
        for i in 0..n {
            if self.fits_exactly(i, options) {
                return Some(i);
            }
        }
        None
    }

    // The smallest system that fits, the lower row on a tie. The loop reads a copy of what the systems are, which stays in registers.
    #[tactic(auto, unfolding(crate::specs::Systems::system_rows))]
    fn find_smallest(&self) -> Option<usize>
        ensures { Finds (system_rows self.now.table.now) (smallest (fits self.now.table.now self.now.directory.now self.now.wanted self.now.product) (system_size self.now.table.now self.now.directory.now) (system_rows self.now.table.now)) result }
    {
        let systems = *self;
        let n = self.table.len() / lookups::SYSTEM;
        let mut best: Option<Lightest> = None;
        for i in 0..n {
            best = lighter(best, i, systems.size_of(i));
        }
        match best {
            Some(b) => Some(b.row),
            None => None,
        }
    }

    // The smallest system; OS Menu for none.
    fn choose_smallest(&self, menu: &'a [u8; 8]) -> Choice<'a>
        ensures { (names_of result ≡ smallest_choice self.now.table.now self.now.directory.now self.now.wanted self.now.product menu.now) × (length result.names.now ≤ 64) }
    {
        match self.find_smallest() {
            Some(i) => Choice {
                honor: Honor::Smallest,
                names: load_list(self.table, i),
            },
            None => Choice {
                honor: Honor::Menu,
                names: menu,
            },
        }
    }

    // The system that a user gets, by its load list: the exact one where he has full service, or else the smallest. Where the directory
    // has no file none fits, and no row is looked at.
    pub(crate) fn choose(&self, options: &[u8], small: bool, menu: &'a [u8; 8]) -> Choice<'a>
        ensures { (names_of result ≡ choice_among self.now.table.now self.now.directory.now self.now.wanted self.now.product options.now small menu.now) × (length result.names.now ≤ 64) }
    {
        if directory::count(self.directory) == 0 {
            return Choice {
                honor: Honor::Menu,
                names: menu,
            };
        }
        if small {
            return self.choose_smallest(menu);
        }
        match self.find_exact(options) {
            Some(i) => Choice {
                honor: Honor::Exact,
                names: load_list(self.table, i),
            },
            None => self.choose_smallest(menu),
        }
    }
}
