// The tables of machines, products, users and configurations (specs/Tables.antt): whole rows, and the searches by which a
// login finds its rows. Each ends at the first row that fits.
ghost use Rattle.std.specs.Prelude.{◌≡◌, ◌&&◌, ◌+◌, ◌*◌, ◌≤◌, ◌<◌, length};
ghost use Rattle.rows.specs.Words.{first, same};
ghost use Rattle.rows.specs.Outcomes.{Finds};
ghost use Rattle.rows.specs.Rows.{part};
ghost use Rattle.terms.specs.Shortcuts.{matches};
ghost use Rattle.boot.specs.Tables.{whole, all_whole, machine_rows, machine_of, product_rows, product_of, seven_bits, is_product, login_please as please_of, os_menu as menu_of, user_rows, user_of, configuration as configuration_at};
ghost use Rattle.boot.specs.Choice.{chosen_for};
ghost use Rattle.boot.specs.Lent.{tables_of, names_of};

use crate::systems::Systems;
use crate::{Choice, Tables};
use terms::names;
use terms::names::Pattern;

// The bytes of a row of each table.
pub const MACHINE: usize = 12;

pub const PRODUCT: usize = 25;

pub const USER: usize = 16;

pub const CONFIGURATION: usize = 64;

pub const SYSTEM: usize = 96;

// Whole rows of w bytes, and no more than so many.
fn is_whole(table: &[u8], w: usize, limit: usize) -> bool
    requires { 1 ≤ w }
    ensures { result ≡ whole w limit table.now }
{
    table.len() % w == 0 && table.len() / w <= limit
}

// How many rows the product table has: a row of type 0 ends it.
fn product_rows(products: &[u8]) -> usize
    ensures { result ≡ product_rows products.now }
{
    let n = products.len() / PRODUCT;
    rows::find(products, PRODUCT, n, &[0u8]).unwrap_or(n)
}

// The name that begins at `at` in row p.
fn product_name(products: &[u8], p: usize, at: usize) -> &[u8; 8]
    requires { (p < product_rows products.now) × (at + 8 ≤ 25) }
    ensures { result.now ≡ part products.now (25 * p + at) 8 }
{
    rows::array_in(products, PRODUCT * p + at)
}

// A product number without the bit that tells the console.
pub fn seven_bits(number: u8) -> u8
    ensures { (result ≡ seven_bits number) × (result < 128) }
{
    number & 0x7F
}

// Row i has the name of this pattern, and the password.
#[tactic(auto, unfolding(crate::specs::Tables::user_rows))]
fn is_user(users: &[u8], i: usize, pattern: Pattern, password: &[u8]) -> bool
    requires { i < user_rows users.now }
    ensures { result ≡ (matches (part users.now (16 * i) 8) pattern && same (part users.now (16 * i + 8) 6) password.now) }
{
    let at = USER * i;
    if !names::matches(rows::array_in(users, at), pattern) {
        return false;
    }
    rows::is_same(rows::part(users, at + 8, 6), password)
}

// The first user with the name and the password.
pub fn find_user(users: &[u8], name: &[u8; 8], password: &[u8; 6]) -> Option<usize>
    ensures { Finds (user_rows users.now) (user_of users.now name.now password.now) result }
{
    let pattern = names::pattern_of(name);
    for i in 0..users.len() / USER {
        if is_user(users, i, pattern, password) {
            return Some(i);
        }
    }
    None
}

// An index stands in each contract with its bound: it is what the caller chooses.
impl<'a> Tables<'a> {
    // Every table has whole rows, and no more than its limit.
    pub fn are_whole(&self) -> bool
        ensures { result ≡ all_whole (tables_of self.now) }
    {
        if !is_whole(self.machines, MACHINE, 128) {
            return false;
        }
        if !is_whole(self.products, PRODUCT, 40) {
            return false;
        }
        if !is_whole(self.users, USER, 128) {
            return false;
        }
        if !is_whole(self.configurations, CONFIGURATION, 128) {
            return false;
        }
        if !is_whole(self.systems, SYSTEM, 128) {
            return false;
        }
        is_whole(self.directory, directory::ROW, 128)
    }

    // The first machine with the serial number.
    pub fn find_machine(&self, serial: &[u8; 4]) -> Option<usize>
        ensures { Finds (machine_rows self.now.machines.now) (machine_of self.now.machines.now serial.now) result }
    {
        let n = self.machines.len() / MACHINE;
        rows::find(self.machines, MACHINE, n, serial)
    }

    // The first row of the product number.
    pub fn find_product(&self, number: u8) -> Option<usize>
        ensures { Finds (product_rows self.now.products.now) (product_of self.now.products.now number) result }
    {
        let wanted = seven_bits(number);
        for i in 0..product_rows(self.products) {
            if seven_bits(self.products[PRODUCT * i]) == wanted {
                return Some(i);
            }
        }
        None
    }

    // The name of Login Please, at the machine whose product is row p.
    #[tactic(auto, unfolding(crate::specs::Tables::login_please))]
    pub fn login_please(&self, p: usize) -> &'a [u8; 8]
        requires { p < product_rows self.now.products.now }
        ensures { result.now ≡ please_of self.now.products.now p }
    {
        product_name(self.products, p, 9)
    }

    // The name of OS Menu.
    #[tactic(auto, unfolding(crate::specs::Tables::os_menu))]
    fn os_menu(&self, p: usize) -> &'a [u8; 8]
        requires { p < product_rows self.now.products.now }
        ensures { result.now ≡ menu_of self.now.products.now p }
    {
        product_name(self.products, p, 17)
    }

    // The drives and the type-ahead of row i; zeros where there is no such row.
    pub fn configuration(&self, i: usize) -> [u8; 64]
        ensures { result ≡ configuration_at self.now.configurations.now i }
    {
        if self.configurations.len() / CONFIGURATION <= i {
            return [0u8; CONFIGURATION];
        }
        rows::array_at(self.configurations, CONFIGURATION * i)
    }

    // The choice for the user of row u at the machine of row m, whose product is row p.
    #[tactic(auto, unfolding(crate::specs::Tables::machine_rows, crate::specs::Tables::user_rows))]
    pub(crate) fn choose(&self, m: usize, p: usize, u: usize) -> Choice<'a>
        requires { (m < machine_rows self.now.machines.now) × (p < product_rows self.now.products.now) × (u < user_rows self.now.users.now) }
        ensures { (names_of result ≡ chosen_for (tables_of self.now) m p u) × (length result.names.now ≤ 64) }
    {
        let machine = MACHINE * m;
        let user = USER * u;
        let options = rows::part(self.machines, machine + 5, 6);
        let wanted = self.users[user + 14];
        let small = self.users[user + 15] % 2 == 1;
        let systems = Systems::new(
            self.systems,
            self.directory,
            wanted,
            self.machines[machine + 4],
        );
        systems.choose(options, small, self.os_menu(p))
    }
}
