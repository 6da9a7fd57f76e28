// The system is chosen at login (02, Req 07): from 001's tables, a serial, a name and a password to an honor flag and the data
// block of Boot Phase 2. The tables are lent as they stand on the disk.
#![tactic(auto)]

mod block;
mod lookups;
mod systems;

ghost use Rattle.std.specs.Prelude.{◌≡◌, ◌<◌};
ghost use Rattle.boot.specs.Tables.{iobyte, machine_rows, product_rows};
ghost use Rattle.boot.specs.Honors.{flag_of};
ghost use Rattle.boot.specs.Choice.{machine_row, chosen};
ghost use Rattle.boot.specs.Lent.{tables_of};
ghost use Rattle.boot.specs.Block.{configuration_of};
ghost use Rattle.boot.specs.Answers.{Boots};
ghost use Rattle.boot.specs.Inner.{Sends, Answers};

use refusals::Refusal;

// How many bytes the block has.
pub const BLOCK: usize = 194;

// The tables of 001, each of rows of fixed width.
#[derive(Clone, Copy)]
pub struct Tables<'a> {
    pub machines: &'a [u8],
    pub products: &'a [u8],
    pub users: &'a [u8],
    pub configurations: &'a [u8],
    pub systems: &'a [u8],
    pub directory: &'a [u8],
}

// Who asks: the machine's serial number, and the user's name and password.
#[derive(Clone, Copy)]
pub struct Login<'a> {
    pub serial: &'a [u8; 4],
    pub name: &'a [u8; 8],
    pub password: &'a [u8; 6],
}

// What a login gets: the system with the machine's options, the smallest system, Login Please, OS Menu, or nothing.
#[derive(Clone, Copy, Debug, PartialEq, Eq)]
pub enum Honor {
    Exact,
    Smallest,
    LoginPlease,
    Menu,
    Nothing,
}

// The honor flag.
impl From<Honor> for u8 {
    ghost from_gives = { λ h flag. flag ≡ flag_of h };

    fn from(honor: Honor) -> u8 {
        match honor {
            Honor::Exact => 0,
            Honor::Smallest => 1,
            Honor::LoginPlease => 2,
            Honor::Menu => 3,
            Honor::Nothing => 4,
        }
    }
}

// What is chosen: an honor, and the names to load, eight bytes to a name.
#[derive(Clone, Copy)]
struct Choice<'a> {
    honor: Honor,
    names: &'a [u8],
}

// Sends what the name and password get at the machine of row m, whose product is row p.
#[tactic(auto, unfolding(crate::specs::Tables::machine_rows))]
fn send_chosen(login: &Login, tables: &Tables, m: usize, p: usize, block: &mut [u8; BLOCK]) -> Honor
    requires { (m < machine_rows tables.now.machines.now) × (p < product_rows tables.now.products.now) }
    ensures { Sends tables.now.directory.now (configuration_of (tables_of tables.now) login.now.name.now login.now.password.now) (iobyte tables.now.machines.now m) (chosen (tables_of tables.now) m p login.now.name.now login.now.password.now) block.old (flag_of result) block.new }
{
    let iobyte = tables.machines[lookups::MACHINE * m + 11];
    match lookups::find_user(tables.users, login.name, login.password) {
        Some(u) => {
            let choice = tables.choose(m, p, u);
            let own = tables.configuration(u);
            block::send(tables.directory, choice, iobyte, &own, block)
        }
        None => {
            let please = Choice {
                honor: Honor::LoginPlease,
                names: tables.login_please(p),
            };
            let none = [0u8; lookups::CONFIGURATION];
            block::send(tables.directory, please, iobyte, &none, block)
        }
    }
}

// The honor at the machine of row m: Nothing where its product has no row.
#[tactic(auto, unfolding(crate::specs::Tables::machine_rows))]
fn answer_at(login: &Login, tables: &Tables, m: usize, block: &mut [u8; BLOCK]) -> Honor
    requires { (m ≡ machine_row (tables_of tables.now) login.now.serial.now) × (m < machine_rows tables.now.machines.now) }
    ensures { Answers (tables_of tables.now) login.now.serial.now login.now.name.now login.now.password.now block.old (flag_of result) block.new }
{
    match tables.find_product(tables.machines[lookups::MACHINE * m + 4]) {
        Some(p) => send_chosen(login, tables, m, p, block),
        None => Honor::Nothing,
    }
}

// The honor, with the block for all but Nothing: that where the machine has no row.
fn answer(login: &Login, tables: &Tables, block: &mut [u8; BLOCK]) -> Honor
    ensures { Answers (tables_of tables.now) login.now.serial.now login.now.name.now login.now.password.now block.old (flag_of result) block.new }
{
    match tables.find_machine(login.serial) {
        Some(m) => answer_at(login, tables, m, block),
        None => Honor::Nothing,
    }
}

// Chooses the system of a login: 23 where a table is not of whole rows or too long, 13 where the buffer is shorter than the
// block, or the honor; all but Nothing leave the block at the start of the buffer.
pub fn boot(login: &Login, tables: &Tables, buffer: &mut [u8]) -> Result<Honor, Refusal>
    ensures { Boots (tables_of tables.now) login.now.serial.now login.now.name.now login.now.password.now buffer.old result buffer.new }
{
    if !tables.are_whole() {
        return Err(Refusal::BadBootTables);
    }
    let Some(block) = buffer.first_chunk_mut() else {
        return Err(Refusal::ShortBuffer);
    };
    Ok(answer(login, tables, block))
}
