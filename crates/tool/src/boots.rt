// The command boot: what a login is given to load, by the tables in a folder. What that is, the crate `boot` alone says.
ghost use Rattle.std.specs.Prelude.{◌≡◌, ◌≤◌, IfSome, length};

use crate::{LINE, NAME, Status, argument, file_named, misused, refuse_name, say};
use boot::{Honor, Login, Tables};
use files::Errors;
use pages::Page;
use std::ops::Range;
use std::rt::{Env, Files};

// Reads the table of this name.
fn read_table<'a, R: Files + Errors>(
    rt: &R,
    folder: &[u8],
    name: &[u8],
    table: &'a mut [u8],
) -> Option<&'a [u8]>
    ensures { IfSome result (λ t. length t.now ≤ length table.old) }
{
    let mut room = [0u8; LINE];
    let mut path = Page::new(&mut room);
    path.append(folder);
    path.append(b"/");
    path.append(name);
    let mut what = [0u8; LINE];
    let (n, read) = files::read_file(rt, path.text(), table);
    files::or_tell(rt, file_named(&mut what, path.text()).text(), read)?;
    Some(&table[..n])
}

// Tells what the tables give a login.
fn append_answer(page: &mut Page, login: &Login, tables: &Tables) -> Status
    ensures { page.new.room.ghost_name ≡ page.old.room.ghost_name }
{
    let mut block = [0u8; boot::BLOCK];
    match boot::boot(login, tables, &mut block) {
        Ok(honor) => {
            blocks::append_honored(page, u8::from(honor), &block, tables.directory);
            Status::of(honor != Honor::Nothing)
        }
        Err(refusal) => {
            blocks::append_refused(page, refusal.number());
            Status::Broken
        }
    }
}

// Prints what the tables give a login.
fn print_answer<R: Print + Errors>(rt: &R, login: &Login, tables: &Tables) -> Option<Status> {
    let mut room = [0u8; blocks::PAGE];
    let mut page = Page::new(&mut room);
    let status = append_answer(&mut page, login, tables);
    say(rt, page.text(), status)
}

// Reads the tables of the folder, into room for each at its limit and a byte more, by which one that is too long is known.
// Each that cannot be read is told, even where one before it was; where all can, goes on to what they give a login.
fn answer<R: Files + Print + Errors>(rt: &R, folder: &[u8], login: &Login) -> Option<Status> {
    let mut machines = [0u8; 1537];
    let mut products = [0u8; 1001];
    let mut users = [0u8; 2049];
    let mut configurations = [0u8; 8193];
    let mut systems = [0u8; 12289];
    let mut directory = [0u8; 3073];
    let machines = read_table(rt, folder, b"machines", &mut machines);
    let products = read_table(rt, folder, b"products", &mut products);
    let users = read_table(rt, folder, b"users", &mut users);
    let configurations = read_table(rt, folder, b"configurations", &mut configurations);
    let systems = read_table(rt, folder, b"systems", &mut systems);
    let directory = read_table(rt, folder, b"directory", &mut directory);
    let tables = Tables {
        machines: machines?,
        products: products?,
        users: users?,
        configurations: configurations?,
        systems: systems?,
        directory: directory?,
    };
    print_answer(rt, login, &tables)
}

// Logs in with the words SERIAL, NAME and PASSWORD.
fn log_in<R: Env + Files + Print + Errors>(
    rt: &R,
    folder: &[u8],
    [serial, name, password]: [usize; 3],
) -> Option<Status> {
    let mut text = [0u8; 8];
    let mut own_serial = [0u8; 4];
    if hex::decode_to_slice(argument(rt, serial, &mut text), &mut own_serial).is_err() {
        return misused(rt, b"boot: SERIAL is eight hex digits", b"");
    }
    let mut own_name = [0u8; 8];
    if rt.arg(name, &mut own_name).is_err() {
        return misused(rt, b"boot: NAME has more than 8 characters", b"");
    }
    let mut own_password = [0u8; 6];
    if rt.arg(password, &mut own_password).is_err() {
        return misused(rt, b"boot: PASSWORD has more than 6 characters", b"");
    }
    let login = Login {
        serial: &own_serial,
        name: &own_name,
        password: &own_password,
    };
    answer(rt, folder, &login)
}

// The command boot: what follows it is a folder, a serial number, a name and a password.
pub fn run<R: Env + Files + Print + Errors>(rt: &R, words: Range<usize>) -> Option<Status> {
    if words.len() != 4 {
        return misused(rt, b"boot: FOLDER SERIAL NAME PASSWORD", b"");
    }
    let mut folder = [0u8; NAME];
    let first = words.start;
    match rt.arg(first, &mut folder) {
        Ok(n) => log_in(rt, &folder[..n], [first + 1, first + 2, first + 3]),
        Err(_) => Some(refuse_name(rt, &folder)),
    }
}
