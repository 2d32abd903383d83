// What is read from a file, and what is said of it on standard output. What a file holds is known to no contract: lengths stay, and the
// check that follows decides.
ghost use Rattle.std.specs.Prelude.{◌≡◌, ◌≤◌, ◌<◌, eqb, length, IfOk, IfSome};
ghost use Rattle.table_io.specs.Both.{GoodCall};

use std::env::FillError;
use std::fmt::Display;
use std::io::Read;
use std::rt::{Env, Files};
use std::str::from_utf8;
use std::{fs, io};

// ---- what is said

// `refused` and the refusal's number, in the low byte; after 13 the table and the entry, above it: the word that the check gives C.
fn print_refused(rt: &impl Print, n: u64) -> io::Result<()> {
    let number = n % 256;
    print!(rt; "refused {number}")?;
    if number == 13 {
        let table = n / 256 % 256;
        let entry = n / 65536;
        print!(rt; " table {table} entry {entry}")?;
    }
    print!(rt; "\n")
}

// Says a refusal; whether there was none.
pub fn none_refused(rt: &impl Print, n: u64) -> io::Result<bool>
    ensures { IfOk result (λ none. none ≡ eqb n 0) }
{
    if n != 0 {
        print_refused(rt, n)?;
    }
    Ok(is_none(n))
}

// Whether a number is that of no refusal.
fn is_none(n: u64) -> bool
    ensures { result ≡ eqb n 0 }
{
    n == 0
}

// Checks both blocks and says a refusal; whether they are good.
pub fn good(rt: &impl Print, moves: &[u16], prunes: &[u8]) -> io::Result<bool>
    ensures { IfOk result (λ good. GoodCall moves.now prunes.now good) }
{
    none_refused(rt, table_calls::check_tables(moves, prunes))
}

// Says on standard error why something can't be used.
pub fn fail(
    rt: &impl Eprint,
    what: impl Display + Drop,
    reason: impl Display + Drop,
) -> io::Result<()> {
    eprintln!(rt; "{what}: {reason}")
}

// ---- the arguments

// Room for a path.
pub fn path_room() -> [u8; 4096] {
    [0; 4096]
}

// How many arguments there are, the program's name among them; 4 stands for more than 3.
pub fn arg_count(rt: &impl Env) -> usize {
    for i in 0..4 {
        let mut start = [0u8; 1];
        if let Err(FillError::NotPresent) = rt.arg(i, &mut start) {
            return i;
        }
    }
    4
}

// An argument that names a file, at the start of `room`, and its length; none, said on standard error, where it is too long.
pub fn path_arg<R: Env + Eprint>(rt: &R, i: usize, room: &mut [u8]) -> io::Result<Option<usize>>
    ensures { IfOk result (λ n. IfSome n (λ k. k ≤ length room.new)) }
{
    match rt.arg(i, room) {
        Ok(n) => Ok(Some(n)),
        Err(_) => {
            fail(rt, "FILE", "File name too long")?;
            Ok(None)
        }
    }
}

// ---- the blocks

// Room for the block of move tables, and for that of pruning tables.
pub fn moves_room() -> [u16; 891780] {
    [0; 891780]
}

pub fn prunes_room() -> [u8; 4031685] {
    [0; 4031685]
}

// ---- the file

// A path as text, as files are named by; none, said on standard error, where it is no text.
pub fn path_text<'a>(rt: &impl Eprint, path: &'a [u8]) -> io::Result<Option<&'a str>> {
    match from_utf8(path) {
        Ok(text) => Ok(Some(text)),
        Err(_) => {
            fail(rt, path.escape_ascii(), "The path is not UTF-8")?;
            Ok(None)
        }
    }
}

// How many entries are read or written at once: their bytes fill a room of 65536.
pub const PART: usize = 32768;

// Reads the entries of a part; false where the file ends before.
fn read_part(file: &mut impl Read, part: &mut [u16]) -> io::Result<bool>
    requires { length part.old ≤ 32768 }
{
    let len = 2 * part.len();
    let mut room = [0u8; 65536];
    if stream::read_full(file, &mut room[..len])? != len {
        return Ok(false);
    }
    Ok(table_file::from_bytes(&room[..len], part))
}

// Reads all entries, part by part.
fn read_moves(file: &mut impl Read, moves: &mut [u16]) -> io::Result<bool> {
    for part in moves.chunks_mut(PART) {
        if !read_part(file, part)? {
            return Ok(false);
        }
    }
    Ok(true)
}

// Reads both blocks; whether the file holds them and nothing more.
fn read_blocks(file: &mut impl Read, moves: &mut [u16], prunes: &mut [u8]) -> io::Result<bool> {
    if !read_moves(file, moves)? {
        return Ok(false);
    }
    if stream::read_full(file, prunes)? != prunes.len() {
        return Ok(false);
    }
    let mut more = [0u8; 1];
    Ok(stream::read_full(file, &mut more)? == 0)
}

// Opens a file to read; none, said on standard error, where it can't be.
fn open_read<R: Files + Eprint>(rt: &R, path: &[u8]) -> io::Result<Option<R::File>> {
    let Some(path) = path_text(rt, path)? else {
        return Ok(None);
    };
    match fs::open(rt, path) {
        Ok(file) => Ok(Some(file)),
        Err(e) => {
            fail(rt, path, e)?;
            Ok(None)
        }
    }
}

// Reads a file of both blocks, and whether it was one. One of another size is refused with 10; what can't be opened is said on standard error.
pub fn read_file<R: Files + Print + Eprint>(
    rt: &R,
    path: &[u8],
    moves: &mut [u16],
    prunes: &mut [u8],
) -> io::Result<bool>
    ensures moves_len_unchanged { length moves.new ≡ length moves.old }
    ensures prunes_len_unchanged { length prunes.new ≡ length prunes.old }
{
    let Some(mut file) = open_read(rt, path)? else {
        return Ok(false);
    };
    let whole = read_blocks(&mut file, moves, prunes)?;
    if !whole {
        print_refused(rt, 10)?;
    }
    Ok(whole)
}
