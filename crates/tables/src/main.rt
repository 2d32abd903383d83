// The ten tables. `tables` builds them, prints a line for each and checks them; `tables FILE` also writes them to FILE;
// `tables check FILE` reads such a file and checks it.
#![tactic(auto)]

ghost use Rattle.std.specs.Prelude.{◌≤◌, length};

use move_row::MoveTable;
use pruning_table::{PruneTable, move_begins};
use refusal::code;
use std::io::Write;
use std::rt::{Env, Files};
use std::{fs, io};
use table_io::inner::{
    PART, arg_count, fail, good, moves_room, none_refused, path_arg, path_room, path_text,
    prunes_room, read_file,
};

// ---- what is printed

// The part of a block from `at` on, `len` entries long.
fn part_of<T>(block: &[T], at: usize, len: usize) -> Option<&[T]> {
    block.get(at..)?.get(..len)
}

// The line of a move table: it has no distances.
fn print_moves(rt: &impl Print, t: MoveTable, moves: &[u16]) -> io::Result<()> {
    let len = t.rows() * t.columns();
    let Some(part) = part_of(moves, move_begins(t), len) else {
        return Ok(());
    };
    let number = t.number();
    let sum = checksum::sum16(part);
    println!(rt; "table {number} entries {len} greatest - sum {sum:016x}")
}

// The line of a pruning table.
fn print_prunes(rt: &impl Print, t: PruneTable, prunes: &[u8]) -> io::Result<()> {
    let len = t.first().rows() * t.second().rows();
    let Some(part) = part_of(prunes, t.begins(), len) else {
        return Ok(());
    };
    let number = t.number();
    let greatest = checksum::greatest(part);
    let sum = checksum::sum8(part);
    println!(rt; "table {number} entries {len} greatest {greatest} sum {sum:016x}")
}

// The ten lines.
fn print_tables(rt: &impl Print, moves: &[u16], prunes: &[u8]) -> io::Result<()> {
    for t in MoveTable::ALL {
        print_moves(rt, t, moves)?;
    }
    for t in PruneTable::ALL {
        print_prunes(rt, t, prunes)?;
    }
    Ok(())
}

// How many bytes a file of so many entries of 16 bits and so many bytes has; no memory holds as many as would wrap.
fn print_written(rt: &impl Print, entries: u64, bytes: u64) -> io::Result<()> {
    let double = entries.wrapping_add(entries);
    let size = double.wrapping_add(bytes);
    println!(rt; "written {size}")
}

// Checks the tables, says what was found, and whether they are good.
fn print_check(rt: &impl Print, moves: &[u16], prunes: &[u8]) -> io::Result<bool> {
    if !good(rt, moves, prunes)? {
        return Ok(false);
    }
    println!(rt; "check good")?;
    Ok(true)
}

// Builds the tables, prints their lines and checks them; whether they are good.
fn build(rt: &impl Print, moves: &mut [u16], prunes: &mut [u8]) -> io::Result<bool> {
    if !none_refused(rt, u64::from(code(table_io::build(moves, prunes))))? {
        return Ok(false);
    }
    print_tables(rt, moves, prunes)?;
    print_check(rt, moves, prunes)
}

// ---- the file

// Writes the entries of a part.
fn write_part(file: &mut impl Write, part: &[u16]) -> io::Result<()>
    requires { length part.now ≤ 32768 }
{
    let len = 2 * part.len();
    let mut room = [0u8; 65536];
    table_file::to_bytes(part, &mut room[..len]);
    file.write_all(&room[..len])
}

// Writes all entries, part by part.
fn write_moves(file: &mut impl Write, moves: &[u16]) -> io::Result<()> {
    for part in moves.chunks(PART) {
        write_part(file, part)?;
    }
    Ok(())
}

// Writes both blocks to a file that it makes, or empties first.
fn write_blocks(files: &impl Files, path: &str, moves: &[u16], prunes: &[u8]) -> io::Result<()> {
    let mut file = fs::create(files, path)?;
    write_moves(&mut file, moves)?;
    file.write_all(prunes)
}

// Writes both blocks and says how many bytes they are, or says that the file can't be written.
fn write_file<R: Files + Print + Eprint>(
    rt: &R,
    path: &[u8],
    moves: &[u16],
    prunes: &[u8],
) -> io::Result<()> {
    let Some(path) = path_text(rt, path)? else {
        return Ok(());
    };
    match write_blocks(rt, path, moves, prunes) {
        Ok(()) => print_written(rt, moves.len() as u64, prunes.len() as u64),
        Err(e) => fail(rt, path, e),
    }
}

// Reads a file and checks it; one of another size is refused with 10.
fn check_file<R: Files + Print + Eprint>(
    rt: &R,
    path: &[u8],
    moves: &mut [u16],
    prunes: &mut [u8],
) -> io::Result<()> {
    if read_file(rt, path, moves, prunes)? {
        print_check(rt, moves, prunes)?;
    }
    Ok(())
}

// ---- the arguments

fn print_usage(rt: &impl Eprint) -> io::Result<()> {
    eprintln!(rt; "usage: tables | tables FILE | tables check FILE")
}

// Whether a word is `check`.
fn is_check(word: &[u8]) -> bool {
    word == b"check".as_slice()
}

// `tables FILE`, where FILE isn't the word `check`.
fn run_write<R: Env + Files + Print + Eprint>(
    rt: &R,
    moves: &mut [u16],
    prunes: &mut [u8],
) -> io::Result<()> {
    let mut path = path_room();
    let Some(n) = path_arg(rt, 1, &mut path)? else {
        return Ok(());
    };
    if is_check(&path[..n]) {
        return print_usage(rt);
    }
    if build(rt, moves, prunes)? {
        write_file(rt, &path[..n], moves, prunes)?;
    }
    Ok(())
}

// Whether the first argument is the word `check`.
fn is_check_arg(rt: &impl Env) -> bool {
    let mut word = path_room();
    match rt.arg(1, &mut word) {
        Ok(n) => is_check(&word[..n]),
        Err(_) => false,
    }
}

// `tables check FILE`.
fn run_check<R: Env + Files + Print + Eprint>(
    rt: &R,
    moves: &mut [u16],
    prunes: &mut [u8],
) -> io::Result<()> {
    if !is_check_arg(rt) {
        return print_usage(rt);
    }
    let mut path = path_room();
    let Some(n) = path_arg(rt, 2, &mut path)? else {
        return Ok(());
    };
    check_file(rt, &path[..n], moves, prunes)
}

fn run<R: Env + Files + Print + Eprint>(
    rt: &R,
    moves: &mut [u16],
    prunes: &mut [u8],
) -> io::Result<()> {
    match arg_count(rt) {
        0 | 1 => {
            build(rt, moves, prunes)?;
            Ok(())
        }
        2 => run_write(rt, moves, prunes),
        3 => run_check(rt, moves, prunes),
        _ => print_usage(rt),
    }
}

fn main(rt: HostRuntime) -> io::Result<()> {
    let mut moves = moves_room();
    let mut prunes = prunes_room();
    run(&rt, &mut moves, &mut prunes)
}
