// Turns that solve a cube. `solve` builds the ten tables, `solve FILE` reads them from FILE, as `tables` writes it; both check them. Then
// standard input is read: a line of 54 stickers and, if wanted, a line with the limit and one with the budget. `solve net` reads standard
// input too, and needs no tables. What is printed is that of `solution::solution` and `solution::net`.
#![tactic(auto)]

use refusal::code;
use solution::Printed;
use std::io;
use std::rt::{Env, Files};
use table_io::inner::{
    arg_count, good, moves_room, none_refused, path_arg, path_room, prunes_room, read_file,
};

// One byte more than is taken, so that a longer input shows.
fn input_room() -> [u8; 1025] {
    [0; 1025]
}

// The text, which is never longer than its room.
fn print(rt: &impl Print, said: Printed) -> io::Result<()> {
    let text = said.text;
    let len = said.len;
    if len <= 256 {
        rt.write_all(&text[..len])?;
    }
    Ok(())
}

// Checks the tables, reads a cube and solves it.
fn solve_with<R: Input + Print>(rt: &R, moves: &[u16], prunes: &[u8]) -> io::Result<()> {
    if !good(rt, moves, prunes)? {
        return Ok(());
    }
    let mut input = input_room();
    let n = stream::read_full(&mut rt.reader(), &mut input)?;
    print(rt, solution::solution(&input[..n], moves, prunes))
}

// `solve net`.
fn run_net<R: Input + Print>(rt: &R) -> io::Result<()> {
    let mut input = input_room();
    let n = stream::read_full(&mut rt.reader(), &mut input)?;
    print(rt, solution::net(&input[..n]))
}

// ---- the arguments

fn print_usage(rt: &impl Eprint) -> io::Result<()> {
    eprintln!(rt; "usage: solve | solve FILE | solve net")
}

// Whether a word is `net`.
fn is_net(word: &[u8]) -> bool {
    word == b"net".as_slice()
}

// `solve`.
fn run_built<R: Input + Print>(rt: &R, moves: &mut [u16], prunes: &mut [u8]) -> io::Result<()> {
    if none_refused(rt, u64::from(code(table_io::build(moves, prunes))))? {
        solve_with(rt, moves, prunes)?;
    }
    Ok(())
}

// `solve FILE`, or `solve net`.
fn run_word<R: Env + Files + Input + Print + Eprint>(
    rt: &R,
    moves: &mut [u16],
    prunes: &mut [u8],
) -> io::Result<()> {
    let mut word = path_room();
    let Some(n) = path_arg(rt, 1, &mut word)? else {
        return Ok(());
    };
    if is_net(&word[..n]) {
        return run_net(rt);
    }
    if read_file(rt, &word[..n], moves, prunes)? {
        solve_with(rt, moves, prunes)?;
    }
    Ok(())
}

fn run<R: Env + Files + Input + Print + Eprint>(
    rt: &R,
    moves: &mut [u16],
    prunes: &mut [u8],
) -> io::Result<()> {
    match arg_count(rt) {
        0 | 1 => run_built(rt, moves, prunes),
        2 => run_word(rt, moves, prunes),
        _ => print_usage(rt),
    }
}

fn main(rt: HostRuntime) -> io::Result<()> {
    let mut moves = moves_room();
    let mut prunes = prunes_room();
    run(&rt, &mut moves, &mut prunes)
}
