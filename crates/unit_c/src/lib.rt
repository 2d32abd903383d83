// The C interface, for the trainer's firmware and for Rust (include/tsunghawi.h): each function is `unit`'s of the same name, by its clauses.
#![tactic(auto)]

ghost use Rattle.std.specs.Prelude.{◌≡◌};
ghost use Rattle.calls.specs.Calls.{Leaves, mul_call, move_call, moves_call, solved_call, solvable_call, counts_call, inverse_move_call, of_two_call};
ghost use Rattle.coordinate.specs.Calls.{index_number, index_left, arrange_number, arrange_left};
ghost use Rattle.refusal.specs.Refusals.{code, value_or};
ghost use Rattle.stickers.specs.Reader.{read_plain, read_strict};
ghost use Rattle.moves.specs.Moves.{is_inverse, is_same_layer, is_available};
ghost use Rattle.words.specs.Answers.{parsed_text, parsed_room, written_text, written_room};
ghost use Rattle.words.specs.Text.{text_of};
ghost use Rattle.texts.specs.Judge.{judge_number, judge_room, judge_count};
ghost use Rattle.texts.specs.Stickers.{read_call, picture_call};
ghost use Rattle.table_calls.specs.Calls.{table_number, table_left, block_number, block_left, PruneCall, PairsCall, PrunesCall, CheckCall};
ghost use Rattle.search_calls.specs.Calls.{solve_number, first_left, second_left};

// The product of two cubes of 40 bytes each: cp 8, co 8, ep 12, eo 12.
#[unsafe(no_mangle)]
pub extern "C" fn tsunghawi_mul(a: &[u8], b: &[u8], out: &mut [u8]) -> u8
    ensures { Leaves (mul_call a.now b.now out.old) result out.new }
{
    unit::tsunghawi_mul(a, b, out)
}

// The cube after one move.
#[unsafe(no_mangle)]
pub extern "C" fn tsunghawi_apply_move(cube: &[u8], m: u8, out: &mut [u8]) -> u8
    ensures { Leaves (move_call cube.now m out.old) result out.new }
{
    unit::tsunghawi_apply_move(cube, m, out)
}

// The cube after a list of moves, a byte each.
#[unsafe(no_mangle)]
pub extern "C" fn tsunghawi_apply_moves(cube: &[u8], moves: &[u8], out: &mut [u8]) -> u8
    ensures { Leaves (moves_call cube.now moves.now out.old) result out.new }
{
    unit::tsunghawi_apply_moves(cube, moves, out)
}

// Whether a cube is solved: one byte, 1 or 0.
#[unsafe(no_mangle)]
pub extern "C" fn tsunghawi_is_solved(cube: &[u8], out: &mut [u8]) -> u8
    ensures { Leaves (solved_call cube.now out.old) result out.new }
{
    unit::tsunghawi_is_solved(cube, out)
}

// Whether a cube is solvable: one byte, 1 or 0.
#[unsafe(no_mangle)]
pub extern "C" fn tsunghawi_is_solvable(cube: &[u8], out: &mut [u8]) -> u8
    ensures { Leaves (solvable_call cube.now out.old) result out.new }
{
    unit::tsunghawi_is_solvable(cube, out)
}

// The four counts, a byte each: corner twists, edge flips, corner swaps, edge swaps.
#[unsafe(no_mangle)]
pub extern "C" fn tsunghawi_counts(cube: &[u8], out: &mut [u8]) -> u8
    ensures { Leaves (counts_call cube.now out.old) result out.new }
{
    unit::tsunghawi_counts(cube, out)
}

// The move that takes `m` back: one byte.
#[unsafe(no_mangle)]
pub extern "C" fn tsunghawi_get_inverse(m: u8, out: &mut [u8]) -> u8
    ensures { Leaves (inverse_move_call m out.old) result out.new }
{
    unit::tsunghawi_get_inverse(m, out)
}

#[unsafe(no_mangle)]
pub extern "C" fn tsunghawi_is_inverse(m: u8, other: u8, out: &mut [u8]) -> u8
    ensures { Leaves (of_two_call is_inverse m other out.old) result out.new }
{
    unit::tsunghawi_is_inverse(m, other, out)
}

#[unsafe(no_mangle)]
pub extern "C" fn tsunghawi_is_same_layer(m: u8, other: u8, out: &mut [u8]) -> u8
    ensures { Leaves (of_two_call is_same_layer m other out.old) result out.new }
{
    unit::tsunghawi_is_same_layer(m, other, out)
}

// Whether `current` may follow `prev`: one byte, 1 or 0.
#[unsafe(no_mangle)]
pub extern "C" fn tsunghawi_is_move_available(prev: u8, current: u8, out: &mut [u8]) -> u8
    ensures { Leaves (of_two_call is_available prev current out.old) result out.new }
{
    unit::tsunghawi_is_move_available(prev, current, out)
}

// The cube that 54 stickers are read as, as kewb reads: what matches no piece is taken for the solved one.
#[unsafe(no_mangle)]
pub extern "C" fn tsunghawi_read_plain(stickers: &[u8], out: &mut [u8]) -> u8
    ensures { Leaves (read_call read_plain stickers.now out.old) result out.new }
{
    unit::tsunghawi_read_plain(stickers, out)
}

// The cube whose picture the 54 stickers are, and no other.
#[unsafe(no_mangle)]
pub extern "C" fn tsunghawi_read_strict(stickers: &[u8], out: &mut [u8]) -> u8
    ensures { Leaves (read_call read_strict stickers.now out.old) result out.new }
{
    unit::tsunghawi_read_strict(stickers, out)
}

// The 54 stickers of a cube.
#[unsafe(no_mangle)]
pub extern "C" fn tsunghawi_picture(cube: &[u8], out: &mut [u8]) -> u8
    ensures { Leaves (picture_call cube.now out.old) result out.new }
{
    unit::tsunghawi_picture(cube, out)
}

// The moves of a text, in the first places of `list`, and how many they are.
#[unsafe(no_mangle)]
pub extern "C" fn tsunghawi_scramble_from_str(text: &[u8], list: &mut [u8], count: &mut usize) -> u8
    ensures value { result ≡ code (parsed_text text.now list.old) }
    ensures list_after { list.new ≡ parsed_room text.now list.old }
    ensures count_after { count.new ≡ value_or count.old (parsed_text text.now list.old) }
{
    unit::tsunghawi_scramble_from_str(text, list, count)
}

// The text of a list of moves, in the first bytes of `text`, and how many they are.
#[unsafe(no_mangle)]
pub extern "C" fn tsunghawi_scramble_to_str(list: &[u8], text: &mut [u8], count: &mut usize) -> u8
    ensures value { result ≡ code (written_text list.now (text_of list.now) text.old) }
    ensures text_after { text.new ≡ written_room list.now (text_of list.now) text.old }
    ensures count_after { count.new ≡ value_or count.old (written_text list.now (text_of list.now) text.old) }
{
    unit::tsunghawi_scramble_to_str(list, text, count)
}

// Whether moves solve a cube: what the program `judge` prints for `input`, in the first of 64 bytes, and how many they are.
#[unsafe(no_mangle)]
pub extern "C" fn tsunghawi_judge(input: &[u8], out: &mut [u8], count: &mut usize) -> u8
    ensures value { result ≡ judge_number out.old }
    ensures out_after { out.new ≡ judge_room input.now out.old }
    ensures count_after { count.new ≡ judge_count input.now out.old count.old }
{
    unit::tsunghawi_judge(input, out, count)
}

// The number of an arrangement, `kind` being 0 co, 1 eo, 2 e_combo, 3 cp, 4 ud_ep, 5 e_ep, 6 ep: 8 places for co and cp, else 12.
#[unsafe(no_mangle)]
pub extern "C" fn tsunghawi_arrangement_to_index(kind: u8, places: &[u8], number: &mut u32) -> u8
    ensures value { result ≡ index_number kind places.now }
    ensures number_after { number.new ≡ index_left kind places.now number.old }
{
    unit::tsunghawi_arrangement_to_index(kind, places, number)
}

// The arrangement of a number, of the same kinds.
#[unsafe(no_mangle)]
pub extern "C" fn tsunghawi_index_to_arrangement(kind: u8, number: u32, places: &mut [u8]) -> u8
    ensures value { result ≡ arrange_number kind number places.old }
    ensures places_after { places.new ≡ arrange_left kind number places.old }
{
    unit::tsunghawi_index_to_arrangement(kind, number, places)
}

// Move table t, 0 to 5.
#[unsafe(no_mangle)]
pub extern "C" fn tsunghawi_get_move_table(t: u8, table: &mut [u16]) -> u8
    ensures value { result ≡ table_number t table.old }
    ensures table_after { table.new ≡ table_left t table.old }
{
    unit::tsunghawi_get_move_table(t, table)
}

// All six move tables in one block.
#[unsafe(no_mangle)]
pub extern "C" fn tsunghawi_get_move_tables(moves: &mut [u16]) -> u8
    ensures value { result ≡ block_number moves.old }
    ensures moves_after { moves.new ≡ block_left moves.old }
{
    unit::tsunghawi_get_move_tables(moves)
}

// Pruning table t, 6 to 9, by its two move tables. After 14 the lent table is changed: pairs out of reach hold 255.
#[unsafe(no_mangle)]
pub extern "C" fn tsunghawi_get_prune_table(
    t: u8,
    first: &[u16],
    second: &[u16],
    table: &mut [u8],
) -> u8
    ensures { PruneCall t first.now second.now table.old table.new result }
{
    unit::tsunghawi_get_prune_table(t, first, second, table)
}

// A pruning table by two move tables of any numbers of rows, 1 to 65,536 each, and of up to 256 moves.
#[unsafe(no_mangle)]
pub extern "C" fn tsunghawi_get_pairs_table(
    first: &[u16],
    second: &[u16],
    table: &mut [u8],
    rows1: usize,
    rows2: usize,
    moves: usize,
) -> u8
    ensures { PairsCall first.now second.now rows1 rows2 moves table.old table.new result }
{
    unit::tsunghawi_get_pairs_table(first, second, table, rows1, rows2, moves)
}

// All four pruning tables in one block, by the block of move tables. After 14 the lent block is changed in the same way.
#[unsafe(no_mangle)]
pub extern "C" fn tsunghawi_get_prune_tables(moves: &[u16], prunes: &mut [u8]) -> u8
    ensures { PrunesCall moves.now prunes.old prunes.new result }
{
    unit::tsunghawi_get_prune_tables(moves, prunes)
}

// The check of all ten tables: 0, 10, or 13 + 256 * the lowest bad table + 65536 * its lowest bad entry; the low byte is the paper's number.
#[unsafe(no_mangle)]
pub extern "C" fn tsunghawi_check_tables(moves: &[u16], prunes: &[u8]) -> u64
    ensures { CheckCall moves.now prunes.now result }
{
    unit::tsunghawi_check_tables(moves, prunes)
}

// Turns that solve the cube of 40 bytes, in two rooms of 31 bytes each, which only a solved answer writes. Returned is the paper's number in
// the low byte; then 0 solved, 1 none or 2 spent; then the lengths of the two lists, a byte each; and above them, in 32 bits, the entries made.
#[unsafe(no_mangle)]
pub extern "C" fn tsunghawi_solve(
    cube: &[u8],
    limit: u8,
    budget: u32,
    moves: &[u16],
    prunes: &[u8],
    one: &mut [u8],
    two: &mut [u8],
) -> u64
    ensures value { result ≡ solve_number cube.now limit budget moves.now prunes.now one.old two.old }
    ensures one_after { one.new ≡ first_left cube.now limit budget moves.now prunes.now one.old two.old }
    ensures two_after { two.new ≡ second_left cube.now limit budget moves.now prunes.now one.old two.old }
{
    unit::tsunghawi_solve(cube, limit, budget, moves, prunes, one, two)
}
