// Do these moves solve this cube? Standard input holds a line of 54 stickers and a line of moves; what is printed is `judgement::judge`'s.
#![tactic(auto)]

use std::io;

fn main(rt: HostRuntime) -> io::Result<()> {
    // one byte more than is taken, so that a longer input shows
    let mut input = [0; 1025];
    let n = stream::read_full(&mut rt.reader(), &mut input)?;
    let said = judgement::judge(&input[..n]);
    rt.write_all(&said.text[..said.len])
}
