// The routes of a station: standard input is an X.2 file, standard output its verdict and then, of each start boundary, its routes (01,
// 'Routes').
#![tactic(auto)]

ghost use Rattle.std.specs.Prelude.{◌≤◌, length, IfOk};

use std::io;
use std::io::Read;

// A byte more than the longest file: a file that is as long is too long, whatever follows.
const MOST: usize = 65536;

// Reads until the room is full or the input ends. It answers how many bytes then stand at the front of the room.
// Stays (2): the library's `read_to_end` begins with short reads, and of input that comes in packets a short read loses what it leaves.
fn read_full(input: &mut impl Read, room: &mut [u8]) -> io::Result<usize>
    ensures { IfOk result (λ n. n ≤ length room.new) }
{
    let mut got = 0;
    while got < room.len() {
        let n = input.read(&mut room[got..])?;
        if n == 0 {
            break;
        }
        got += n;
    }
    Ok(got)
}

fn main(rt: HostRuntime) -> io::Result<()> {
    // Stays (6): a vector needs more memory than the room, and so could run out of it where the room does not.
    let mut room = [0u8; MOST];
    let n = read_full(&mut rt.stdin(), &mut room)?;
    listings::list(rt.stdout(), &room[..n]);
    Ok(())
}
