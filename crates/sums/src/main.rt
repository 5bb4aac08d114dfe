// Reads cases from standard input until it ends, each a length in four bytes, low byte first, and that many bytes, and prints the
// length and the checksum of each, one line a case. A case that is too long or cut short ends the run with a line on standard error.
#![tactic(auto)]

ghost use Rattle.std.specs.Prelude.{◌≤◌, ◌<◌, length, IfOk};

use std::io;
use std::io::{Read, Stderr, Stdout};

// A file is at most 65,535 bytes.
const LONGEST: usize = 65535;

// The bytes of a case's length.
const LENGTH: usize = 4;

// Says why the run ends. It answers false: there is no next case.
fn stop(err: Stderr, why: &[u8]) -> io::Result<bool> {
    err.write_all(why)?;
    Ok(false)
}

// Prints a case's line.
fn print_line(out: Stdout, s: &[u8]) -> io::Result<()> {
    let n = s.len();
    let sum = checksum::of(s);
    println!(out; "{n} {sum}")
}

// Reads until the room is full or the input ends. It answers how many bytes then stand at the front of the room.
// Stays (3): `got` is no index: a read gives as many bytes as it has, and `read_exact` does not say how many came before the input's end.
fn read_full(input: &mut impl Read, room: &mut [u8]) -> io::Result<usize>
    ensures { IfOk result (λ n. n ≤ length room.new) }
{
    let mut got = 0;
    while got < room.len() {
        let n = input.read(&mut room[got..])?;
        if n == 0 {
            break;
        }
        got += n;
    }
    Ok(got)
}

// Reads a case's bytes, as many as there is room for, and prints its line. It answers whether there may be a next case.
fn print_case(
    input: &mut impl Read,
    out: Stdout,
    err: Stderr,
    room: &mut [u8],
) -> io::Result<bool> {
    let got = read_full(input, room)?;
    if got < room.len() {
        return stop(err, b"sums: the input ends inside a case\n");
    }
    print_line(out, room)?;
    Ok(true)
}

// The same for a case of n bytes.
fn case_of(input: &mut impl Read, out: Stdout, err: Stderr, n: usize) -> io::Result<bool>
    requires { n ≤ 65535 }
{
    let mut buffer = [0u8; LONGEST];
    print_case(input, out, err, &mut buffer[..n])
}

// Reads and prints a case. It answers whether there may be a next one.
fn next_case(input: &mut impl Read, out: Stdout, err: Stderr) -> io::Result<bool> {
    let mut length = [0u8; LENGTH];
    let got = read_full(input, &mut length)?;
    if got == 0 {
        return Ok(false);
    }
    if got < LENGTH {
        return stop(err, b"sums: the input ends inside a case's length\n");
    }
    let n = u32::from_le_bytes(length) as usize;
    if n > LONGEST {
        return stop(err, b"sums: a case is over 65535 bytes long\n");
    }
    case_of(input, out, err, n)
}

// A proved loop has to end, and nothing says that the input does: it stops after as many cases as no run has.
fn main(rt: HostRuntime) -> io::Result<()> {
    let mut input = rt.stdin();
    for _ in 0..u64::MAX {
        if !next_case(&mut input, rt.stdout(), rt.stderr())? {
            break;
        }
    }
    Ok(())
}
