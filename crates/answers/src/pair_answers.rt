// The answer about a pair of files.
ghost use Rattle.std.specs.Prelude.{◌≡◌};
ghost use Rattle.verdict.specs.Reasons.{number_of, pair_number_in};
ghost use Rattle.pair.specs.Pair.{pair_of};

use std::io::Stdout;
use text::{write, write_number};
use verdict::PairFault;

// A text, and a number.
fn write_with(out: Stdout, text: &[u8], n: usize) {
    write(out, text);
    write_number(out, n);
}

// The first line of an answer about a pair.
pub fn pair_head(out: Stdout, number: usize, place: usize, file: usize) {
    write_with(out, b"answer ", number);
    write_with(out, b" ", place);
    write_with(out, b" ", file);
    write(out, b"\n");
}

// A refusal about a pair.
pub fn pair_refused(out: Stdout, p: PairFault) -> usize
    ensures { result ≡ number_of p.fault.reason }
{
    let file = p.file;
    let fault = p.fault;
    let n = fault.number();
    pair_head(out, n, fault.place, file.number());
    n
}

// The question pair.
pub fn pair(out: Stdout, first: &[u8], second: &[u8]) -> usize
    ensures { result ≡ pair_number_in (pair_of first.now second.now) }
{
    match pair::pair_verdict(first, second) {
        Ok(()) => {
            pair_head(out, 0, 0, 0);
            0
        }
        Err(p) => pair_refused(out, p),
    }
}
