// Standard error: text, numbers, and what is wrong with a command. What is written no contract can say; that a function answers nothing, and for
// every input, it can.
ghost use Rattle.std.specs.Prelude.{◌≡◌};

use std::io::Stderr;
use std::rt::Env;

// The longest word of a command that is shown.
const WORD_ROOM: usize = 4096;

// Some text.
pub fn say(err: Stderr, text: &[u8])
    ensures { result ≡ tt }
{
    let _ = err.write_all(text);
}

// A number, in decimal.
pub fn say_number(err: Stderr, n: usize)
    ensures { result ≡ tt }
{
    let _ = print!(err; "{n}");
}

// What is wrong with the command of a program.
pub fn wrong(err: Stderr, program: &[u8], why: &[u8])
    ensures { result ≡ tt }
{
    say(err, program);
    say(err, b": ");
    say(err, why);
    say(err, b"\n");
}

// What is wrong with a word of it, and the word.
pub fn wrong_word(rt: HostRuntime, program: &[u8], why: &[u8], i: usize)
    ensures { result ≡ tt }
{
    let mut word = [0u8; WORD_ROOM];
    let n = rt.arg(i, &mut word).unwrap_or(0);
    let err = rt.stderr();
    say(err, program);
    say(err, b": ");
    say(err, why);
    say(err, b" '");
    say(err, &word[..n]);
    say(err, b"'\n");
}
