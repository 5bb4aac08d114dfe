// Lines of text on standard output. What is written no contract can say; that a function answers nothing, and for every input, it can.
// A write that fails is passed over.
#![tactic(auto)]

ghost use Rattle.std.specs.Prelude.{◌≡◌};

use names::Name;
use std::io::Stdout;
use std::iter;

// What parts the names of several lines.
const SPACE: u8 = b' ';

// Some text.
pub fn write(out: Stdout, text: &[u8])
    ensures { result ≡ tt }
{
    let _ = out.write_all(text);
}

// A number, in decimal.
pub fn write_number(out: Stdout, n: usize)
    ensures { result ≡ tt }
{
    let _ = print!(out; "{n}");
}

// A name, a number and a place.
pub fn head(out: Stdout, name: &[u8], number: usize, place: usize)
    ensures { result ≡ tt }
{
    write(out, name);
    let _ = println!(out; " {number} {place}");
}

// A name and a text.
pub fn text_line(out: Stdout, name: &[u8], text: &[u8])
    ensures { result ≡ tt }
{
    write(out, name);
    write(out, b" ");
    write(out, text);
    write(out, b"\n");
}

// A name and a number.
pub fn line(out: Stdout, name: &[u8], n: usize)
    ensures { result ≡ tt }
{
    write(out, name);
    let _ = println!(out; " {n}");
}

// Names, with a space between each two, and as many numbers: a line for each.
pub fn lines(out: Stdout, names: &[u8], values: &[usize])
    ensures { result ≡ tt }
{
    for (name, n) in names.split(|c| *c == SPACE).zip(values) {
        line(out, name, *n);
    }
}

// A name and a signed number.
pub fn signed_line(out: Stdout, name: &[u8], z: i64)
    ensures { result ≡ tt }
{
    write(out, name);
    let _ = println!(out; " {z}");
}

// A name and 64 bits, in hexadecimal.
pub fn bits_line(out: Stdout, name: &[u8], bits: u64)
    ensures { result ≡ tt }
{
    write(out, name);
    let _ = println!(out; " {bits:016x}");
}

// A name and what follows it on its line, which has n bytes: a dash for none.
fn begin_line(out: Stdout, name: &[u8], n: usize) {
    write(out, name);
    write(out, if n == 0 { b" -" } else { b" " });
}

// The bytes of the file from a place on; none where the place is past its end.
fn after(f: &[u8], place: usize) -> &[u8] {
    &f[place.min(f.len())..]
}

// An object's name in the file; a dash for one of no bytes. A byte past the end of the file counts as 0.
pub fn name_line(out: Stdout, name: &[u8], f: &[u8], shown: Name)
    ensures { result ≡ tt }
{
    begin_line(out, name, shown.bytes);
    let rest = after(f, shown.place).iter().copied();
    for b in rest.chain(iter::repeat(0)).take(shown.bytes) {
        write(out, &[b]);
    }
    write(out, b"\n");
}

// A message of n bytes that stands at a place of the file, in hexadecimal; a dash for none. A byte past the end of the file counts as 0.
pub fn message_line(out: Stdout, name: &[u8], f: &[u8], place: usize, n: usize)
    ensures { result ≡ tt }
{
    begin_line(out, name, n);
    let rest = after(f, place).iter().copied();
    for b in rest.chain(iter::repeat(0)).take(n) {
        let _ = print!(out; "{b:02x}");
    }
    write(out, b"\n");
}
