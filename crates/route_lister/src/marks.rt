// Whether an object stands in a path, for most objects without a search. The places of a file fall into cells, and the mark of a cell says
// which object of the path is the first that lies in it. A mark that says an object past the path's end, or one of another cell, is left
// from a walk that is done and counts for none; so no mark is ever taken back. This holds for any file: only the search decides.
ghost use Rattle.std.specs.Prelude.{◌≡◌, ◌+◌, ◌≤◌, ◌<◌, length, take, set};
ghost use Rattle.route_walks.specs.Walks.{has};
ghost use Rattle.route_walks.specs.Range.{limit_most};
ghost use Rattle.route_lister.specs.inner.Marks.{cells, cell_of, mark_of, told, mark_for, Marked};

use route_walks::stands_in;

// Stays (5): a struct of the path, its marks and n, with that they are right for it as its invariant, was proved too, beside a struct of the open
// choices; by the two the second lister took 631 us in place of 452, and the first 577 us in place of 651, on the yard of the row `routes` of
// tools/bench, without the verdict.
// How many cells there are.
pub const CELLS: usize = 2048;

// The cell that a place lies in.
fn cell_of(x: u16) -> usize
    ensures { (result ≡ cell_of x) × (result < cells) }
{
    x as usize % CELLS
}

// The mark of the cell of x.
fn mark_of(marks: &[u16; CELLS], x: u16) -> u16
    ensures { result ≡ mark_of marks.now x }
{
    let cell = cell_of(x);
    marks[cell]
}

// Whether that mark says one of the first n of a path, and one that lies in the cell of x.
fn is_told(path: &[u16], marks: &[u16; CELLS], n: usize, x: u16) -> bool
    requires { n ≤ length path.now }
    ensures { result ≡ told marks.now path.now n x }
{
    let i = mark_of(marks, x) as usize;
    if n <= i {
        return false;
    }
    cell_of(path[i]) == cell_of(x)
}

// Whether x stands among the first n of a path. Where the mark of its cell says none of them, no search is needed.
pub fn stands(path: &[u16], marks: &[u16; CELLS], n: usize, x: u16) -> bool
    requires { (n ≤ length path.now) × Marked marks.now path.now n }
    ensures { result ≡ has (take n path.now) x }
{
    if is_told(path, marks, n, x) {
        return stands_in(&path[..n], x);
    }
    false
}

// The mark of the cell of x once x stands after the first n of a path.
fn mark_for(path: &[u16], marks: &[u16; CELLS], n: usize, x: u16) -> u16
    requires { (n ≤ length path.now) × (n ≤ limit_most) }
    ensures { result ≡ mark_for marks.now path.now n x }
{
    if is_told(path, marks, n, x) {
        return mark_of(marks, x);
    }
    n as u16
}

// Puts x after the first n of a path, and keeps the marks right.
pub fn push(path: &mut [u16], marks: &mut [u16; CELLS], n: usize, x: u16)
    requires { (n < length path.old) × (n ≤ limit_most) × Marked marks.old path.old n }
    ensures put { path.new ≡ set path.old n x }
    ensures marked { Marked marks.new path.new (n + 1) }
{
    let mark = mark_for(path, marks, n, x);
    let cell = cell_of(x);
    marks[cell] = mark;
    path[n] = x;
}
