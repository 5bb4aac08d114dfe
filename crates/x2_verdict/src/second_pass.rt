// The second pass over the records of a file whose layout is right: whether the links of each obey, kind by kind in stored order. Every
// place that a link may name is marked. It stops at the first record whose links do not obey.
ghost use Rattle.std.specs.Prelude.{◌≡◌, true, ℕ, ◌+◌, ◌≤◌, ◌<◌, length, IfSome};
ghost use Rattle.verdict.specs.Facts.{same, either, denied, test};
ghost use Rattle.tables.specs.Table.{field_place};
ghost use Rattle.x2_records.specs.declared.Kind.TheVariants as kind;
ghost use Rattle.x2_records.specs.Places.{balise_size, boundary_size, turnout_size};
ghost use Rattle.x2_records.specs.Rows as row;
ghost use Rattle.x2_records.specs.Records.{link_places};
ghost use Rattle.x2_layout.specs.inner.Regions.{Whole};
ghost use Rattle.x2_links.specs.Links.{link_at, links_to, is_member};
ghost use Rattle.x2_verdict.specs.inner.Passes.{Sort, LinkHolds, NextHolds, LinksHold, MemberHolds, RecordLinked, aims, link_kind, Linking, AllLinked};

use crate::inside::{byte_of, link_at};
use crate::kind_passes::{EndBoundaries, Plain, StartBoundaries};
use crate::marked::Marked;
use tables::{bits_of, equals};
use x2_links::is_target;
use x2_records::{Balise, Boundary, Joint, Signal, Turnout};

// The previous object of a balise, a signal or a joint that lies inside the file.
fn previous_of(f: &[u8], at: usize) -> u16
    requires { at + balise_size ≤ length f.now }
    ensures { result ≡ link_at f.now (field_place at row.balise_previous) }
{
    link_at(f, at + Balise::PREVIOUS.0 as usize)
}

// The next object of a balise, a signal or a joint that lies inside the file.
fn next_of(f: &[u8], at: usize) -> u16
    requires { at + balise_size ≤ length f.now }
    ensures { result ≡ link_at f.now (field_place at row.balise_next) }
{
    link_at(f, at + Balise::NEXT.0 as usize)
}

// A link is 0, or is not this one.
fn is_another(x: u16, y: u16) -> bool
    ensures { result ≡ test (either (same x 0) (denied (same y x))) }
{
    (x == 0) | (y != x)
}

// A balise that lies inside the file is of place above 1.
fn is_member(f: &[u8], at: usize) -> bool
    requires { at + balise_size ≤ length f.now }
    ensures { result ≡ is_member f.now kind.Balise at }
{
    bits_of(byte_of(f, at, Balise::GROUP), Balise::RANK) != 0
}

impl Marked<'_> {
    // Some link of the boundary or the turnout at x, which a link may name, names `at`.
    fn points_back(&self, x: u16, at: usize) -> bool
        ensures { result ≡ true → x < self.now.l.balises → test (links_to self.now.f.now (link_kind self.now.l x) x at) ≡ true }
    {
        let place = x as usize;
        let start = x as u32;
        if place < self.l.turnouts {
            if self.f.len() < place + Boundary::SIZE {
                return false;
            }
            return equals(self.f, start, Boundary::LINK, at);
        }
        if self.f.len() < place + Turnout::SIZE {
            return false;
        }
        let front = equals(self.f, start, Turnout::FRONT, at);
        let normal = equals(self.f, start, Turnout::NORMAL, at);
        front | (normal | equals(self.f, start, Turnout::REVERSE, at))
    }

    // Some link of the record at x, which a link may name, names `at`. Balises, signals and joints have their links in the same places.
    fn names_back(&self, x: u16, at: usize) -> bool
        ensures { result ≡ true → test (links_to self.now.f.now (link_kind self.now.l x) x at) ≡ true }
    {
        let place = x as usize;
        if place < self.l.balises {
            return self.points_back(x, at);
        }
        if self.f.len() < place + Balise::SIZE {
            return false;
        }
        if previous_of(self.f, place) as usize == at {
            return true;
        }
        next_of(self.f, place) as usize == at
    }

    // The link x, of the record at `at`, is 0, or names a record that it may, and not its own.
    fn aims_right(&self, at: usize, x: u16) -> bool
        ensures { result ≡ aims self.now.marks.now at x }
    {
        (x == 0) | ((x as usize != at) & is_target(self.marks, x))
    }

    // The link x, of the record at `at`, is 0, or aims right and is returned.
    fn link_obeys(&self, at: usize, x: u16) -> bool
        ensures { result ≡ true → LinkHolds self.now.f.now self.now.l at x }
    {
        if x == 0 {
            return true;
        }
        if x as usize == at {
            return false;
        }
        if !is_target(self.marks, x) {
            return false;
        }
        self.names_back(x, at)
    }

    // The link y, of the record at `at`, is 0, or obeys and is not the link x.
    fn next_obeys(&self, at: usize, x: u16, y: u16) -> bool
        ensures { result ≡ true → NextHolds self.now.f.now self.now.l at x y }
    {
        if y == 0 {
            return true;
        }
        if y == x {
            return false;
        }
        self.link_obeys(at, y)
    }

    // The link of a boundary that lies inside the file.
    fn boundary_obeys(&self, at: usize) -> bool
        requires { at + boundary_size ≤ length self.now.f.now }
        ensures { result ≡ true → (before : ℕ) → RecordLinked self.now.f.now self.now.l before kind.StartBoundary at }
    {
        let x = link_at(self.f, at + Boundary::LINK.0 as usize);
        if x == 0 {
            return false;
        }
        self.link_obeys(at, x)
    }

    // The links of a turnout that lies inside the file: front, normal and reverse.
    fn turnout_obeys(&self, at: usize) -> bool
        requires { at + turnout_size ≤ length self.now.f.now }
        ensures { result ≡ true → (before : ℕ) → RecordLinked self.now.f.now self.now.l before kind.Turnout at }
    {
        let x = link_at(self.f, at + Turnout::FRONT.0 as usize);
        let y = link_at(self.f, at + Turnout::NORMAL.0 as usize);
        let z = link_at(self.f, at + Turnout::REVERSE.0 as usize);
        if !self.link_obeys(at, x) {
            return false;
        }
        if !self.link_obeys(at, y) {
            return false;
        }
        if !self.link_obeys(at, z) {
            return false;
        }
        is_another(y, x) & (is_another(z, x) & is_another(z, y))
    }

    // The links of a signal, a joint or a balise of place 1 that lies inside the file: previous and next. Each loop is quicker with its own copy.
    #[inline(always)]
    fn plain_obeys(&self, at: usize) -> bool
        requires { at + balise_size ≤ length self.now.f.now }
        ensures { result ≡ true → LinksHold self.now.f.now self.now.l at (link_places kind.Balise at) }
    {
        let x = previous_of(self.f, at);
        let y = next_of(self.f, at);
        if !self.link_obeys(at, x) {
            return false;
        }
        self.next_obeys(at, x, y)
    }

    // The links of a balise of place above 1 that lies inside the file aim right, and are those of the record at `before`.
    fn member_obeys(&self, before: u32, at: usize) -> bool
        requires { at + balise_size ≤ length self.now.f.now }
        ensures { result ≡ true → MemberHolds self.now.f.now self.now.l before at }
    {
        let place = before as usize;
        if self.f.len() < place + Balise::SIZE {
            return false;
        }
        let x = previous_of(self.f, at);
        let y = next_of(self.f, at);
        if x != previous_of(self.f, place) {
            return false;
        }
        if y != next_of(self.f, place) {
            return false;
        }
        self.aims_right(at, x) & self.aims_right(at, y)
    }

    // The links of a balise that lies inside the file, after the record at `before`.
    fn balise_obeys(&self, before: u32, at: usize) -> bool
        requires { at + balise_size ≤ length self.now.f.now }
        ensures { result ≡ true → RecordLinked self.now.f.now self.now.l before kind.Balise at }
    {
        if is_member(self.f, at) {
            return self.member_obeys(before, at);
        }
        self.plain_obeys(at)
    }
}

// ---- the records of each kind

// A kind of records that all have one size, and links.
pub trait Linked: Plain {
    // The links of a record that lies inside the file obey.
    fn links_obey(m: &Marked, at: usize) -> bool
        requires { at + Self.BYTES ≤ length m.now.f.now }
        ensures { result ≡ true → (before : ℕ) → RecordLinked m.now.f.now m.now.l before Self.sort at };
}

impl Linked for StartBoundaries {
    fn links_obey(m: &Marked, at: usize) -> bool {
        m.boundary_obeys(at)
    }
}

impl Linked for EndBoundaries {
    fn links_obey(m: &Marked, at: usize) -> bool {
        m.boundary_obeys(at)
    }
}

impl Linked for Turnout {
    fn links_obey(m: &Marked, at: usize) -> bool {
        m.turnout_obeys(at)
    }
}

impl Linked for Signal {
    fn links_obey(m: &Marked, at: usize) -> bool {
        m.plain_obeys(at)
    }
}

impl Linked for Joint {
    fn links_obey(m: &Marked, at: usize) -> bool {
        m.plain_obeys(at)
    }
}

// The links of the records of a kind, which stand from a place to another, after the record at `before`: where the last record starts, if
// they obey.
fn kind_links<K: Linked>(m: &Marked, from: usize, until: usize, before: u32) -> Option<u32>
    requires { Sort m.now.l K.sort from until × Whole K.BYTES from until × Linking m.now.f.now m.now.l before from }
    ensures { IfSome result (λ last. Linking m.now.f.now m.now.l last until) }
{
    let mut last = before;
    for at in (from..until).step_by(K::BYTES) {
        if !K::links_obey(m, at) {
            return None;
        }
        last = at as u32;
    }
    Some(last)
}

// The links of the balises, which stand from a place to another. From `stop` on none has room before that place. No balise of a right layout
// has a size byte under 16.
fn balise_links(m: &Marked, from: usize, until: usize, before: u32) -> Option<u32>
    requires { Sort m.now.l kind.Balise from until × Linking m.now.f.now m.now.l before from }
    ensures { IfSome result (λ last. Linking m.now.f.now m.now.l last until) }
{
    let mut last = before;
    let mut at = from;
    let stop = until.saturating_sub(Balise::SIZE - 1);
    // Stays (3): no plainer; a step is the size of the balise just read, which no range counts by, and an iterator of our own is longer.
    while at < stop {
        if !m.balise_obeys(last, at) {
            return None;
        }
        let size = byte_of(m.f, at, Balise::SIZE_BYTE);
        if size < Balise::SIZE {
            return None;
        }
        last = at as u32;
        at = at + size;
    }
    if at != until {
        return None;
    }
    Some(last)
}

// The links of every record obey; a siding has none.
pub fn links_pass(m: &Marked) -> Option<()>
    ensures { IfSome result (λ _. AllLinked m.now.f.now m.now.l) }
{
    let l = m.l;
    let starts = kind_links::<StartBoundaries>(m, l.starts, l.ends, 0)?;
    let ends = kind_links::<EndBoundaries>(m, l.ends, l.turnouts, starts)?;
    let turnouts = kind_links::<Turnout>(m, l.turnouts, l.balises, ends)?;
    let balises = balise_links(m, l.balises, l.signals, turnouts)?;
    let signals = kind_links::<Signal>(m, l.signals, l.joints, balises)?;
    kind_links::<Joint>(m, l.joints, l.sidings, signals)?;
    Some(())
}
