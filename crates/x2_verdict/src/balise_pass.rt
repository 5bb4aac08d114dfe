// The first pass over one balise, quickly: each byte is read where it stands, since a balise as a whole lies inside the file, and what is
// not plainly right counts as wrong. `at` is where the balise starts.
ghost use Rattle.std.specs.Prelude.{◌≡◌, true, ◌+◌, ◌≤◌, ◌<◌, length};
ghost use Rattle.tables.specs.Rows.{RowObeys};
ghost use Rattle.x2_records.specs.Places.{balise_size};
ghost use Rattle.x2_records.specs.Rows as row;
ghost use Rattle.x2_verdict.specs.inner.Balises.{leading, FixedObeys, GroupObeys, MessageObeys};

use crate::inside::{byte, byte_of, later_byte_of};
use tables::bits_of;
use x2_records::Balise;

// Each byte of the number that stands for no balise.
const NONE_BYTE: usize = 0xFF;

// The attribute byte: the greatest nature, the first byte that has a direction, and the first after it that has none.
const NATURE_MOST: usize = 1;

const DIRECTED: usize = 0x40;

const UNDIRECTED: usize = 0xC0;

// The highest byte of a position lies below this.
const POSITION_TOP: usize = 0x80;

// The byte that ends a balise's message.
const MESSAGE_END: usize = 0xFF;

// The number is not that which stands for no balise.
fn number_passes(f: &[u8], at: usize) -> bool
    requires { at + balise_size ≤ length f.now }
    ensures { result ≡ true → RowObeys f.now at row.balise_number }
{
    if byte_of(f, at, Balise::NUMBER) != NONE_BYTE {
        return true;
    }
    if later_byte_of(f, at, Balise::NUMBER, 1) != NONE_BYTE {
        return true;
    }
    later_byte_of(f, at, Balise::NUMBER, 2) != NONE_BYTE
}

// The attribute has a direction and a nature, and 0 between them.
fn attribute_passes(f: &[u8], at: usize) -> bool
    requires { at + balise_size ≤ length f.now }
    ensures { result ≡ true → RowObeys f.now at row.balise_attribute }
{
    let attribute = byte_of(f, at, Balise::ATTRIBUTE);
    if attribute % Balise::GROUP_DIRECTION.0 > NATURE_MOST {
        return false;
    }
    if attribute < DIRECTED {
        return false;
    }
    attribute < UNDIRECTED
}

// Table 9 without the group and the message.
pub fn fixed_passes(f: &[u8], at: usize) -> bool
    requires { at + balise_size ≤ length f.now }
    ensures { result ≡ true → FixedObeys f.now at }
{
    if byte_of(f, at, Balise::ENTRY) != Balise::TYPE {
        return false;
    }
    if !number_passes(f, at) {
        return false;
    }
    if !attribute_passes(f, at) {
        return false;
    }
    if POSITION_TOP <= later_byte_of(f, at, Balise::POSITION, 3) {
        return false;
    }
    byte_of(f, at, Balise::TRACK) != 0
}

// The balise is the first of its group: nothing stands below the count in its group byte.
pub fn leads(f: &[u8], at: usize) -> bool
    requires { at + balise_size ≤ length f.now }
    ensures { result ≡ leading f.now at }
{
    byte_of(f, at, Balise::GROUP) % Balise::COUNT.0 == 0
}

// Another balise of its group, after the one at `before`, where the balises stand from `from` on.
fn member_passes(f: &[u8], from: usize, before: usize, at: usize) -> bool
    requires { at + balise_size ≤ length f.now }
    ensures { result ≡ true → GroupObeys f.now from before at }
{
    if before < from {
        return false;
    }
    if at <= before {
        return false;
    }
    let group = byte_of(f, at, Balise::GROUP);
    let other = byte_of(f, before, Balise::GROUP);
    if bits_of(group, Balise::MIDDLE) != 0 {
        return false;
    }
    if Balise::count_of(group) < Balise::rank_of(group) {
        return false;
    }
    if Balise::count_of(other) != Balise::count_of(group) {
        return false;
    }
    Balise::rank_of(other) < Balise::rank_of(group)
}

// The group byte: the balise is the first of its group, or another.
pub fn group_passes(f: &[u8], from: usize, before: u32, at: usize) -> bool
    requires { at + balise_size ≤ length f.now }
    ensures { result ≡ true → GroupObeys f.now from before at }
{
    if leads(f, at) {
        return true;
    }
    member_passes(f, from, before as usize, at)
}

// The message of a balise of so many bytes, which ends at `until` or before.
pub fn message_passes(f: &[u8], at: usize, size: usize, until: usize) -> bool
    requires { (until ≤ length f.now) × (at ≤ until) × (balise_size < size) × (size < 256) }
    ensures { result ≡ true → MessageObeys f.now at size until }
{
    if until < at + size {
        return false;
    }
    byte(f, at + size - 1) == MESSAGE_END
}
