// Bytes that lie inside the file, read where they stand, with no test of the file's end: whoever asks for one has proved that it is there.
ghost use Rattle.std.specs.Prelude.{◌≡◌, ◌+◌, ◌<◌, length};
ghost use Rattle.octets.specs.Octets.{Is};
ghost use Rattle.x2_links.specs.Links.{link_at};

use tables::Field;

// The byte at a place.
// Stays (2): `octets` has this reader too, but one that asks something of its callers cannot be public there (project rule).
#[tactic(auto, unfolding(octets::specs::Octets::num_at))]
pub fn byte(f: &[u8], place: usize) -> usize
    requires { place < length f.now }
    ensures { Is 1 f.now place result }
{
    f[place] as usize
}

// The first byte of a field.
pub fn byte_of(f: &[u8], at: usize, k: Field) -> usize
    requires { at + k.0 < length f.now }
    ensures { Is 1 f.now (at + k.0) result }
{
    byte(f, at + k.0 as usize)
}

// The byte of a field that has so many bytes of the field before it.
pub fn later_byte_of(f: &[u8], at: usize, k: Field, i: usize) -> usize
    requires { at + k.0 + i < length f.now }
    ensures { Is 1 f.now (at + k.0 + i) result }
{
    byte(f, at + k.0 as usize + i)
}

// The link at a place.
#[tactic(auto, unfolding(octets::specs::Octets::num_at))]
pub fn link_at(f: &[u8], at: usize) -> u16
    requires { at + 1 < length f.now }
    ensures { result ≡ link_at f.now at }
{
    u16::from_le_bytes([f[at], f[at + 1]])
}
