// What stands before the bytes of a piece: its seven numbers.
ghost use Rattle.std.specs.Prelude.{◌≡◌};
ghost use Rattle.transfer.specs.Heads.{head_in};

use crate::Identity;
use seven_bits::put_number;

// How many bytes they have at most: seven numbers of five groups.
pub const HEAD_MOST: usize = 35;

// The numbers, in the first `length` of these bytes. The others are 0.
#[derive(Clone, Copy)]
pub struct Head {
    pub bytes: [u8; HEAD_MOST],
    pub length: usize,
}

// The numbers of a piece of the file of an identity, whose bytes start there and are so many.
pub fn head_of(identity: Identity, start: usize, count: usize) -> Head
    ensures { result ≡ head_in identity start count }
{
    let mut bytes = [0u8; HEAD_MOST];
    let kind = put_number(&mut bytes, 0, identity.station);
    let version = put_number(&mut bytes, kind, identity.kind);
    let total = put_number(&mut bytes, version, identity.version);
    let trailer = put_number(&mut bytes, total, identity.total);
    let place = put_number(&mut bytes, trailer, identity.trailer);
    let number = put_number(&mut bytes, place, start);
    let length = put_number(&mut bytes, number, count);
    Head { bytes, length }
}
