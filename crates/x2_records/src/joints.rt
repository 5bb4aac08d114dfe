// Insulated rail joints (绝缘节): table 11.
ghost use Rattle.std.specs.Prelude.{◌≡◌};
ghost use Rattle.x2_records.specs.Tables.{joint_at};

use names::Name;
use octets::Width;
use tables::{Field, NameField, name_of, number_of};

#[derive(Clone, Copy)]
pub struct Joint {
    // 上一个数据对象的字节偏移: the object before it on its track
    pub previous: usize,
    // 下一个数据对象的字节偏移: the object after it
    pub next: usize,
    // 绝缘节名称: its name, which has no bytes where the joint has none
    pub name: Name,
    // 绝缘节位置: its position, in centimetres
    pub position: usize,
    // 绝缘节所在轨道号: its track
    pub track: usize,
}

impl Joint {
    // How many bytes a joint has.
    pub const SIZE: usize = 18;

    // The type byte.
    pub const TYPE: usize = 0xC6;

    // Where each field stands, counted from the joint's start.
    pub const ENTRY: Field = Field(0, Width::One);

    pub const PREVIOUS: Field = Field(1, Width::Two);

    pub const NEXT: Field = Field(3, Width::Two);

    pub const NAME: NameField = NameField(5);

    pub const POSITION: Field = Field(13, Width::Four);

    pub const TRACK: Field = Field(17, Width::One);

    // The joint that starts at a place.
    #[tactic(auto, unfolding(crate::specs::Tables::joint_at))]
    pub fn read(s: &[u8], at: u16) -> Self
        ensures { result ≡ joint_at s.now at }
    {
        let start = at as u32;
        Joint {
            previous: number_of(s, start, Self::PREVIOUS),
            next: number_of(s, start, Self::NEXT),
            name: name_of(s, start, Self::NAME),
            position: number_of(s, start, Self::POSITION),
            track: number_of(s, start, Self::TRACK),
        }
    }
}
