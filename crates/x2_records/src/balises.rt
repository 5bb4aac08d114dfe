// Balises (应答器): table 9. Two of its bytes have parts.
ghost use Rattle.std.specs.Prelude.{◌≡◌};
ghost use Rattle.x2_records.specs.Tables.{nature_of, nature_number, group_direction_of, group_direction_number, rank_of, group_count_of, balise_at};

use octets::Width;
use tables::{Bits, Field, bits_of, number_of};

// 应答器属性: the low two bits of the attribute byte.
#[derive(Clone, Copy)]
pub enum Nature {
    // 0: 虚拟应答器, which stands in the data alone
    Virtual = 0,
    // 1: 实体应答器, which lies in the track
    Physical = 1,
}

impl Nature {
    // The nature that an attribute byte gives. Every number but 0 counts as 1; an accepted file has no other.
    // Stays (4): it answers for every byte, as `record_at` and `enums_kept` have it; a TryFrom would refuse some.
    // Stays (2): each reads bits of its own, so no law of one trait says `of (number k) = k`.
    #[tactic(auto, unfolding(crate::specs::Tables::nature_of))]
    pub fn of(b: usize) -> Self
        ensures { result ≡ nature_of b }
    {
        match bits_of(b, Balise::NATURE) {
            0 => Nature::Virtual,
            _ => Nature::Physical,
        }
    }

    // The table's number.
    // Stays (4): it names what it gives, where `usize::from` would not.
    pub fn number(self) -> usize
        ensures { result ≡ nature_number self }
    {
        self as usize
    }
}

// 所在应答器组方向与位置坐标增加方向关系: the direction of the balise's group against that of rising positions, the top two bits of the
// attribute byte.
#[derive(Clone, Copy)]
pub enum GroupDirection {
    // 1: 相反, against rising positions
    Opposite = 1,
    // 2: 相同, with rising positions
    Same = 2,
}

impl GroupDirection {
    // The direction that an attribute byte gives. Every number but 1 counts as 2; an accepted file has no other.
    // Stays (4): it answers for every byte, as `record_at` and `enums_kept` have it; a TryFrom would refuse some.
    // Stays (2): each reads bits of its own, so no law of one trait says `of (number k) = k`.
    #[tactic(auto, unfolding(crate::specs::Tables::group_direction_of))]
    pub fn of(b: usize) -> Self
        ensures { result ≡ group_direction_of b }
    {
        match bits_of(b, Balise::GROUP_DIRECTION) {
            1 => GroupDirection::Opposite,
            _ => GroupDirection::Same,
        }
    }

    // The table's number.
    // Stays (4): it names what it gives, where `usize::from` would not.
    pub fn number(self) -> usize
        ensures { result ≡ group_direction_number self }
    {
        self as usize
    }
}

#[derive(Clone, Copy)]
pub struct Balise {
    // 上一个数据对象的字节偏移: the object before it on its track
    pub previous: usize,
    // 下一个数据对象的字节偏移: the object after it
    pub next: usize,
    // 应答器编号: the balise's number
    pub number: usize,
    // 数据大小: how many bytes the record has, its message with them
    pub size: usize,
    // 应答器属性: whether it is virtual or physical
    pub nature: Nature,
    // 所在应答器组方向与位置坐标增加方向关系: the direction of its group
    pub direction: GroupDirection,
    // 应答器位置: the position of its middle, in centimetres
    pub position: usize,
    // 应答器所在轨道号: its track
    pub track: usize,
    // 本应答器在应答器组中的位置: its rank in its group, 1 to 8; 01 calls it its place
    pub rank: usize,
    // 应答器组中所包含的应答器数量: how many balises its group has, 1 to 8
    pub count: usize,
    // 应答器报文: where its message stands; a message has size - 16 bytes
    pub message: usize,
}

impl Balise {
    // How many bytes a balise has without its message: with it, 16 + N.
    pub const SIZE: usize = 16;

    // The type byte.
    pub const TYPE: usize = 0x33;

    // The number that stands for no balise.
    pub const NONE: usize = 0xFF_FFFF;

    // Where each field stands, counted from the balise's start.
    pub const ENTRY: Field = Field(0, Width::One);

    pub const PREVIOUS: Field = Field(1, Width::Two);

    pub const NEXT: Field = Field(3, Width::Two);

    pub const NUMBER: Field = Field(5, Width::Three);

    pub const SIZE_BYTE: Field = Field(8, Width::One);

    pub const ATTRIBUTE: Field = Field(9, Width::One);

    pub const POSITION: Field = Field(10, Width::Four);

    pub const TRACK: Field = Field(14, Width::One);

    pub const GROUP: Field = Field(15, Width::One);

    pub const MESSAGE: usize = 16;

    // The parts of the attribute byte; what lies between them is 0.
    pub const NATURE: Bits = Bits(1, 4);

    pub const GROUP_DIRECTION: Bits = Bits(64, 4);

    // The parts of the group byte; the middle one is 0.
    pub const RANK: Bits = Bits(1, 8);

    pub const MIDDLE: Bits = Bits(8, 4);

    pub const COUNT: Bits = Bits(32, 8);

    // The rank that a group byte gives, 1 to 8.
    pub fn rank_of(b: usize) -> usize
        ensures { result ≡ rank_of b }
    {
        bits_of(b, Self::RANK) + 1
    }

    // The count that a group byte gives, 1 to 8.
    pub fn count_of(b: usize) -> usize
        ensures { result ≡ group_count_of b }
    {
        bits_of(b, Self::COUNT) + 1
    }

    // The balise that starts at a place.
    #[tactic(auto, unfolding(crate::specs::Tables::balise_at))]
    pub fn read(s: &[u8], at: u16) -> Self
        ensures { result ≡ balise_at s.now at }
    {
        let start = at as u32;
        let attribute = number_of(s, start, Self::ATTRIBUTE);
        let group = number_of(s, start, Self::GROUP);
        Balise {
            previous: number_of(s, start, Self::PREVIOUS),
            next: number_of(s, start, Self::NEXT),
            number: number_of(s, start, Self::NUMBER),
            size: number_of(s, start, Self::SIZE_BYTE),
            nature: Nature::of(attribute),
            direction: GroupDirection::of(attribute),
            position: number_of(s, start, Self::POSITION),
            track: number_of(s, start, Self::TRACK),
            rank: Self::rank_of(group),
            count: Self::count_of(group),
            message: at as usize + Self::MESSAGE,
        }
    }
}
