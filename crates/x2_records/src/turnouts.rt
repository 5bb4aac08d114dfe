// Turnouts (道岔): table 8.
ghost use Rattle.std.specs.Prelude.{◌≡◌};
ghost use Rattle.x2_records.specs.Tables.{direction_of, direction_number, turnout_at};

use octets::Width;
use tables::{Field, number_of};

// 方向: the direction in which a turnout opens, on the track of its tip.
#[derive(Clone, Copy)]
pub enum Direction {
    // 0: with falling positions
    Decreasing = 0,
    // 1: with rising positions
    Increasing = 1,
}

impl Direction {
    // The direction that a byte gives. Every byte but 0 counts as 1; an accepted file has no other.
    // Stays (4): it answers for every byte, as `record_at` and `enums_kept` have it; a TryFrom would refuse some.
    // Stays (2): each reads bits of its own, so no law of one trait says `of (number k) = k`.
    #[tactic(auto, unfolding(crate::specs::Tables::direction_of))]
    pub fn of(b: usize) -> Self
        ensures { result ≡ direction_of b }
    {
        match b {
            0 => Direction::Decreasing,
            _ => Direction::Increasing,
        }
    }

    // The table's number.
    // Stays (4): it names what it gives, where `usize::from` would not.
    pub fn number(self) -> usize
        ensures { result ≡ direction_number self }
    {
        self as usize
    }
}

#[derive(Clone, Copy)]
pub struct Turnout {
    // 道岔编号: the turnout's number in the station
    pub number: usize,
    // 方向: the direction in which it opens
    pub direction: Direction,
    // 道岔岔尖位置: the position of the tip, in centimetres, as the next two are
    pub tip_position: usize,
    // 道岔定位位置: the position of the normal leg
    pub normal_position: usize,
    // 道岔反位位置: the position of the reverse leg
    pub reverse_position: usize,
    // 岔前链接的数据对象的偏移: the next object at the front
    pub front: usize,
    // 定位链接的数据对象的偏移: the next object on the normal leg
    pub normal: usize,
    // 反位链接的数据对象的偏移: the next object on the reverse leg
    pub reverse: usize,
    // 道岔岔前所在轨道: the track at the front
    pub front_track: usize,
    // 道岔定位所在轨道: the track of the normal leg
    pub normal_track: usize,
    // 道岔反位所在轨道: the track of the reverse leg
    pub reverse_track: usize,
}

impl Turnout {
    // How many bytes a turnout has.
    pub const SIZE: usize = 24;

    // The type byte.
    pub const TYPE: usize = 0x06;

    // The fields: where each stands, counted from the turnout's start, and its width.
    pub const ENTRY: Field = Field(0, Width::One);

    pub const NUMBER: Field = Field(1, Width::One);

    pub const DIRECTION: Field = Field(2, Width::One);

    pub const TIP_POSITION: Field = Field(3, Width::Four);

    pub const NORMAL_POSITION: Field = Field(7, Width::Four);

    pub const REVERSE_POSITION: Field = Field(11, Width::Four);

    pub const FRONT: Field = Field(15, Width::Two);

    pub const NORMAL: Field = Field(17, Width::Two);

    pub const REVERSE: Field = Field(19, Width::Two);

    pub const FRONT_TRACK: Field = Field(21, Width::One);

    pub const NORMAL_TRACK: Field = Field(22, Width::One);

    pub const REVERSE_TRACK: Field = Field(23, Width::One);

    // The turnout that starts at a place.
    #[tactic(auto, unfolding(crate::specs::Tables::turnout_at))]
    pub fn read(s: &[u8], at: u16) -> Self
        ensures { result ≡ turnout_at s.now at }
    {
        let start = at as u32;
        Turnout {
            number: number_of(s, start, Self::NUMBER),
            direction: Direction::of(number_of(s, start, Self::DIRECTION)),
            tip_position: number_of(s, start, Self::TIP_POSITION),
            normal_position: number_of(s, start, Self::NORMAL_POSITION),
            reverse_position: number_of(s, start, Self::REVERSE_POSITION),
            front: number_of(s, start, Self::FRONT),
            normal: number_of(s, start, Self::NORMAL),
            reverse: number_of(s, start, Self::REVERSE),
            front_track: number_of(s, start, Self::FRONT_TRACK),
            normal_track: number_of(s, start, Self::NORMAL_TRACK),
            reverse_track: number_of(s, start, Self::REVERSE_TRACK),
        }
    }
}
