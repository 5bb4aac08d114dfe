// Signals (信号机): table 10. The signal byte has parts.
ghost use Rattle.std.specs.Prelude.{◌≡◌};
ghost use Rattle.x2_records.specs.Tables.{facing_of, facing_number, duty_of, duty_number, signal_at};

use names::Name;
use octets::Width;
use tables::{Bits, Field, NameField, bits_of, name_of, number_of};

// 信号机方向: the direction that a signal is for, the top two bits of the signal byte.
#[derive(Clone, Copy)]
pub enum Facing {
    // 0: 无方向, for no direction
    Neither = 0,
    // 1: 下行, for the down direction
    Down = 1,
    // 2: 上行, for the up direction
    Up = 2,
}

impl Facing {
    // The direction that a signal byte gives. Every number but 0 and 1 counts as 2; an accepted file has no other.
    // Stays (4): it answers for every byte, as `record_at` and `enums_kept` have it; a TryFrom would refuse some.
    // Stays (2): each reads bits of its own, so no law of one trait says `of (number k) = k`.
    #[tactic(auto, unfolding(crate::specs::Tables::facing_of))]
    pub fn of(b: usize) -> Self
        ensures { result ≡ facing_of b }
    {
        match bits_of(b, Signal::TOP) {
            0 => Facing::Neither,
            1 => Facing::Down,
            _ => Facing::Up,
        }
    }

    // The table's number.
    // Stays (4): it names what it gives, where `usize::from` would not.
    pub fn number(self) -> usize
        ensures { result ≡ facing_number self }
    {
        self as usize
    }
}

// 信号机类型: what a signal is for, the low four bits of the signal byte.
#[derive(Clone, Copy)]
pub enum Duty {
    // 1: 进站信号机, for entering the station
    Entry = 1,
    // 2: 出站信号机, for leaving the station
    Exit = 2,
    // 3: 通过信号机, for passing on the line
    Passing = 3,
    // 4: 进路信号机, for a route inside the station
    Route = 4,
    // 5: 调车信号机, for shunting
    Shunting = 5,
}

impl Duty {
    // The duty that a signal byte gives. Every number but 1 to 4 counts as 5; an accepted file has no other.
    // Stays (4): it answers for every byte, as `record_at` and `enums_kept` have it; a TryFrom would refuse some.
    // Stays (2): each reads bits of its own, so no law of one trait says `of (number k) = k`.
    #[tactic(auto, unfolding(crate::specs::Tables::duty_of))]
    pub fn of(b: usize) -> Self
        ensures { result ≡ duty_of b }
    {
        match bits_of(b, Signal::LOW) {
            1 => Duty::Entry,
            2 => Duty::Exit,
            3 => Duty::Passing,
            4 => Duty::Route,
            _ => Duty::Shunting,
        }
    }

    // The table's number.
    // Stays (4): it names what it gives, where `usize::from` would not.
    pub fn number(self) -> usize
        ensures { result ≡ duty_number self }
    {
        self as usize
    }
}

#[derive(Clone, Copy)]
pub struct Signal {
    // 上一个数据对象的字节偏移: the object before it on its track
    pub previous: usize,
    // 下一个数据对象的字节偏移: the object after it
    pub next: usize,
    // 信号机名称: its name
    pub name: Name,
    // 信号机位置: its position, in centimetres
    pub position: usize,
    // 信号机所在轨道号: its track
    pub track: usize,
    // 信号机方向: the direction that it is for
    pub direction: Facing,
    // 信号机类型: what it is for
    pub duty: Duty,
}

impl Signal {
    // How many bytes a signal has.
    pub const SIZE: usize = 19;

    // The type byte.
    pub const TYPE: usize = 0xC3;

    // The fields: where each stands, counted from the signal's start, and its width; the name has 8 bytes.
    pub const ENTRY: Field = Field(0, Width::One);

    pub const PREVIOUS: Field = Field(1, Width::Two);

    pub const NEXT: Field = Field(3, Width::Two);

    pub const NAME: NameField = NameField(5);

    pub const POSITION: Field = Field(13, Width::Four);

    pub const TRACK: Field = Field(17, Width::One);

    pub const BYTE: Field = Field(18, Width::One);

    // The parts of the signal byte; the middle one is 0.
    pub const TOP: Bits = Bits(64, 4);

    pub const MIDDLE: Bits = Bits(16, 4);

    pub const LOW: Bits = Bits(1, 16);

    // The signal that starts at a place.
    #[tactic(auto, unfolding(crate::specs::Tables::signal_at))]
    pub fn read(s: &[u8], at: u16) -> Self
        ensures { result ≡ signal_at s.now at }
    {
        let start = at as u32;
        let byte = number_of(s, start, Self::BYTE);
        Signal {
            previous: number_of(s, start, Self::PREVIOUS),
            next: number_of(s, start, Self::NEXT),
            name: name_of(s, start, Self::NAME),
            position: number_of(s, start, Self::POSITION),
            track: number_of(s, start, Self::TRACK),
            direction: Facing::of(byte),
            duty: Duty::of(byte),
        }
    }
}
