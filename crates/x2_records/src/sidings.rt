// Sidings (股道): table 12. A siding is no object of its track: it has no link and no position.
ghost use Rattle.std.specs.Prelude.{◌≡◌};
ghost use Rattle.x2_records.specs.Tables.{siding_at};

use names::Name;
use octets::Width;
use tables::{Field, NameField, name_of, number_of};

#[derive(Clone, Copy)]
pub struct Siding {
    // 股道名称: its name
    pub name: Name,
    // 股道所在轨道号: its track
    pub track: usize,
    // 上行出站应答器编号: the number of the exit balise on the up side, Balise::NONE for none
    pub up_balise: usize,
    // 上行出站信号机名称: the name of the exit signal on the up side, of no bytes for none
    pub up_signal: Name,
    // 下行出站应答器编号: the same of the down side
    pub down_balise: usize,
    // 下行出站信号机名称: the same of the down side
    pub down_signal: Name,
}

impl Siding {
    // How many bytes a siding has.
    pub const SIZE: usize = 32;

    // The type byte.
    pub const TYPE: usize = 0xCC;

    // Where each field stands, counted from the siding's start.
    pub const ENTRY: Field = Field(0, Width::One);

    pub const NAME: NameField = NameField(1);

    pub const TRACK: Field = Field(9, Width::One);

    pub const UP_BALISE: Field = Field(10, Width::Three);

    pub const UP_SIGNAL: NameField = NameField(13);

    pub const DOWN_BALISE: Field = Field(21, Width::Three);

    pub const DOWN_SIGNAL: NameField = NameField(24);

    // The siding that starts at a place.
    #[tactic(auto, unfolding(crate::specs::Tables::siding_at))]
    pub fn read(s: &[u8], at: u16) -> Self
        ensures { result ≡ siding_at s.now at }
    {
        let start = at as u32;
        Siding {
            name: name_of(s, start, Self::NAME),
            track: number_of(s, start, Self::TRACK),
            up_balise: number_of(s, start, Self::UP_BALISE),
            up_signal: name_of(s, start, Self::UP_SIGNAL),
            down_balise: number_of(s, start, Self::DOWN_BALISE),
            down_signal: name_of(s, start, Self::DOWN_SIGNAL),
        }
    }
}
