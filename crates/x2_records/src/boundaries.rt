// Data boundaries (数据边界): table 6 for the start, table 7 for the end, with the same fields.
ghost use Rattle.std.specs.Prelude.{◌≡◌};
ghost use Rattle.x2_records.specs.Tables.{boundary_at};

use octets::Width;
use tables::{Field, number_of};

#[derive(Clone, Copy)]
pub struct Boundary {
    // 条目类型: the type byte as it stands: which line the boundary is on, and whether it starts or ends it
    // Stays (1): `boundary_at` gives the byte of any file, also one that no type has.
    pub entry: usize,
    // 相邻数据对象的字节偏移: the next object on the boundary's track
    pub link: usize,
    // 相邻车站编号: the station beyond the boundary, 0 for none
    pub neighbour_station: usize,
    // 相邻车站数据边界类型: the type byte of the boundary there
    // Stays (1): as the entry.
    pub neighbour_type: usize,
    // 相邻车站轨道号: the track there, 0 for none
    pub neighbour_track: usize,
    // 位置: the position on its own track, in centimetres
    pub position: usize,
    // 数据边界所在轨道号: its own track
    pub track: usize,
}

impl Boundary {
    // How many bytes a boundary has.
    pub const SIZE: usize = 12;

    // The type bytes: start (起始) and end (结束) on the up line (上行) and on the down line (下行), and what stands for a neighbour's
    // type that is not known.
    pub const START_UP: usize = 0x00;

    pub const START_DOWN: usize = 0x01;

    pub const END_UP: usize = 0xFF;

    pub const END_DOWN: usize = 0xFE;

    pub const UNKNOWN: usize = 0x55;

    // Where each field stands, counted from the boundary's start.
    pub const ENTRY: Field = Field(0, Width::One);

    pub const LINK: Field = Field(1, Width::Two);

    pub const NEIGHBOUR_STATION: Field = Field(3, Width::Two);

    pub const NEIGHBOUR_TYPE: Field = Field(5, Width::One);

    pub const NEIGHBOUR_TRACK: Field = Field(6, Width::One);

    pub const POSITION: Field = Field(7, Width::Four);

    pub const TRACK: Field = Field(11, Width::One);

    // The boundary that starts at a place.
    #[tactic(auto, unfolding(crate::specs::Tables::boundary_at))]
    pub fn read(s: &[u8], at: u16) -> Self
        ensures { result ≡ boundary_at s.now at }
    {
        let start = at as u32;
        Boundary {
            entry: number_of(s, start, Self::ENTRY),
            link: number_of(s, start, Self::LINK),
            neighbour_station: number_of(s, start, Self::NEIGHBOUR_STATION),
            neighbour_type: number_of(s, start, Self::NEIGHBOUR_TYPE),
            neighbour_track: number_of(s, start, Self::NEIGHBOUR_TRACK),
            position: number_of(s, start, Self::POSITION),
            track: number_of(s, start, Self::TRACK),
        }
    }
}
