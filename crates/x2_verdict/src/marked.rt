// A file whose layout is right, with the places that a link may name: what the second pass holds the links of its records against.
ghost use Rattle.x2_layout.specs.inner.Bounds.{Bounded};
ghost use Rattle.x2_layout.specs.inner.Regions.{Regions};
ghost use Rattle.x2_links.specs.inner.Marks.{Targets};

use x2_layout::Layout;
use x2_links::CELLS;

#[derive(Clone, Copy)]
pub struct Marked<'a> {
    pub f: &'a [u8],
    pub l: Layout,
    pub marks: &'a [u8; CELLS],
    pub ghost bounded: { Bounded l },
    pub ghost regions: { Regions f.now l },
    pub ghost targets: { Targets f.now l marks.now },
}
