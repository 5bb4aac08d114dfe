// What is asked of a pair that is accepted, and the question's own refusals: 13, and then 15.
ghost use Rattle.std.specs.Prelude.{◌≡◌, length};
ghost use Rattle.ahead.specs.Asked.{refused_for, answer_in, left_in};

use crate::list::list;
use crate::ways::are_lies;
use crate::{AheadFault, ROOM_LEAST, Sight};
use route_graph::object_at;
use verdict::{Reason, refusal};
use x2_layout::Layout;
use x2_links::may_name;

// The question refused for a reason.
fn refused(reason: Reason) -> Result<Sight, AheadFault>
    ensures { result ≡ refused_for reason }
{
    Err(AheadFault::OfQuestion(refusal(reason)))
}

// The objects ahead, of any X.2 and any layout.
pub fn look(
    g: &[u8],
    l: Layout,
    offset: usize,
    link: usize,
    lies: &[u8],
    out: &mut [u8],
) -> Result<Sight, AheadFault>
    ensures value { result ≡ answer_in g.now l offset link lies.now (length out.old) }
    ensures out_after { out.new ≡ left_in g.now l offset link lies.now out.old }
{
    if !may_name(g, l, offset) {
        return refused(Reason::Question);
    }
    let passed = offset as u16;
    let o = object_at(g, l, passed);
    if !((link < o.link_count()) & are_lies(lies)) {
        return refused(Reason::Question);
    }
    if out.len() < ROOM_LEAST {
        return refused(Reason::Room);
    }
    Ok(list(g, l, lies, passed, o.link(link), out))
}
