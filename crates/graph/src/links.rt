// The links of a sheet.

ghost use Rattle.std.specs.Prelude.{◌≡◌, ◌+◌, ◌<◌, ◌≤◌, [], ◌∷◌, ◌++◌, true, IfOk, MatchOption, vec_len, vec_capacity};
ghost use Rattle.graph.specs.Orders.{Heard, Meant};
ghost use Rattle.graph.specs.Rows.{may_join};
ghost use Rattle.rules.specs.Drafts.{Orders, fifo_count, from, to};

use crate::order::Order;
use rules::sheet::{Link, Sequence};
use std::alloc::{AllocError, Global};

pub const MOST_FIFOS: usize = 192;

// A text of 65,536 bytes has at most 10,922 links, since each takes 6 bytes.
const MOST_LINKS: usize = 10_922;

// The links in the order of their lines, how many of them are FIFOs, and the order that they make.
#[derive(Drop)]
pub struct Links {
    pub(crate) list: Vec<Link>,
    pub(crate) fifos: usize,
    pub(crate) order: Order,
    ghost space: { 10922 ≤ vec_capacity list },
    ghost counted: { fifos ≡ fifo_count list.items },
    ghost few: { fifos ≤ 192 },
    ghost heard: { Heard order.rows list.items },
    ghost meant: { Meant order.rows list.items },
}

// How many FIFOs a link is.
fn fifos_of(link: Link) -> usize
    ensures { result ≡ fifo_count (link ∷ []) }
{
    match link {
        Link::Plain(_) | Link::Delayed(_) => 1,
        Link::Ordered(_) => 0,
    }
}

// The ordering that a link makes; a FIFO with initial tokens makes none.
fn ordering_of(link: Link) -> Option<Sequence>
    ensures { MatchOption result (Orders link → ⊥) (λ q. Orders link × (q.first ≡ from link) × (q.second ≡ to link)) }
{
    match link {
        Link::Plain(fifo) => Some(Sequence {
            first: fifo.from,
            second: fifo.to,
        }),
        Link::Delayed(_) => None,
        Link::Ordered(sequence) => Some(sequence),
    }
}

impl Links {
    pub(crate) fn new(heap: Global) -> Result<Links, AllocError>
        ensures { IfOk result (λ k. k.list.items ≡ []) }
    {
        let list = Vec::with_capacity(heap, MOST_LINKS)?;
        let order = Order::none();
        Ok(Links {
            list,
            fifos: 0,
            order,
        })
    }

    pub(crate) fn clear(&mut self)
        ensures { self.new.list.items ≡ [] }
    {
        self.list.clear();
        self.fifos = 0;
        self.order = Order::none();
    }

    // One link more, in the order too if it orders its ends.
    pub(crate) fn push(&mut self, link: Link)
        requires room { vec_len self.old.list < 10922 }
        requires few { self.old.fifos + fifo_count (link ∷ []) ≤ 192 }
        requires allowed { Orders link → may_join self.old.order.rows (from link) (to link) ≡ true }
        ensures items { self.new.list.items ≡ self.old.list.items ++ link ∷ [] }
        ensures fifos { self.new.fifos ≡ self.old.fifos + fifo_count (link ∷ []) }
    {
        self.list.push_reserved(link);
        self.fifos += fifos_of(link);
        if let Some(pair) = ordering_of(link) {
            self.order.join(pair.first, pair.second);
        }
    }
}
