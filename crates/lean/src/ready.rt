// Actors that can be listed next, the one with the smallest net change first.

ghost use Rattle.std.specs.Prelude.{◌≡◌, ◌*◌, ◌^◌, ◌≤◌, [], ◌∷◌};
ghost use Rattle.graph.specs.Held.{sheet_held};
ghost use Rattle.lean.specs.Nets.{IsNet, net_of};
ghost use Rattle.rules.specs.Drafts.{fifo_count};
ghost use Rattle.rules.specs.Lean.{consumed, produced};

use graph::sheet_graph::Graph;
use rules::sheet::Link;

// An actor that can be listed, and its net change. Smaller net changes go first, equal ones by lower number.
#[derive(Clone, Copy, Debug, Default, PartialEq, Eq, PartialOrd, Ord)]
pub struct ReadyActor {
    pub net: i64,
    pub actor: u32,
}

// What actor a produces into one link.
fn gain(link: &Link, a: u32) -> u64
    ensures value { result ≡ produced (link.now ∷ []) a }
    ensures small { result ≤ fifo_count (link.now ∷ []) * 2 ^ 32 }
{
    match link {
        Link::Plain(fifo) if fifo.from == a => fifo.size as u64,
        _ => 0,
    }
}

// What actor a consumes from one link.
fn loss(link: &Link, a: u32) -> u64
    ensures value { result ≡ consumed (link.now ∷ []) a }
    ensures small { result ≤ fifo_count (link.now ∷ []) * 2 ^ 32 }
{
    match link {
        Link::Plain(fifo) if fifo.to == a => fifo.size as u64,
        _ => 0,
    }
}

// The net change of actor a: what it produces minus what it consumes, by FIFOs without initial tokens.
pub(crate) fn net_change(links: &[Link], a: u32) -> i64
    requires few { fifo_count links.now ≤ 192 }
    ensures { result ≡ net_of links.now a }
{
    let mut produced = 0;
    let mut consumed = 0;
    for link in links {
        produced += gain(link, a);
        consumed += loss(link, a);
    }
    produced as i64 - consumed as i64
}

// The net change of actor a of the sheet that is held; none where it has no such actor.
pub fn net_change_of(graph: &Graph, a: u32) -> Option<i64>
    ensures { IsNet (sheet_held graph.now.sheet) a result }
{
    (a < graph.actor_count()).then(|| net_change(graph.links(), a))
}
