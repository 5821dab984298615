// The lean order, listed step by step.

ghost use Rattle.std.specs.Prelude.{◌≡◌, ◌≤◌, length};
ghost use Rattle.lean.specs.Waiting.{Describes, Entered, Queued, is_free};
ghost use Rattle.queue.specs.Waiting.{capacity, waiting};
ghost use Rattle.rules.specs.Drafts.{fifo_count};
ghost use Rattle.rules.specs.Lean.{Lean};
ghost use Rattle.rules.specs.Sheets.{Sheet};

use crate::ready::{ReadyActor, net_change};
use graph::order::Order;
use queue::{ByOrder, Queue};
use rules::sheet::Link;
use words::{ROOM, has, with};

// Whether every actor before a is listed.
fn is_free(order: &Order, a: u32, listed: u64) -> bool
    ensures { result ≡ is_free order.now.rows listed a }
{
    (0..ROOM).all(|b| !order.before(b, a) || has(listed, b))
}

// Puts the actors that have become free into the queue. Answers which have entered it so far.
fn enter(
    queue: &mut Queue<ReadyActor, ByOrder>,
    links: &[Link],
    order: &Order,
    count: u32,
    listed: u64,
    entered: u64,
) -> u64
    requires room { count ≤ capacity queue.old }
    requires small { count ≤ 64 }
    requires few { fifo_count links.now ≤ 192 }
    requires queued { Queued links.now count listed entered (waiting queue.old) }
    ensures long { capacity queue.new ≡ capacity queue.old }
    ensures lender { queue.new.slots.ghost_name ≡ queue.old.slots.ghost_name }
    ensures queued { Queued links.now count listed result (waiting queue.new) }
    ensures entered { Entered order.now.rows listed count entered result }
{
    let mut all = entered;
    for a in 0..count {
        if !has(all, a) && is_free(order, a, listed) {
            let net = net_change(links, a);
            let _ = queue.push(ReadyActor { net, actor: a });
            all = with(all, a);
        }
    }
    all
}

// Writes the lean order of the actors, each of which has its place in `out`.
pub(crate) fn list(links: &[Link], order: &Order, memory: &mut [ReadyActor], out: &mut [u32])
    requires small { length out.old ≤ 64 }
    requires few { fifo_count links.now ≤ 192 }
    requires room { length out.old ≤ length memory.old }
    ensures { (s : Sheet) → Describes links.now order.now.rows (length out.old) s → Lean s out.new }
{
    let count = out.len() as u32;
    let mut queue = Queue::new(memory);
    let mut listed = 0;
    let mut entered = enter(&mut queue, links, order, count, listed, 0);
    let mut n = 0;
    while let Some(next) = queue.pop() {
        out[n] = next.actor;
        n += 1;
        listed = with(listed, next.actor);
        entered = enter(&mut queue, links, order, count, listed, entered);
    }
}
