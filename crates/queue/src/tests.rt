// Elements ranked by a word of their own, and by the order of their type.

ghost use Rattle.std.specs.Prelude.{◌≡◌, ◌+◌, ◌∷◌, MatchOption};
ghost use Rattle.std.specs.List.Sorted.{IsPermutation};
ghost use Rattle.queue.specs.Heaps.{Least};
ghost use Rattle.queue.specs.Waiting.{waiting, capacity};

use crate::{ByOrder, Full, Queue, Rank};

// A job, which waits behind those that are more urgent.
#[derive(Clone, Copy, Debug, PartialEq)]
struct Job {
    urgent: bool,
    id: u32,
}

impl Rank for Job {
    fn precedes(&self, other: &Job) -> bool {
        self.urgent && !other.urgent
    }
}

// The whole promise of `pop` to what is ordered.
fn pop_least<T: Ord + Copy>(queue: &mut Queue<T, ByOrder>) -> Option<T>
    ensures items { MatchOption result ((queue.old.len ≡ 0) × (queue.new ≡ queue.old)) (λ x. (queue.new.len + 1 ≡ queue.old.len) × IsPermutation (waiting queue.old) (x ∷ waiting queue.new) × Least T.Ord.cmp x (waiting queue.old)) }
    ensures long { capacity queue.new ≡ capacity queue.old }
    ensures lender { queue.new.slots.ghost_name ≡ queue.old.slots.ghost_name }
{
    queue.pop()
}

// One fewer waits, whatever the rank.
fn pop_ranked<T: Rank>(queue: &mut Queue<T>) -> Option<T>
    ensures { MatchOption result (queue.old.len ≡ 0) (λ _. queue.new.len + 1 ≡ queue.old.len) }
{
    queue.pop()
}

// A job that can wait.
fn later(id: u32) -> Job {
    Job { urgent: false, id }
}

// A job that cannot.
fn now(id: u32) -> Job {
    Job { urgent: true, id }
}

#[test]
fn urgent_jobs_come_first(rt: HostRuntime) {
    let mut slots = [later(0); 4];
    let mut queue = Queue::new(&mut slots);
    for job in [later(1), now(2), later(3), now(4)] {
        assert_eq!(rt; queue.push(job), Ok(()));
    }
    assert_eq!(rt; queue.push(now(5)), Err(Full));
    for urgent in [true, true, false, false] {
        assert_eq!(rt; queue.pop().map(|job| job.urgent), Some(urgent));
    }
    assert_eq!(rt; queue.pop(), None);
}

#[test]
fn one_urgent_job_overtakes(rt: HostRuntime) {
    let mut slots = [later(0); 3];
    let mut queue = Queue::new(&mut slots);
    for job in [later(1), later(2), now(3)] {
        assert_eq!(rt; queue.push(job), Ok(()));
    }
    assert_eq!(rt; pop_ranked(&mut queue), Some(now(3)));
}

#[test]
fn numbers_come_in_ascending_order(rt: HostRuntime) {
    let mut slots = [0; 5];
    let mut queue = Queue::new(&mut slots);
    for x in [5, 1, 4, 2, 3] {
        assert_eq!(rt; queue.push(x), Ok(()));
    }
    assert_eq!(rt; queue.push(6), Err(Full));
    for x in 1..6 {
        assert_eq!(rt; pop_least(&mut queue), Some(x));
    }
    assert_eq!(rt; queue.pop(), None);
}
