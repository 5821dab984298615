// Taking a link.

ghost use Rattle.std.specs.Prelude.{◌≡◌, ◌+◌, ◌<◌, ◌≤◌, [], ◌∷◌, length, None, MatchOption, OnErr, vec_len, ◌==◌};
ghost use Rattle.graph.specs.Judging.{judge_fifo, judge_plain, judge_sequence};
ghost use Rattle.graph.specs.Ranges.{size_in_range};
ghost use Rattle.graph.specs.Taking.{Allowed, Judges, Took, draft_of};
ghost use Rattle.rules.specs.Objects.{buffer, buffers};
ghost use Rattle.rules.specs.Sheets.{core_in};
ghost use Rattle.rules.specs.declared.sheet.Entry.TheVariants.{NextLink};
ghost use Rattle.text.specs.Bounds.{link_count};

use crate::faults::Refusal;
use crate::links::MOST_FIFOS;
use crate::objects::MOST_BYTES;
use crate::read_sheet::ReadSheet;
use rules::memory::Object;
use rules::sheet::{Entry, Fifo, Link, Sequence};

// Whether a size is one that an object may have.
fn size_in_range(size: u32) -> bool
    ensures { result ≡ size_in_range size }
{
    (1..=MOST_BYTES).contains(&size)
}

// The object of a FIFO, which is delayed if it has initial tokens.
fn buffer(fifo: Fifo, delayed: bool) -> Object
    ensures { result ≡ buffer fifo delayed }
{
    Object {
        producer: fifo.from,
        consumer: fifo.to,
        size: fifo.size,
        delayed,
    }
}

// The object of a link; an ordering has none.
fn object_of(link: Link) -> Option<Object>
    ensures { MatchOption result (buffers (link ∷ []) ≡ []) (λ o. buffers (link ∷ []) ≡ o ∷ []) }
{
    match link {
        Link::Plain(fifo) => Some(buffer(fifo, false)),
        Link::Delayed(fifo) => Some(buffer(fifo, true)),
        Link::Ordered(_) => None,
    }
}

impl ReadSheet {
    // The checks of a FIFO before those of its order.
    fn judge_fifo(&self, fifo: Fifo) -> Result<(), Refusal>
        ensures { Judges (judge_fifo (vec_len self.now.actors) self.now.links.fifos fifo None) result }
    {
        let known = self.actors.len();
        if known == 0 {
            return Err(Refusal::OutOfTurn);
        }
        if !size_in_range(fifo.size) {
            return Err(Refusal::OffRange);
        }
        if fifo.from as usize >= known || fifo.to as usize >= known {
            return Err(Refusal::Unknown);
        }
        if self.links.fifos >= MOST_FIFOS {
            return Err(Refusal::TooMany);
        }
        Ok(())
    }

    // The checks of a FIFO without initial tokens, whose producer is before its consumer.
    fn judge_plain(&self, fifo: Fifo) -> Result<(), Refusal>
        ensures { Judges (judge_plain (vec_len self.now.actors) self.now.links.fifos self.now.links.order.rows fifo) result }
    {
        self.judge_fifo(fifo)?;
        if fifo.from == fifo.to {
            return Err(Refusal::EqualEnds);
        }
        if !self.links.order.allows(fifo.from, fifo.to) {
            return Err(Refusal::Backward);
        }
        Ok(())
    }

    // Whether two actors share a core.
    fn on_one_core(&self, a: usize, b: usize) -> bool
        requires first { a < vec_len self.now.actors }
        requires second { b < vec_len self.now.actors }
        ensures { result ≡ (core_in self.now.actors.items a == core_in self.now.actors.items b) }
    {
        self.actors[a].core == self.actors[b].core
    }

    // The checks of an ordering of two actors.
    fn judge_sequence(&self, sequence: Sequence) -> Result<(), Refusal>
        ensures { Judges (judge_sequence (vec_len self.now.actors) (core_in self.now.actors.items) self.now.links.order.rows sequence) result }
    {
        let known = self.actors.len();
        if known == 0 {
            return Err(Refusal::OutOfTurn);
        }
        let first = sequence.first as usize;
        let second = sequence.second as usize;
        if first >= known || second >= known {
            return Err(Refusal::Unknown);
        }
        if first == second {
            return Err(Refusal::EqualEnds);
        }
        if !self.on_one_core(first, second) {
            return Err(Refusal::AcrossCores);
        }
        if !self.links.order.allows(sequence.first, sequence.second) {
            return Err(Refusal::Backward);
        }
        Ok(())
    }

    // Refuses a link that may not be taken.
    fn judge(&self, link: Link) -> Result<(), Refusal>
        ensures { Allowed (draft_of self.now) (NextLink link) result }
    {
        match link {
            Link::Plain(fifo) => self.judge_plain(fifo),
            Link::Delayed(fifo) => self.judge_fifo(fifo),
            Link::Ordered(sequence) => self.judge_sequence(sequence),
        }
    }

    // Takes a link, or refuses it and changes nothing.
    fn take_link(&mut self, link: Link) -> Result<(), Refusal>
        requires { vec_len self.old.links.list < 10922 }
        ensures took { Took (draft_of self.old) (NextLink link) (draft_of self.new) result }
        ensures kept { OnErr result (self.new ≡ self.old) }
    {
        self.judge(link)?;
        self.links.push(link);
        if let Some(object) = object_of(link) {
            self.objects.push(object);
        }
        Ok(())
    }

    // Takes what one line says, or refuses it and changes nothing.
    pub(crate) fn take(&mut self, entry: Entry) -> Result<(), Refusal>
        requires { vec_len self.old.links.list + link_count entry ≤ 10922 }
        ensures took { Took (draft_of self.old) entry (draft_of self.new) result }
        ensures kept { OnErr result (self.new ≡ self.old) }
    {
        match entry {
            Entry::OnMachine(machine) => self.take_machine(machine),
            Entry::ByFit(fit) => self.take_fit(fit),
            Entry::WithLayer(layer) => self.take_layer(layer),
            Entry::NextActor(actor) => self.take_actor(actor),
            Entry::NextLink(link) => self.take_link(link),
        }
    }
}
