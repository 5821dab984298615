// Taking what one line says.

ghost use Rattle.std.specs.Prelude.{◌≡◌, ◌+◌, ◌<◌, ◌≤◌, true, [], ◌∷◌, ◌++◌, length, OnErr, vec_len};
ghost use Rattle.graph.specs.Judging.{has_sort, judge_actor, judge_fit, judge_layer, judge_machine, same_sort};
ghost use Rattle.graph.specs.Stages.{is_ruled};
ghost use Rattle.graph.specs.Ranges.{machine_in_range, size_in_range};
ghost use Rattle.graph.specs.Taking.{TookBy, draft_of};
ghost use Rattle.rules.specs.declared.sheet.Entry.TheVariants.{ByFit, NextActor, OnMachine, WithLayer};

use crate::faults::Refusal;
use crate::objects::MOST_BYTES;
use crate::order::MOST_ACTORS;
use crate::read_sheet::ReadSheet;
use crate::stage::Stage;
use rules::memory::{Object, may_be_grain};
use rules::sheet::{Actor, Fit, Kind, Layer, Machine};

// Whether a machine's numbers are in range: the memory that its kind lacks has no bytes.
fn machine_in_range(m: &Machine) -> bool
    ensures { result ≡ machine_in_range m.now }
{
    let lacking = match m.kind {
        Kind::Unified => m.private,
        Kind::Private => m.shared,
        Kind::Hybrid => 0,
    };
    (1..=8).contains(&m.cores) && may_be_grain(m.grain) && lacking == 0
}

// Whether two layers are of one sort.
// kept: std has no discriminant, and an enum of the two sorts with its equality is longer.
fn are_of_one_sort(a: Layer, b: Layer) -> bool
    ensures { result ≡ same_sort a b }
{
    matches!(
        (a, b),
        (Layer::LowLine(_), Layer::LowLine(_)) | (Layer::SnugLimit(_), Layer::SnugLimit(_))
    )
}

// Whether a layer of the same sort is there already.
fn has_such(layers: &[Layer], layer: Layer) -> bool
    ensures { result ≡ has_sort layer layers.now }
{
    layers.iter().any(|known| are_of_one_sort(*known, layer))
}

impl ReadSheet {
    pub(crate) fn take_machine(&mut self, machine: Machine) -> Result<(), Refusal>
        ensures took { TookBy (judge_machine self.old.stage machine) (draft_of self.old) (OnMachine machine) (draft_of self.new) result }
        ensures kept { OnErr result (self.new ≡ self.old) }
    {
        // kept: a stage is one of three, so no Option says whether it is this one.
        let Stage::Blank = self.stage else {
            return Err(Refusal::OutOfTurn);
        };
        if !machine_in_range(&machine) {
            return Err(Refusal::OffRange);
        }
        self.stage = Stage::Machined(machine);
        Ok(())
    }

    pub(crate) fn take_fit(&mut self, fit: Fit) -> Result<(), Refusal>
        ensures took { TookBy (judge_fit self.old.stage) (draft_of self.old) (ByFit fit) (draft_of self.new) result }
        ensures kept { OnErr result (self.new ≡ self.old) }
    {
        // kept: a stage is one of three, so no Option says whether it is this one.
        let Stage::Machined(machine) = self.stage else {
            return Err(Refusal::OutOfTurn);
        };
        self.stage = Stage::Ruled(machine, fit);
        Ok(())
    }

    pub(crate) fn take_layer(&mut self, layer: Layer) -> Result<(), Refusal>
        ensures took { TookBy (judge_layer self.old.stage (vec_len self.old.actors) self.old.layers.items layer) (draft_of self.old) (WithLayer layer) (draft_of self.new) result }
        ensures kept { OnErr result (self.new ≡ self.old) }
    {
        // kept: a stage is one of three, so no Option says whether it is this one.
        let Stage::Ruled(_, _) = self.stage else {
            return Err(Refusal::OutOfTurn);
        };
        if !self.actors.is_empty() || has_such(self.layers.as_slice(), layer) {
            return Err(Refusal::OutOfTurn);
        }
        if let Layer::LowLine(0) = layer {
            return Err(Refusal::OffRange);
        }
        self.layers.push_reserved(layer);
        Ok(())
    }

    pub(crate) fn take_actor(&mut self, actor: Actor) -> Result<(), Refusal>
        ensures took { TookBy (judge_actor self.old.stage (vec_len self.old.actors) (vec_len self.old.links.list) actor) (draft_of self.old) (NextActor actor) (draft_of self.new) result }
        ensures kept { OnErr result (self.new ≡ self.old) }
    {
        // kept: a stage is one of three, so no Option says whether it is this one.
        let Stage::Ruled(machine, _) = self.stage else {
            return Err(Refusal::OutOfTurn);
        };
        if !self.links.list.is_empty() {
            return Err(Refusal::OutOfTurn);
        }
        if actor.work > MOST_BYTES {
            return Err(Refusal::OffRange);
        }
        if actor.core >= machine.cores {
            return Err(Refusal::Unknown);
        }
        if self.actors.len() >= MOST_ACTORS {
            return Err(Refusal::TooMany);
        }
        self.push_actor(actor);
        Ok(())
    }

    // The actor, and its working area if it has one.
    fn push_actor(&mut self, actor: Actor)
        requires headed { is_ruled self.old.stage ≡ true }
        requires first { vec_len self.old.links.list ≡ 0 }
        requires room { vec_len self.old.actors < 64 }
        requires small { actor.work ≤ 16777216 }
        requires seated { actor.core < 8 }
        ensures actors { self.new.actors.items ≡ self.old.actors.items ++ actor ∷ [] }
        ensures stage { self.new.stage ≡ self.old.stage }
        ensures layers { self.new.layers ≡ self.old.layers }
        ensures links { self.new.links ≡ self.old.links }
    {
        let number = self.actors.len() as u32;
        self.actors.push_reserved(actor);
        if actor.work > 0 {
            self.objects.push(Object {
                producer: number,
                consumer: number,
                size: actor.work,
                delayed: false,
            });
        }
    }
}
