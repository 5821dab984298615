// What the lines of a sheet say.

ghost use Rattle.std.specs.Prelude.{◌≡◌, ◌+◌, ◌≤◌, true, false, [], IfOk, vec_len, vec_capacity};
ghost use Rattle.graph.specs.Sizes.{objects_in};
ghost use Rattle.graph.specs.Seats.{all_known, all_on};
ghost use Rattle.graph.specs.Stages.{grain_of, is_ruled, stage_cores};
ghost use Rattle.graph.specs.declared.stage.Stage.TheVariants.{Blank};
ghost use Rattle.rules.specs.Fitting.{is_grain, may_layer};

use crate::links::Links;
use crate::objects::Objects;
use crate::order::MOST_ACTORS;
use crate::stage::Stage;
use rules::sheet::{Actor, Layer};
use std::alloc::{AllocError, Global};

// The lines read, in their order, and the objects that they make.
// All memory is reserved when it is made.
#[derive(Drop)]
pub struct ReadSheet {
    pub(crate) stage: Stage,
    pub(crate) layers: Vec<Layer>,
    pub(crate) actors: Vec<Actor>,
    pub(crate) links: Links,
    pub(crate) objects: Objects,
    ghost layering: { 2 ≤ vec_capacity layers },
    ghost layered: { may_layer layers.items ≡ true },
    ghost room: { 64 ≤ vec_capacity actors },
    ghost few: { vec_len actors ≤ 64 },
    ghost counted: { vec_len objects.list ≤ vec_len actors + links.fifos },
    ghost grained: { is_grain (grain_of stage) ≡ true },
    ghost headed: { (is_ruled stage ≡ false → (vec_len layers ≡ 0) × (vec_len actors ≡ 0)) },
    ghost peopled: { (vec_len actors ≡ 0 → vec_len links.list ≡ 0) },
    ghost listed: { objects.list.items ≡ objects_in actors.items links.list.items },
    ghost cored: { stage_cores stage ≤ 8 },
    ghost seated: { all_on 8 actors.items ≡ true },
    ghost known: { all_known (vec_len actors) links.list.items ≡ true },
}

impl ReadSheet {
    // Nothing is read.
    pub(crate) fn new(heap: Global) -> Result<ReadSheet, AllocError>
        ensures { IfOk result (λ s. s.stage ≡ Blank) }
    {
        let layers = Vec::with_capacity(heap, 2)?;
        let actors = Vec::with_capacity(heap, MOST_ACTORS)?;
        let links = Links::new(heap)?;
        let objects = Objects::new(heap)?;
        Ok(ReadSheet {
            stage: Stage::Blank,
            layers,
            actors,
            links,
            objects,
        })
    }

    // Forgets what was read.
    pub(crate) fn clear(&mut self)
        ensures { self.new.stage ≡ Blank }
    {
        self.stage = Stage::Blank;
        self.layers.clear();
        self.actors.clear();
        self.links.clear();
        self.objects.clear();
    }
}
