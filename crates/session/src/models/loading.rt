// How a catalogue comes into a model.
ghost use Rattle.std.specs.Prelude.{◌≡◌, ◌≤◌, IfOk, vec_capacity};
ghost use Rattle.access.specs.Lists.{new_entities, new_lists};
ghost use Rattle.catalogue.specs.Sound.{Sound};
ghost use Rattle.session.specs.Models.{lists_of};

use crate::loads::load;
use crate::models::Model;
use access::{Entity, Kind};
use catalogue::Catalogue;
use order::{EntityOrder, RoleOrder};
use std::alloc::{AllocError, Global};

// The entities of a new book, in a table that has room for those of any catalogue.
fn first_entities(heap: Global) -> Result<Vec<Entity>, AllocError>
    ensures items { IfOk result (λ v. v.items ≡ new_entities) }
    ensures room { IfOk result (λ v. 96 ≤ vec_capacity v) }
{
    let mut entities = Vec::with_capacity(heap, 96)?;
    entities.push_reserved(Entity::first(Kind::Container));
    entities.push_reserved(Entity::first(Kind::Role));
    entities.push_reserved(Entity::first(Kind::Role));
    Ok(entities)
}

impl Model {
    // A model of a new book. It takes the memory for any catalogue, so that no later call wants more.
    pub fn new(heap: Global) -> Result<Model, AllocError>
        ensures { IfOk result (λ m. lists_of m ≡ new_lists) }
    {
        let entities = first_entities(heap)?;
        let links = Vec::with_capacity(heap, 64)?;
        let rights = Vec::with_capacity(heap, 4096)?;
        let members = Vec::with_capacity(heap, 4096)?;
        let lines = Vec::with_capacity(heap, 4096)?;
        let places = EntityOrder::build(&entities);
        let roles = RoleOrder::build(&entities, &links);
        Ok(Model {
            entities,
            links,
            rights,
            members,
            lines,
            places,
            roles,
        })
    }

    // Loads a catalogue in place of the one before.
    #[tactic(auto, using(crate::proofs::Copying::sound_few, crate::proofs::Copying::sound_rooted))]
    pub fn load<C: Catalogue>(&mut self, catalogue: &C)
        requires { Sound (C.meaning catalogue.now) }
        ensures { lists_of self.new ≡ C.meaning catalogue.now }
    {
        load(catalogue, &mut self.entities);
        load(catalogue, &mut self.links);
        load(catalogue, &mut self.rights);
        load(catalogue, &mut self.members);
        load(catalogue, &mut self.lines);
        self.places = EntityOrder::build(&self.entities);
        self.roles = RoleOrder::build(&self.entities, &self.links);
    }
}
