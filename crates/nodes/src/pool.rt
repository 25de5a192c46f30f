// The nodes of a board as a pool: its methods hand the slice to the functions that find nodes to be
// used again, link and unlink. That it is a struct over the slice is a rule of the project. The clause
// `same` stands with each method that writes: it relates two values, which no ghost field can.
ghost use Rattle.std.specs.Prelude.{◌≡◌, length};
ghost use Rattle.nodes.specs.Effects.{written, link_job, link_wait, unlink as unlinked};
ghost use Rattle.nodes.specs.Reuse.{highest, reusable_count};

use crate::controller::{Controller, JobRef};
use crate::node::{Node, Pair};
use crate::refusal::Damage;
use crate::{links, reuse};

// The nodes of a board.
#[derive(Drop)]
pub struct Pool<'a, K> {
    pub nodes: &'a mut [Node<K>],
}

impl<K: Copy> Pool<'_, K> {
    // The highest number below the bound of a node that may be used again.
    pub fn highest_reusable(&self, controllers: &[Controller<K>], bound: u16) -> Option<u16>
        ensures { result ≡ highest controllers.now self.now.nodes.now bound }
    {
        reuse::highest_reusable(controllers, self.nodes, bound)
    }

    // How many nodes may be used again.
    pub fn count_reusable(&self, controllers: &[Controller<K>]) -> usize
        ensures { result ≡ reusable_count controllers.now self.now.nodes.now (length self.now.nodes.now) }
    {
        reuse::count_reusable(controllers, self.nodes)
    }

    // Links a new job between a pair of neighbours, with a sentinel of its own.
    pub fn link_job(&mut self, pair: Pair, job: JobRef, key: K) -> Result<(), Damage>
        ensures after { (result, self.new.nodes.now) ≡ written self.old.nodes.now (link_job pair job key self.old.nodes.now) }
        ensures same { self.new.nodes.ghost_name ≡ self.old.nodes.ghost_name }
    {
        links::link_job(self.nodes, pair, job, key)
    }

    // Links a new tentative wait between a pair of neighbours, locked by its maker.
    pub fn link_wait(
        &mut self,
        pair: Pair,
        wait: u16,
        key: K,
        who: u8,
        to: JobRef,
    ) -> Result<(), Damage>
        ensures after { (result, self.new.nodes.now) ≡ written self.old.nodes.now (link_wait pair wait key who to self.old.nodes.now) }
        ensures same { self.new.nodes.ghost_name ≡ self.old.nodes.ghost_name }
    {
        links::link_wait(self.nodes, pair, wait, key, who, to)
    }

    // Takes a job or a wait out of its chain; it retires with this number.
    pub fn unlink(&mut self, first: u16, taken: u16, number: u32) -> Result<(), Damage>
        ensures after { (result, self.new.nodes.now) ≡ written self.old.nodes.now (unlinked first taken number self.old.nodes.now) }
        ensures same { self.new.nodes.ghost_name ≡ self.old.nodes.ghost_name }
    {
        links::unlink(self.nodes, first, taken, number)
    }
}
