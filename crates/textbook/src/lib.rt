//! The textbook solver: the classical nested fixpoint over any arena, plain and slow.
//!
//! It is a tool to compare with, not a call of the library: it is proved to be safe and to end, and tested to be right.
//!
//! The controller's states are νZ ⋂_j μY ⋃_i νX of (G_j ∩ CPre Z) ∪ CPre Y ∪ (complement of A_i ∩ CPre X), where G_j and A_i
//! are the guarantee and assumption sets, and CPre S are the states at which every open input has a legal reply into S.
#![tactic(auto)]

ghost use Rattle.std.specs.Prelude.{◌≡◌, IfOk, vec_len};

use crate::state_set::StateSet;
use arena::{Arena, Moves, Player};
use std::alloc::{AllocError, Global};

mod state_set;

/// Which player wins each state, in the order of the states.
pub fn winners<A: Arena>(heap: Global, arena: &A) -> Result<Vec<Player>, AllocError>
    ensures { IfOk result (λ v. vec_len v ≡ (A.moves arena.now).states) }
{
    let states = arena.states();
    let mut fixpoint = Fixpoint {
        arena,
        z: StateSet::full(heap, states)?,
        y: StateSet::full(heap, states)?,
        x: StateSet::full(heap, states)?,
    };
    fixpoint.find_z();
    players(heap, &fixpoint.z, states)
}

// The controller for each state of the set, and the environment for the others.
fn players(heap: Global, set: &StateSet, states: u16) -> Result<Vec<Player>, AllocError>
    ensures { IfOk result (λ v. vec_len v ≡ states) }
{
    (0..states)
        .map(|state| {
            if set.contains(state) {
                Player::Controller
            } else {
                Player::Environment
            }
        })
        .collect(heap)
}

// The sets of the three fixpoints, each computed within the one before it.
#[derive(Drop)]
struct Fixpoint<'a, A> {
    arena: &'a A,
    z: StateSet,
    y: StateSet,
    x: StateSet,
}

impl<A: Arena> Fixpoint<'_, A> {
    // The greatest Z: it shrinks from all states until each guarantee set's least Y leaves it as it is.
    fn find_z(&mut self) {
        settle(self.arena.states(), self.arena.guarantees(), |guarantee| {
            self.find_y(guarantee);
            self.z.intersect(&self.y)
        });
    }

    // The least Y: it grows from nothing until no assumption set's greatest X adds a state.
    fn find_y(&mut self, guarantee: u16) {
        self.y.fill(false);
        settle(
            self.arena.states(),
            self.arena.assumptions(),
            |assumption| {
                self.find_x(guarantee, assumption);
                self.y.unite(&self.x)
            },
        );
    }

    // The greatest X: it shrinks from all states until every state left may stay.
    fn find_x(&mut self, guarantee: u16, assumption: u16) {
        self.x.fill(true);
        let states = self.arena.states();
        settle(states, states, |state| {
            let leaves = self.x.contains(state) && !self.stays(guarantee, assumption, state);
            if leaves {
                self.x.remove(state);
            }
            leaves
        });
    }

    // Whether the state is in (G_j ∩ CPre Z) ∪ CPre Y ∪ (complement of A_i ∩ CPre X).
    fn stays(&self, guarantee: u16, assumption: u16, state: u16) -> bool {
        self.arena.in_guarantee(guarantee, state) && controls(self.arena, &self.z, state)
            || controls(self.arena, &self.y, state)
            || !self.arena.in_assumption(assumption, state) && controls(self.arena, &self.x, state)
    }
}

// Calls `change` at each number below `count`, round after round, until a round changes nothing or `rounds` of them are over.
fn settle<F: FnMut(u16) -> bool>(rounds: u16, count: u16, mut change: F)
    requires { F.IsAlwaysCallable change }
{
    for _ in 0..rounds {
        let mut changed = false;
        for number in 0..count {
            changed |= change(number);
        }
        if !changed {
            return;
        }
    }
}

// CPre: whether every open input has a legal reply into the set.
fn controls<A: Moves>(arena: &A, set: &StateSet, state: u16) -> bool {
    (0..arena.inputs())
        .filter(|input| arena.is_open(state, *input))
        .all(|input| has_reply_into(arena, set, state, input))
}

// Whether some legal reply to the input leads into the set.
fn has_reply_into<A: Moves>(arena: &A, set: &StateSet, state: u16, input: u16) -> bool {
    (0..arena.replies())
        .filter_map(|reply| arena.leads(state, input, reply))
        .any(|next| set.contains(next))
}
