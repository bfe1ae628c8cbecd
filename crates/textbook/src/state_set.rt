use std::alloc::{AllocError, Global};

// A set of states, as a flag for each.
#[derive(Drop)]
pub(crate) struct StateSet {
    flags: Vec<bool>,
}

impl StateSet {
    // All states below `states`.
    pub(crate) fn full(heap: Global, states: u16) -> Result<StateSet, AllocError> {
        let flags = vec![in heap; true; usize::from(states)]?;
        Ok(StateSet { flags })
    }

    // Whether the state is in the set.
    pub(crate) fn contains(&self, state: u16) -> bool {
        self.flags.get(usize::from(state)).copied().unwrap_or(false)
    }

    // Takes the state out of the set.
    pub(crate) fn remove(&mut self, state: u16) {
        if let Some(flag) = self.flags.get_mut(usize::from(state)) {
            *flag = false;
        }
    }

    // Adds every state, or removes every one.
    pub(crate) fn fill(&mut self, member: bool) {
        self.flags.fill(member);
    }

    // Removes what `other` lacks. Says whether a state left.
    pub(crate) fn intersect(&mut self, other: &StateSet) -> bool {
        self.combine(other, |own, others| own && others)
    }

    // Adds what `other` has. Says whether a state joined.
    pub(crate) fn unite(&mut self, other: &StateSet) -> bool {
        self.combine(other, |own, others| own || others)
    }

    // Makes each flag what `combined` says of it and of the flag of `other`. Says whether one changed.
    fn combine<F: Fn(bool, bool) -> bool>(&mut self, other: &StateSet, combined: F) -> bool
        requires { F.IsAlwaysCallable combined }
    {
        let mut changed = false;
        for (flag, others) in self.flags.iter_mut().zip(&other.flags) {
            let new = combined(*flag, *others);
            changed |= new != *flag;
            *flag = new;
        }
        changed
    }
}
