//! Which rows a branch stands on, and does not bring.

use crate::search::{Branch, How, Part, Search};
use isl_meter::Cut;

/// For each branch the rows that it stands on.
#[derive(Drop)]
pub(crate) struct Needs {
    lists: Vec<Vec<usize>>,
    marks: Vec<bool>,
}

impl Search {
    /// The rows of which this one was made.
    pub(crate) fn parents(&self, at: usize) -> (Option<usize>, Option<usize>) {
        match self.facts.get(at).map(|fact| fact.how) {
            Some(How::Sum(first, _, second, _)) => (Some(first), Some(second)),
            Some(How::Tie(first, second)) => (Some(first), Some(second)),
            Some(How::Divided(first, _)) => (Some(first), None),
            Some(How::Given) | None => (None, None),
        }
    }

    fn scope(&self, at: usize) -> Option<usize> {
        self.facts.get(at).map(|fact| fact.scope)
    }
}

impl Needs {
    /// Those of all branches, the parts before the whole.
    pub(crate) fn of(search: &Search) -> Result<Needs, Cut> {
        let mut needs = Needs {
            lists: Vec::with_capacity(search.alloc, search.branches.len())?,
            marks: Vec::from_elem(search.alloc, false, search.facts.len())?,
        };
        for branch in search.branches.iter() {
            let list = needs.own(search, branch)?;
            needs.lists.push(list)?;
        }
        Ok(needs)
    }

    fn own(&mut self, search: &Search, branch: &Branch) -> Result<Vec<usize>, Cut> {
        let mut list = Vec::new(search.alloc);
        match branch {
            Branch::Leaf(fact) => list.push(*fact)?,
            Branch::Fresh(fact, part) => {
                list.push(*fact)?;
                self.add_part(search, &mut list, *part)?;
            }
            Branch::Split(_, first, second) => {
                self.add_part(search, &mut list, *first)?;
                self.add_part(search, &mut list, *second)?;
            }
            Branch::Residue(_, _, parts) | Branch::Outside(_, parts) => {
                for part in parts.iter() {
                    self.add_part(search, &mut list, *part)?;
                }
            }
        }
        Ok(list)
    }

    fn add_part(&mut self, search: &Search, list: &mut Vec<usize>, part: Part) -> Result<(), Cut> {
        for fact in self.lifted(search, part)? {
            put_once(list, fact)?;
        }
        Ok(())
    }

    /// What the part stands on in front of the row that it brings: in the place of rows that stand on this one, those of which
    /// they were made.
    pub(crate) fn lifted(&mut self, search: &Search, part: Part) -> Result<Vec<usize>, Cut> {
        let mut outer: Vec<usize> = Vec::new(search.alloc);
        let mut top = part.brought;
        let own = self.lists.get(part.branch).map_or(0, |list| list.len());
        for at in 0..own {
            let found = self.lists.get(part.branch).and_then(|list| list.get(at));
            if let Some(fact) = found.map(|fact| *fact) {
                top = top.max(fact);
                self.sort(search, &mut outer, part.brought, fact)?;
            }
        }
        for at in (part.brought..top.saturating_add(1)).rev() {
            if !self.unmark(at) {
                continue;
            }
            let (first, second) = search.parents(at);
            if let Some(fact) = first {
                self.sort(search, &mut outer, part.brought, fact)?;
            }
            if let Some(fact) = second {
                self.sort(search, &mut outer, part.brought, fact)?;
            }
        }
        Ok(outer)
    }

    // Marks a row that stands on the brought one, or puts it with the others.
    fn sort(
        &mut self,
        search: &Search,
        outer: &mut Vec<usize>,
        brought: usize,
        fact: usize,
    ) -> Result<(), Cut> {
        if fact == brought {
            return Ok(());
        }
        if search.scope(fact) == Some(brought) && fact > brought {
            if let Some(mark) = self.marks.get_mut(fact) {
                *mark = true;
            }
            return Ok(());
        }
        put_once(outer, fact)
    }

    fn unmark(&mut self, at: usize) -> bool {
        match self.marks.get_mut(at) {
            Some(mark) => {
                let was = *mark;
                *mark = false;
                was
            }
            None => false,
        }
    }
}

fn put_once(list: &mut Vec<usize>, fact: usize) -> Result<(), Cut> {
    if !list.iter().any(|old| *old == fact) {
        list.push(fact)?;
    }
    Ok(())
}
