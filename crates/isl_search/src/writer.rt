//! What a search has found, as a tree. Rows that several parts stand on are made before them, others where they are asked for.

use crate::line::Line;
use crate::needs::Needs;
use crate::search::{Branch, How, Part, Search};
use isl_meter::Cut;
use isl_refute::{Cert, Form};
use sqlite_items::{Boxed, Items};

// How many nodes may stand in one another: the checker goes down by recursion.
const DEPTH: usize = 2000;

/// The places of the rows that stand, and which of them nodes have made.
#[derive(Drop)]
pub(crate) struct Writer {
    needs: Needs,
    places: Vec<Option<usize>>,
    uses: Vec<u8>,
    made: Vec<usize>,
    own: usize,
    count: usize,
}

impl Writer {
    /// With the first rows in their places.
    pub(crate) fn new(search: &Search, own: usize) -> Result<Writer, Cut> {
        let mut places = Vec::from_elem(search.alloc, None, search.facts.len())?;
        for (at, place) in places.iter_mut().enumerate() {
            if at < own {
                *place = Some(at);
            }
        }
        Ok(Writer {
            needs: Needs::of(search)?,
            places,
            uses: Vec::from_elem(search.alloc, 0, search.facts.len())?,
            made: Vec::new(search.alloc),
            own,
            count: own,
        })
    }

    fn place(&self, fact: usize) -> Result<usize, Cut> {
        self.places
            .get(fact)
            .and_then(|place| *place)
            .ok_or(Cut::NoMemory)
    }

    fn is_placed(&self, fact: usize) -> bool {
        self.places.get(fact).map_or(false, |place| place.is_some())
    }

    // The row goes last.
    fn put(&mut self, fact: usize) -> Result<(), Cut> {
        if self.count.saturating_sub(self.own) >= DEPTH {
            return Err(Cut::NoMemory);
        }
        let Some(place) = self.places.get_mut(fact) else {
            return Err(Cut::NoMemory);
        };
        *place = Some(self.count);
        self.count = self.count.saturating_add(1);
        Ok(())
    }

    // The last row goes.
    fn take(&mut self, fact: usize) {
        if let Some(place) = self.places.get_mut(fact) {
            *place = None;
        }
        self.count = self.count.saturating_sub(1);
    }

    // Puts a row that does not stand yet with those to be made.
    fn want(&self, order: &mut Vec<usize>, fact: Option<usize>) -> Result<(), Cut> {
        if let Some(fact) = fact
            && !self.is_placed(fact)
            && !order.iter().any(|wanted| *wanted == fact)
        {
            order.push(fact)?;
        }
        Ok(())
    }

    // Makes the row, and before it those that it stands on.
    fn make(&mut self, search: &Search, fact: usize) -> Result<(), Cut> {
        let mut order: Vec<usize> = Vec::new(search.alloc);
        if !self.is_placed(fact) {
            order.push(fact)?;
        }
        for at in 0..search.facts.len() {
            let Some(wanted) = order.get(at).map(|wanted| *wanted) else {
                break;
            };
            let (first, second) = search.parents(wanted);
            self.want(&mut order, first)?;
            self.want(&mut order, second)?;
        }
        order.sort_unstable();
        for wanted in order.iter() {
            self.put(*wanted)?;
            self.made.push(*wanted)?;
        }
        Ok(())
    }

    // Makes the rows that two parts or more stand on.
    fn make_shared(&mut self, search: &Search, parts: &[Part]) -> Result<(), Cut> {
        let mut used: Vec<usize> = Vec::new(search.alloc);
        for part in parts {
            for fact in self.needs.lifted(search, *part)? {
                let Some(uses) = self.uses.get_mut(fact) else {
                    return Err(Cut::NoMemory);
                };
                *uses = uses.saturating_add(1);
                if *uses == 1 {
                    used.push(fact)?;
                }
            }
        }
        used.sort_unstable();
        for fact in used.iter() {
            let uses = self.uses.get(*fact).map_or(0, |uses| *uses);
            if let Some(own) = self.uses.get_mut(*fact) {
                *own = 0;
            }
            if uses > 1 {
                self.make(search, *fact)?;
            }
        }
        Ok(())
    }

    /// The tree of a branch over so many columns.
    #[cycle(write)]
    pub(crate) fn write(
        &mut self,
        search: &Search,
        branch: usize,
        columns: usize,
        fuel: usize,
    ) -> Result<Cert, Cut> {
        let (Some(less), Some(found)) = (fuel.checked_sub(1), search.branches.get(branch)) else {
            return Err(Cut::NoMemory);
        };
        let start = self.made.len();
        let cert = self.node(search, found, columns, less)?;
        self.wrapped(search, cert, start)
    }

    #[cycle(write)]
    fn node(
        &mut self,
        search: &Search,
        branch: &Branch,
        columns: usize,
        fuel: usize,
    ) -> Result<Cert, Cut> {
        let Some(less) = fuel.checked_sub(1) else {
            return Err(Cut::NoMemory);
        };
        let alloc = search.alloc;
        match branch {
            Branch::Leaf(fact) => {
                self.make(search, *fact)?;
                Ok(Cert::False(self.place(*fact)?))
            }
            Branch::Fresh(fact, part) => {
                self.make(search, *fact)?;
                let place = self.place(*fact)?;
                let cert = self.part(search, *part, columns.saturating_add(1), less)?;
                Ok(Cert::Fresh(place, Boxed::new(alloc, cert)?))
            }
            Branch::Split(form, up, down) => {
                self.make_shared(search, &[*up, *down])?;
                let form = form_of(search, form, columns)?;
                let first = self.part(search, *up, columns, less)?;
                let second = self.part(search, *down, columns, less)?;
                Ok(Cert::Split(form, Boxed::new(alloc, first)?, Boxed::new(alloc, second)?))
            }
            Branch::Residue(form, k, parts) => {
                self.make_shared(search, parts.as_slice())?;
                let form = form_of(search, form, columns)?;
                let certs = self.parts(search, parts.as_slice(), columns, less)?;
                Ok(Cert::Residue(form, *k, certs))
            }
            Branch::Outside(out, parts) => {
                self.make_shared(search, parts.as_slice())?;
                let certs = self.parts(search, parts.as_slice(), columns, less)?;
                Ok(Cert::Outside(*out, certs))
            }
        }
    }

    #[cycle(write)]
    fn parts(
        &mut self,
        search: &Search,
        parts: &[Part],
        columns: usize,
        fuel: usize,
    ) -> Result<Items<Cert>, Cut> {
        let Some(less) = fuel.checked_sub(1) else {
            return Err(Cut::NoMemory);
        };
        let mut certs = Items::new(search.alloc);
        for part in parts {
            let cert = self.part(search, *part, columns, less)?;
            certs.push(cert)?;
        }
        Ok(certs)
    }

    #[cycle(write)]
    fn part(
        &mut self,
        search: &Search,
        part: Part,
        columns: usize,
        fuel: usize,
    ) -> Result<Cert, Cut> {
        let Some(less) = fuel.checked_sub(1) else {
            return Err(Cut::NoMemory);
        };
        self.put(part.brought)?;
        let cert = self.write(search, part.branch, columns, less)?;
        self.take(part.brought);
        Ok(cert)
    }

    // The tree, with the rows in front of it that were made since.
    fn wrapped(&mut self, search: &Search, cert: Cert, start: usize) -> Result<Cert, Cut> {
        let mut whole = cert;
        for _ in start..self.made.len() {
            let Some(fact) = self.made.pop() else {
                return Err(Cut::NoMemory);
            };
            self.take(fact);
            let part = Boxed::new(search.alloc, whole)?;
            whole = match search.facts.get(fact).map(|fact| fact.how) {
                Some(How::Sum(i, a, j, b)) => {
                    Cert::Add(self.place(i)?, a, self.place(j)?, b, part)
                }
                Some(How::Tie(i, j)) => Cert::Tie(self.place(i)?, self.place(j)?, part),
                Some(How::Divided(i, k)) => Cert::Mod(self.place(i)?, k, part),
                Some(How::Given) | None => return Err(Cut::NoMemory),
            };
        }
        Ok(whole)
    }
}

// The form over so many columns.
fn form_of(search: &Search, line: &Line, columns: usize) -> Result<Form, Cut> {
    let mut coefs = Vec::with_capacity(search.alloc, columns)?;
    for column in 0..columns {
        coefs.push(line.coef(column))?;
    }
    Ok(Form {
        coefs: Items::from_vec(coefs),
        constant: line.constant,
    })
}
