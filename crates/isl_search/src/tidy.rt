//! Rows, each once.

use crate::search::Search;
use isl_meter::Cut;
use isl_piece::RowKind;

/// What is left of rows.
#[derive(Drop)]
pub(crate) enum Tidy {
    /// This row never holds.
    Never(usize),
    /// Each bound once, and equalities in the place of opposite bounds that meet.
    Rows(Vec<usize>),
}

// How a row stands to another one.
#[derive(Clone, Copy, PartialEq, Eq)]
enum Beside {
    Apart,
    // It says no more.
    Implied,
    // It says more.
    Tighter,
    // The bounds are opposite, and their constants add up to this.
    Opposite(i128),
}

impl Search {
    fn beside(&self, fact: usize, other: usize) -> Result<Beside, Cut> {
        let (Some(one), Some(two)) = (self.facts.get(fact), self.facts.get(other)) else {
            return Err(Cut::NoMemory);
        };
        let (p, q) = (&one.line, &two.line);
        if p.kind != q.kind || p.k != q.k {
            return Ok(Beside::Apart);
        }
        let is_bound = p.kind == RowKind::AtLeast;
        if p.is_along(q, 1) {
            return Ok(match (is_bound, p.constant < q.constant) {
                (true, true) => Beside::Tighter,
                (false, _) if p.constant != q.constant => Beside::Apart,
                _ => Beside::Implied,
            });
        }
        if is_bound && p.is_along(q, -1) {
            let sum = p.constant.checked_add(q.constant).ok_or(Cut::Overflow)?;
            return Ok(Beside::Opposite(sum));
        }
        Ok(Beside::Apart)
    }

    /// The rows, each once: of bounds on one form the tightest.
    pub(crate) fn tightest(&mut self, facts: &[usize]) -> Result<Tidy, Cut> {
        let mut kept: Vec<usize> = Vec::with_capacity(self.alloc, facts.len())?;
        for fact in facts {
            match self.truth(*fact) {
                Some(true) => continue,
                Some(false) => return Ok(Tidy::Never(*fact)),
                None => {}
            }
            if let Some(sum) = self.put(&mut kept, *fact)? {
                return Ok(Tidy::Never(sum));
            }
        }
        Ok(Tidy::Rows(kept))
    }

    // Puts the row beside the others; answers a sum that never holds.
    fn put(&mut self, kept: &mut Vec<usize>, fact: usize) -> Result<Option<usize>, Cut> {
        let mut new = true;
        for at in 0..kept.len() {
            let Some(other) = kept.get(at).map(|other| *other) else {
                break;
            };
            match self.beside(fact, other)? {
                Beside::Apart => {}
                Beside::Implied => new = false,
                Beside::Tighter => {
                    new = false;
                    if let Some(place) = kept.get_mut(at) {
                        *place = fact;
                    }
                }
                Beside::Opposite(sum) if sum < 0 => return Ok(Some(self.add(fact, 1, other, 1)?)),
                Beside::Opposite(_) => {}
            }
        }
        if new {
            kept.push(fact)?;
        }
        Ok(None)
    }

    /// The rows, each once, with equalities in the place of opposite bounds that meet.
    pub(crate) fn tidied(&mut self, facts: &[usize]) -> Result<Tidy, Cut> {
        let kept = match self.tightest(facts)? {
            Tidy::Never(fact) => return Ok(Tidy::Never(fact)),
            Tidy::Rows(kept) => kept,
        };
        let mut left: Vec<usize> = Vec::with_capacity(self.alloc, kept.len())?;
        for fact in kept.iter() {
            match self.met(left.as_slice(), *fact)? {
                Some((at, other)) => {
                    let tied = self.tie(other, *fact)?;
                    if self.truth(tied) == Some(false) {
                        return Ok(Tidy::Never(tied));
                    }
                    if let Some(place) = left.get_mut(at) {
                        *place = tied;
                    }
                }
                None => left.push(*fact)?,
            }
        }
        Ok(Tidy::Rows(left))
    }

    // The opposite bound that this one meets, and where it stands.
    fn met(&self, left: &[usize], fact: usize) -> Result<Option<(usize, usize)>, Cut> {
        for (at, other) in left.iter().enumerate() {
            if self.beside(fact, *other)? == Beside::Opposite(0) {
                return Ok(Some((at, *other)));
            }
        }
        Ok(None)
    }
}
