//! Proofs, read from their text.

use isl_cert::{Cert, Form};
use sqlite_items::{Boxed, Items};
use std::alloc::{AllocError, Global};

// The words of a text, and how many are read.
#[derive(Drop)]
struct Words {
    alloc: Global,
    words: Vec<String>,
    at: usize,
    counts: Vec<usize>,
}

/// The proof that the text spells, if it spells one and nothing else; of each out is told how many parts it asks for.
pub(crate) fn cert_of(
    alloc: Global,
    text: &str,
    counts: Vec<usize>,
) -> Result<Option<Cert>, AllocError> {
    let mut words = Words {
        alloc,
        words: Vec::new(alloc),
        at: 0,
        counts,
    };
    for word in text.split(' ') {
        words.words.push(String::from_str(alloc, word)?)?;
    }
    let cert = words.cert(3000)?;
    if words.at < words.words.len() {
        return Ok(None);
    }
    Ok(cert)
}

impl Words {
    // The next word, where there is one.
    fn next(&mut self) -> Option<&str> {
        let at = self.at;
        self.at = at.saturating_add(1);
        self.words.get(at).map(|word| word.as_str())
    }

    fn place(&mut self) -> Option<usize> {
        self.next()?.parse::<usize>().ok()
    }

    fn number(&mut self) -> Option<i128> {
        self.next()?.parse::<i128>().ok()
    }

    // Numbers between square brackets; the last one is the constant.
    fn form(&mut self) -> Result<Option<Form>, AllocError> {
        let mut numbers = Vec::new(self.alloc);
        for at in self.at..self.words.len() {
            let Some(word) = self.words.get(at).map(|word| word.as_str()) else {
                return Ok(None);
            };
            self.at = at.saturating_add(1);
            let digits = word.trim_start_matches('[').trim_end_matches(']');
            let Ok(number) = digits.parse::<i128>() else {
                return Ok(None);
            };
            numbers.push(number)?;
            if word.ends_with(']') {
                break;
            }
        }
        let Some(constant) = numbers.pop() else {
            return Ok(None);
        };
        Ok(Some(Form {
            coefs: Items::from_vec(numbers),
            constant,
        }))
    }

    // A proof with at most so many nodes in one another.
    #[cycle(read)]
    fn cert(&mut self, fuel: usize) -> Result<Option<Cert>, AllocError> {
        let Some(less) = fuel.checked_sub(1) else {
            return Ok(None);
        };
        match self.next() {
            Some("false") => Ok(self.place().map(Cert::False)),
            Some("add") => self.add(less),
            Some("tie") => self.tie(less),
            Some("mod") => self.divided(true, less),
            Some("weaken") => self.divided(false, less),
            Some("fresh") => self.fresh(less),
            Some("split") => self.split(less),
            Some("residue") => self.residue(less),
            Some("outside") => self.outside(less),
            _ => Ok(None),
        }
    }

    #[cycle(read)]
    fn part(&mut self, fuel: usize) -> Result<Option<Boxed<Cert>>, AllocError> {
        let Some(less) = fuel.checked_sub(1) else {
            return Ok(None);
        };
        match self.cert(less)? {
            Some(cert) => Ok(Some(Boxed::new(self.alloc, cert)?)),
            None => Ok(None),
        }
    }

    // So many proofs.
    #[cycle(read)]
    fn parts(&mut self, count: usize, fuel: usize) -> Result<Option<Items<Cert>>, AllocError> {
        let Some(less) = fuel.checked_sub(1) else {
            return Ok(None);
        };
        let mut certs = Items::new(self.alloc);
        for _ in 0..count {
            let Some(cert) = self.cert(less)? else {
                return Ok(None);
            };
            certs.push(cert)?;
        }
        Ok(Some(certs))
    }

    #[cycle(read)]
    fn add(&mut self, fuel: usize) -> Result<Option<Cert>, AllocError> {
        let Some(less) = fuel.checked_sub(1) else {
            return Ok(None);
        };
        let (i, a) = (self.place(), self.number());
        let (j, b) = (self.place(), self.number());
        let part = self.part(less)?;
        match (i, a, j, b, part) {
            (Some(i), Some(a), Some(j), Some(b), Some(part)) => Ok(Some(Cert::Add(
                i, a, j, b, part,
            ))),
            _ => Ok(None),
        }
    }

    #[cycle(read)]
    fn tie(&mut self, fuel: usize) -> Result<Option<Cert>, AllocError> {
        let Some(less) = fuel.checked_sub(1) else {
            return Ok(None);
        };
        let (i, j) = (self.place(), self.place());
        match (i, j, self.part(less)?) {
            (Some(i), Some(j), Some(part)) => Ok(Some(Cert::Tie(i, j, part))),
            _ => Ok(None),
        }
    }

    #[cycle(read)]
    fn divided(&mut self, is_mod: bool, fuel: usize) -> Result<Option<Cert>, AllocError> {
        let Some(less) = fuel.checked_sub(1) else {
            return Ok(None);
        };
        let (i, k) = (self.place(), self.number());
        match (i, k, self.part(less)?) {
            (Some(i), Some(k), Some(part)) if is_mod => Ok(Some(Cert::Mod(i, k, part))),
            (Some(i), Some(k), Some(part)) => Ok(Some(Cert::Weaken(i, k, part))),
            _ => Ok(None),
        }
    }

    #[cycle(read)]
    fn fresh(&mut self, fuel: usize) -> Result<Option<Cert>, AllocError> {
        let Some(less) = fuel.checked_sub(1) else {
            return Ok(None);
        };
        match (self.place(), self.part(less)?) {
            (Some(i), Some(part)) => Ok(Some(Cert::Fresh(i, part))),
            _ => Ok(None),
        }
    }

    #[cycle(read)]
    fn split(&mut self, fuel: usize) -> Result<Option<Cert>, AllocError> {
        let Some(less) = fuel.checked_sub(1) else {
            return Ok(None);
        };
        let form = self.form()?;
        let up = self.part(less)?;
        match (form, up, self.part(less)?) {
            (Some(form), Some(up), Some(down)) => Ok(Some(Cert::Split(form, up, down))),
            _ => Ok(None),
        }
    }

    #[cycle(read)]
    fn residue(&mut self, fuel: usize) -> Result<Option<Cert>, AllocError> {
        let Some(less) = fuel.checked_sub(1) else {
            return Ok(None);
        };
        let form = self.form()?;
        let k = self.number();
        let count = k.and_then(|k| usize::try_from(k).ok()).unwrap_or(0);
        match (form, k, self.parts(count.min(10_000), less)?) {
            (Some(form), Some(k), Some(parts)) => Ok(Some(Cert::Residue(form, k, parts))),
            _ => Ok(None),
        }
    }

    #[cycle(read)]
    fn outside(&mut self, fuel: usize) -> Result<Option<Cert>, AllocError> {
        let Some(less) = fuel.checked_sub(1) else {
            return Ok(None);
        };
        let q = self.place();
        let count = q.and_then(|q| self.counts.get(q)).map_or(0, |count| *count);
        match (q, self.parts(count, less)?) {
            (Some(q), Some(parts)) => Ok(Some(Cert::Outside(q, parts))),
            _ => Ok(None),
        }
    }
}
