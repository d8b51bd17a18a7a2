//! Lists that are taken from the left, and rows that are made so.

ghost use Rattle.std.specs.Prelude.{◌≡◌, reverse, IfOk};
ghost use Rattle.isl_flat.specs.Flat.{whole, is_gist, is_gist_alone};

use isl_tree::statement::{Binary, Expr, Link};
use sqlite_items::{Boxed, Items};
use std::alloc::{AllocError, Global};

/// Whether the operator is `%`.
pub(crate) fn is_gist(operator: Binary) -> bool
    ensures { result ≡ is_gist operator }
{
    matches!(operator, Binary::Gist)
}

/// Whether a row is a `%` of two operands.
pub(crate) fn is_gist_alone(links: &[Link]) -> bool
    ensures { result ≡ is_gist_alone links.now }
{
    match links {
        [link] => is_gist(link.operator),
        _ => false,
    }
}

/// A row whose operands on the left are flattened.
#[derive(Drop)]
pub(crate) struct Row {
    pub(crate) first: Expr,
    pub(crate) links: Items<Link>,
}

impl Row {
    /// Whether the row is a `%` of two operands.
    pub(crate) fn is_gist(&self) -> bool
        ensures { result ≡ is_gist_alone self.now.links }
    {
        is_gist_alone(self.links.as_slice())
    }

    /// The row as an expression.
    pub(crate) fn whole(self, alloc: Global) -> Result<Expr, AllocError>
        ensures { IfOk result (λ expr. expr ≡ whole self.first self.links) }
    {
        let Row { first, links } = self;
        if links.is_empty() {
            return Ok(first);
        }
        Ok(Expr::Row(Boxed::new(alloc, first)?, links))
    }
}

/// The items from the last to the first.
pub(crate) fn reversed<T: Drop>(alloc: Global, mut items: Items<T>) -> Result<Items<T>, AllocError>
    ensures { IfOk result (λ turned. turned ≡ reverse items) }
{
    let mut left = items;
    let mut turned = Items::new(alloc);
    while let Some(item) = left.pop() {
        turned.push(item)?;
    }
    Ok(turned)
}
