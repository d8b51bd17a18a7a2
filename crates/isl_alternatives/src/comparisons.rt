//! The comparisons of a chain, one after another.

ghost use Rattle.std.specs.Prelude.{◌≡◌, ◌∷◌, [], MatchOption};
ghost use Rattle.isl_alternatives.specs.Chain.{chain_compared};

use isl_affine::Comparison;
use isl_tree::tree::{Link, Term};

/// The comparisons of a chain that are ahead: of the first of the terms on the left with the rest of the side behind it, of the others
/// with that whole side, and those of the links behind. Each is made when it is asked for.
#[derive(Clone, Copy)]
pub(crate) struct Comparisons<'a> {
    lefts: &'a [Term],
    rights: &'a [Term],
    links: &'a [Link],
}

// The side of the first link.
fn first_side<'a>(links: &'a [Link]) -> &'a [Term]
    ensures { (link : _) (rest : _) → links.now ≡ link ∷ rest → result.now ≡ link.1 }
{
    match links {
        [link, ..] => link.1.as_slice(),
        [] => &[],
    }
}

impl<'a> Comparisons<'a> {
    ghost use Rattle.isl_alternatives.specs.Ahead.{ahead_of};

    /// Those of the chain.
    pub(crate) fn of_chain(first: &'a [Term], links: &'a [Link]) -> Comparisons<'a>
        ensures { ahead_of result ≡ chain_compared first.now links.now }
    {
        Comparisons {
            lefts: first,
            rights: first_side(links),
            links,
        }
    }

    /// The next one, which is no more ahead then.
    pub(crate) fn next(&mut self) -> Option<Comparison<'a>>
        ensures { MatchOption result (ahead_of self.old ≡ [])
            (λ c. ahead_of self.old ≡ (c.left.now, c.compare, c.right.now) ∷ ahead_of self.new) }
    {
        while let [link, links @ ..] = self.links {
            match (self.lefts, self.rights) {
                ([left, ..], [right, rights @ ..]) => {
                    self.rights = rights;
                    return Some(Comparison {
                        left: left.as_slice(),
                        compare: link.0,
                        right: right.as_slice(),
                    });
                }
                ([_, lefts @ ..], []) => {
                    self.lefts = lefts;
                    self.rights = link.1.as_slice();
                }
                ([], _) => {
                    self.lefts = link.1.as_slice();
                    self.rights = first_side(links);
                    self.links = links;
                }
            }
        }
        None
    }
}
