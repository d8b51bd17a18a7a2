//! Listed elements.

ghost use Rattle.std.specs.Prelude.{◌≡◌, ◌<◌, ◌^◌, ◌++◌, List, IfOk, OnOk, length, map, string_bytes};
ghost use Rattle.isl_print.specs.Joined.{Text};
ghost use Rattle.isl_scan.specs.Groups.{elements_in, elements_of, space_in, IsGroup};
ghost use Rattle.isl_scan.specs.ListingText.{element_text, listing_text};
ghost use Rattle.isl_scan.specs.Rest.{lead_text, rest_text};

use crate::group::Group;
use isl_print::write_tuples;
use std::alloc::{AllocError, Global};
use std::marker::Model;

/// Elements in order. Contracts see the list of them.
#[derive(Drop)]
pub struct Listing {
    pub(crate) groups: Vec<Group>,
}

impl Model for Listing {
    ghost use Rattle.std.specs.Prelude.{◌<◌, ◌^◌, List, length};
    ghost use Rattle.isl_space.specs.Element.{Element};
    ghost use Rattle.isl_scan.specs.Stored.{listing_code};

    ghost Value = { List Element };

    ghost coded = { listing_code };

    ghost use Rattle.isl_scan.specs.Groups.{elements_of, AreGroups};

    ghost view = { λ l. elements_of l.groups.items };

    ghost invariant = { λ l. AreGroups l.groups.items × (length (elements_of l.groups.items) < 2 ^ 64) };
}

// The number of elements of all groups.
#[tactic(auto, using(std::proofs::lemmas::Grind::common_steps, crate::proofs::GroupLaws::one_fewer))]
fn count(groups: &[Group]) -> usize
    requires { length (elements_of groups.now) < 2 ^ 64 }
    ensures { result ≡ length (elements_of groups.now) }
{
    let mut count = 0;
    for group in groups {
        count += group.points.len();
    }
    count
}

// What stands before an element.
fn write_lead(out: &mut String, is_first: bool) -> Result<(), AllocError>
    ensures { OnOk result (string_bytes out.new ≡ string_bytes out.old ++ lead_text is_first) }
{
    out.push_str(if is_first { " " } else { "; " })
}

// Writes the elements of a group behind others, or as the first ones, and answers whether what follows is the first.
#[tactic(auto, using(std::proofs::lemmas::Grind::common_steps, crate::proofs::TextLaws::group_steps))]
fn write_group(out: &mut String, is_first: bool, group: &Group) -> Result<bool, AllocError>
    requires { IsGroup group.now }
    ensures { (others : List Text) → IfOk result (λ next. string_bytes out.new ++ rest_text next others
        ≡ string_bytes out.old
        ++ rest_text is_first (map element_text (elements_in (space_in group.now) group.now.points) ++ others)) }
{
    let mut is_first = is_first;
    for place in 0..group.points.len() {
        write_lead(out, is_first)?;
        write_tuples(out, &group.space, group.points.get(place))?;
        is_first = false;
    }
    Ok(is_first)
}

impl Listing {
    /// The number of elements.
    pub fn len(&self) -> usize
        ensures { result ≡ length self.now }
    {
        count(self.groups.as_slice())
    }

    /// The elements as text, in braces.
    ///
    /// # Errors
    ///
    /// Where memory ends.
    pub fn text(&self, alloc: Global) -> Result<String, AllocError>
        ensures { IfOk result (λ text. string_bytes text ≡ listing_text self.now) }
    {
        let mut out = String::from_str(alloc, "{")?;
        let mut is_first = true;
        for group in self.groups.as_slice() {
            is_first = write_group(&mut out, is_first, group)?;
        }
        out.push_str(" }")?;
        Ok(out)
    }
}
