//! How elements of a formed space are put together of those of two others.

ghost use Rattle.std.specs.Prelude.{◌≡◌, ◌+◌, ◌≤◌, IfOk, option_map};
ghost use Rattle.isl_space.specs.Form.{pair, width_of};
ghost use Rattle.isl_space.specs.Limits.{most_coordinates, most_parameters};
ghost use Rattle.isl_space.specs.Shape.{form_of};
ghost use Rattle.isl_space.specs.Space.{space_form_of};
ghost use Rattle.isl_space.specs.SpaceForm.{coordinates_of};
ghost use Rattle.isl_products.specs.Layout.{form_at, layout_of, layout_view, of_map_and_set, of_maps, of_sets, pick_at};
ghost use Rattle.isl_products.specs.Layout.{pick_behind, pick_first, picked_places};

use isl_elim::columns_between;
use isl_space::{Shape, Space};
use std::alloc::{AllocError, Global};
use std::rc::Rc;

/// One of the two places of a map.
#[derive(Clone, Copy)]
pub(crate) enum Place {
    Domain,
    Range,
}

/// What is put together of elements of two values.
#[derive(Clone, Copy)]
pub(crate) enum Product {
    /// x → y of x and y.
    Universal,
    /// `[x -> y]` of x and y.
    CrossSets,
    /// `[x -> u]` → `[y -> w]` of x → y and u → w.
    CrossMaps,
    /// x → y of itself and what it has at a place.
    Restrict(Place),
}

/// Which coordinates are picked: behind so many the first ones, and behind more between them the second ones.
#[derive(Clone, Copy)]
pub(crate) struct Pick {
    pub(crate) before: u32,
    pub(crate) first: u32,
    pub(crate) between: u32,
    pub(crate) second: u32,
}

/// A formed space, and which coordinates of its elements are those of the first and of the second.
#[derive(Drop)]
pub(crate) struct Layout {
    pub(crate) space: Space,
    pub(crate) own: Pick,
    pub(crate) other: Pick,
}

impl Pick {
    // The first ones.
    fn first(count: u32) -> Pick
        ensures { result ≡ pick_first count }
    {
        Pick::behind(0, count)
    }

    // So many, behind so many others.
    fn behind(before: u32, count: u32) -> Pick
        ensures { result ≡ pick_behind before count }
    {
        Pick {
            before,
            first: count,
            between: 0,
            second: 0,
        }
    }
}

// The pair of two shapes.
fn pair(alloc: Global, left: &Rc<Shape>, right: &Rc<Shape>) -> Result<Rc<Shape>, AllocError>
    ensures { IfOk result (λ shape. form_of shape.value ≡ pair (form_of left.now.value) (form_of right.now.value)) }
{
    Ok(Rc::new(alloc, Shape::Pair(left.clone()?, right.clone()?))?)
}

// The layout of the product of two sets.
fn of_sets(
    alloc: Global,
    product: Product,
    x: &Rc<Shape>,
    y: &Rc<Shape>,
) -> Result<Option<Layout>, AllocError>
    requires own { width_of (form_of x.now.value) ≤ most_coordinates }
    requires other { width_of (form_of y.now.value) ≤ most_coordinates }
    ensures { IfOk result
        (λ found. option_map layout_view found ≡ of_sets product (form_of x.now.value) (form_of y.now.value)) }
{
    let space = match product {
        Product::Universal => Space::Map(x.clone()?, y.clone()?),
        Product::CrossSets => Space::Set(pair(alloc, x, y)?),
        _ => return Ok(None),
    };
    Ok(Some(Layout {
        space,
        own: Pick::first(x.width()),
        other: Pick::behind(x.width(), y.width()),
    }))
}

// The layout of the product of two maps.
fn of_maps(
    alloc: Global,
    product: Product,
    x: &Rc<Shape>,
    y: &Rc<Shape>,
    u: &Rc<Shape>,
    w: &Rc<Shape>,
) -> Result<Option<Layout>, AllocError>
    requires own { width_of (form_of x.now.value) + width_of (form_of y.now.value) ≤ most_coordinates }
    requires other { width_of (form_of u.now.value) + width_of (form_of w.now.value) ≤ most_coordinates }
    ensures { IfOk result (λ found. option_map layout_view found
        ≡ of_maps product (form_of x.now.value) (form_of y.now.value) (form_of u.now.value) (form_of w.now.value)) }
{
    let Product::CrossMaps = product else {
        return Ok(None);
    };
    Ok(Some(Layout {
        space: Space::Map(pair(alloc, x, u)?, pair(alloc, y, w)?),
        own: Pick {
            before: 0,
            first: x.width(),
            between: u.width(),
            second: y.width(),
        },
        other: Pick {
            before: x.width(),
            first: u.width(),
            between: y.width(),
            second: w.width(),
        },
    }))
}

/// The shape at a place of a map.
pub(crate) fn shape_at<'a>(place: Place, from: &'a Rc<Shape>, to: &'a Rc<Shape>) -> &'a Rc<Shape>
    ensures { form_of result.now.value ≡ form_at place (form_of from.now.value) (form_of to.now.value) }
{
    match place {
        Place::Domain => from,
        Place::Range => to,
    }
}

// The coordinates at a place of a map.
fn pick_at(place: Place, from: &Shape, to: &Shape) -> Pick
    requires from { width_of (form_of from.now) ≤ most_coordinates }
    requires to { width_of (form_of to.now) ≤ most_coordinates }
    ensures { result ≡ pick_at place (form_of from.now) (form_of to.now) }
{
    match place {
        Place::Domain => Pick::first(from.width()),
        Place::Range => Pick::behind(from.width(), to.width()),
    }
}

// The layout of the product of a map and a set.
fn of_map_and_set(
    product: Product,
    x: &Rc<Shape>,
    y: &Rc<Shape>,
    z: &Shape,
) -> Result<Option<Layout>, AllocError>
    requires { width_of (form_of x.now.value) + width_of (form_of y.now.value) ≤ most_coordinates }
    ensures { IfOk result (λ found. option_map layout_view found
        ≡ of_map_and_set product (form_of x.now.value) (form_of y.now.value) (form_of z.now)) }
{
    let Product::Restrict(place) = product else {
        return Ok(None);
    };
    if !shape_at(place, x, y).same(z) {
        return Ok(None);
    }
    Ok(Some(Layout {
        space: Space::Map(x.clone()?, y.clone()?),
        own: Pick::first(x.width() + y.width()),
        other: pick_at(place, x, y),
    }))
}

/// The layout by which the product puts elements of the two spaces together; none where it does not.
///
/// # Errors
///
/// Where memory ends.
pub(crate) fn layout_of(
    alloc: Global,
    product: Product,
    own: &Space,
    other: &Space,
) -> Result<Option<Layout>, AllocError>
    requires own { coordinates_of (space_form_of own.now) ≤ most_coordinates }
    requires other { coordinates_of (space_form_of other.now) ≤ most_coordinates }
    ensures { IfOk result (λ found.
        option_map layout_view found ≡ layout_of product (space_form_of own.now) (space_form_of other.now)) }
{
    match (own, other) {
        (Space::Set(x), Space::Set(y)) => of_sets(alloc, product, x, y),
        (Space::Map(x, y), Space::Map(u, w)) => of_maps(alloc, product, x, y, u, w),
        (Space::Map(x, y), Space::Set(z)) => of_map_and_set(product, x, y, z),
        _ => Ok(None),
    }
}

/// The places of so many parameters, and behind them of the picked ones of so many coordinates.
///
/// # Errors
///
/// Where memory ends.
pub(crate) fn picked_places(
    alloc: Global,
    parameters: u32,
    pick: Pick,
) -> Result<Vec<usize>, AllocError>
    requires parameters { parameters ≤ most_parameters }
    requires inside { pick.before + pick.first + pick.between + pick.second ≤ most_coordinates }
    ensures { IfOk result (λ places. places.items ≡ picked_places parameters pick) }
{
    let first = parameters as usize + pick.before as usize;
    let end = first + pick.first as usize;
    let second = end + pick.between as usize;
    let mut places = columns_between(alloc, 0, parameters as usize)?;
    let mut picked = columns_between(alloc, first, end)?;
    let mut behind = columns_between(alloc, second, second + pick.second as usize)?;
    picked.append(&mut behind)?;
    places.append(&mut picked)?;
    Ok(places)
}
