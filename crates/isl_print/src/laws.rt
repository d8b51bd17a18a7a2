//! What holds of printed values. These functions do nothing: their contracts are the laws.

ghost use Rattle.std.specs.Prelude.{◌≡◌, ◌↔◌, List, All};
ghost use Rattle.isl_space.specs.Name.{Name, IsLiteralName};
ghost use Rattle.isl_space.specs.Names.{AreDistinct, IsParameterList};
ghost use Rattle.isl_space.specs.SpaceForm.{SpaceForm, IsNarrowSpace};
ghost use Rattle.isl_space.specs.Valuation.{Valuation};
ghost use Rattle.isl_space.specs.Element.{Element};
ghost use Rattle.isl_union.specs.KeptValue.{KeptValue, Has, HasNoDefinitions, IsKeptValue};
ghost use Rattle.isl_row_text.specs.Naming.{column_names};
ghost use Rattle.isl_print.specs.OrderedValue.{ordered};
ghost use Rattle.isl_print.specs.Printed.{printed};

/// No two columns of a piece have one name, and each name may stand in a literal.
pub fn columns_have_names()
    ensures distinct { (params : List Name) (space : SpaceForm) → IsParameterList params → IsNarrowSpace space → AreDistinct (column_names params space) }
    ensures named { (params : List Name) (space : SpaceForm) → IsParameterList params → IsNarrowSpace space → All IsLiteralName (column_names params space) }
{}

/// The order in which a value is printed changes neither its elements nor its text.
pub fn order_keeps_values()
    ensures kept { (value : KeptValue) → IsKeptValue value → IsKeptValue (ordered value) }
    ensures definitions { (value : KeptValue) → HasNoDefinitions value → HasNoDefinitions (ordered value) }
    ensures elements { (value : KeptValue) (valuation : Valuation) (element : Element) → Has (ordered value) valuation element ↔ Has value valuation element }
    ensures text { (value : KeptValue) → printed (ordered value) ≡ printed value }
{}
