//! What holds of what is kept. This function does nothing: its contract is the law.

ghost use Rattle.isl_union.specs.KeptValue.{KeptValue};
ghost use Rattle.isl_tree.specs.declared.statement.Prefix.TheVariants as word;
ghost use Rattle.isl_tree.specs.declared.statement.Expr as e;
ghost use Rattle.isl_tree.specs.declared.statement.Expr.{Expr};
ghost use Rattle.isl_state.specs.State.{Moment};
ghost use Rattle.isl_state.specs.declared.list.ListPart.{ListPart};
ghost use Rattle.isl_values.specs.Selection.{IsKeptOf};
ghost use Rattle.isl_values.specs.Hulls.{IsWholeHull};

/// What is kept of an affine hull is the hull at every valuation, assumed or not: it is not cut to what is assumed, and none of its pieces
/// goes.
pub fn hulls_are_whole()
    ensures { (before : Moment) (part : ListPart) (operand : Expr) (value : KeptValue)
        → IsKeptOf before part (e.Prefix word.AffineHull operand) value → IsWholeHull before.state operand value }
{}
