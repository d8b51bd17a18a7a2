//! Sums with quotients rounded down.

ghost use Rattle.std.specs.Prelude.{◌≡◌};
ghost use Rattle.isl_quast.specs.Quasi.{IsQuasiAffine};

use isl_loop::Expr;
use std::marker::Model;

/// A sum of whole numbers times atoms, and a constant. An atom is a column, or such a sum divided by a number that is at least 1, and rounded
/// down.
///
/// Contracts see it as an expression of loops, which may have other atoms too.
#[derive(Drop)]
pub struct QExpr {
    expr: Expr,
}

impl Model for QExpr {
    ghost use Rattle.isl_loop.specs.declared.tree.Expr.{Expr};
    ghost use Rattle.isl_quast.specs.Quasi.{IsQuasiAffine};
    ghost use Rattle.isl_loop.specs.contracts.tree.Expr as coding;
    ghost use Rattle.std.specs.Coded.{codes};

    ghost Value = { Expr };

    ghost coded = { Prim.hlevel (codes, coding.the_row.coded) };

    ghost view = { λ q. q.expr };

    ghost invariant = { λ q. IsQuasiAffine q.expr };
}

impl QExpr {
    pub fn new(expr: Expr) -> QExpr
        requires { IsQuasiAffine expr }
        ensures { result ≡ expr }
    {
        QExpr { expr }
    }

    pub fn into_expr(self) -> Expr
        ensures value { result ≡ self }
        ensures quasi { IsQuasiAffine result }
    {
        self.expr
    }

    pub fn as_expr(&self) -> &Expr
        ensures { result.now ≡ self.now }
    {
        &self.expr
    }
}
