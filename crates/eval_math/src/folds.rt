//! Exact operations on two complex constants.

ghost use Rattle.std.specs.Prelude.{◌≡◌, option_map};
ghost use Rattle.const_rules.specs.ComplexFolds as complex_folds;
ghost use Rattle.const_eval.specs.Complex.{complex_of};
ghost use Rattle.fi_values.specs.Arithmetic.{complex_folded};

use const_eval::Complex;
use fi_rules::Work;

/// The exact result of an operation on two complex constants. None where a part, or a product on the way to it, is no constant, or the work is
/// no sum, difference or product.
#[tactic(auto, unfolding(fi_values::specs::Arithmetic::complex_folded))]
pub fn complex_fold(work: Work, x: &Complex, y: &Complex) -> Option<Complex>
    ensures { option_map complex_of result ≡ complex_folded work (complex_of x.now) (complex_of y.now) }
{
    match work {
        Work::Sum => complex_sum(x, y),
        Work::Difference => complex_difference(x, y),
        Work::Product => complex_product(x, y),
        Work::Power => None,
        Work::Division => None,
        Work::Later => None,
    }
}

fn complex_sum(x: &Complex, y: &Complex) -> Option<Complex>
    ensures { option_map complex_of result ≡ complex_folds.complex_added (complex_of x.now) (complex_of y.now) }
{
    x.add(y)
}

fn complex_difference(x: &Complex, y: &Complex) -> Option<Complex>
    ensures { option_map complex_of result ≡ complex_folds.complex_subtracted (complex_of x.now) (complex_of y.now) }
{
    x.sub(y)
}

fn complex_product(x: &Complex, y: &Complex) -> Option<Complex>
    ensures { option_map complex_of result ≡ complex_folds.complex_multiplied (complex_of x.now) (complex_of y.now) }
{
    x.mul(y)
}
