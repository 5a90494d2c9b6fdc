//! Exact complex constants.

use num_type::Dyadic;

/// A complex constant by its parts; a real one has the imaginary part 0.
#[derive(Clone, Copy, Debug, PartialEq, Eq)]
pub struct Complex {
    /// The real part.
    pub re: Dyadic,
    /// The imaginary part.
    pub im: Dyadic,
}

impl Complex {
    ghost use Rattle.std.specs.Prelude.{◌≡◌, ◌↔◌, IsSome, IfSome};
    ghost use Rattle.num_type.specs.Constants.{IsConstant, IsSame, product_of};
    ghost use Rattle.num_type.specs.View.{exact_of};
    ghost use Rattle.const_eval.specs.Complex.{complex_of, AreSame, AreConstant, HasConstantSteps, negated, plus, minus, times};

    /// The number with the other sign.
    pub fn neg(&self) -> Complex
        ensures { complex_of result ≡ negated (complex_of self.now) }
    {
        Complex {
            re: self.re.neg(),
            im: self.im.neg(),
        }
    }

    /// The exact sum. None exactly where a part is no constant.
    pub fn add(&self, o: &Complex) -> Option<Complex>
        ensures limits { IsSome result ↔ AreConstant (plus (complex_of self.now) (complex_of o.now)) }
        ensures same { IfSome result (λ c. AreSame (complex_of c) (plus (complex_of self.now) (complex_of o.now))) }
    {
        let re = self.re.add(o.re);
        let im = self.im.add(o.im);
        Complex::paired(re, im)
    }

    /// The exact difference. None exactly where a part is no constant.
    pub fn sub(&self, o: &Complex) -> Option<Complex>
        ensures limits { IsSome result ↔ AreConstant (minus (complex_of self.now) (complex_of o.now)) }
        ensures same { IfSome result (λ c. AreSame (complex_of c) (minus (complex_of self.now) (complex_of o.now))) }
    {
        let re = self.re.sub(o.re);
        let im = self.im.sub(o.im);
        Complex::paired(re, im)
    }

    /// The exact product: four products, a difference and a sum. None exactly where one of these is no constant.
    pub fn mul(&self, o: &Complex) -> Option<Complex>
        ensures limits { IsSome result ↔ HasConstantSteps (complex_of self.now) (complex_of o.now) }
        ensures same { IfSome result (λ c. AreSame (complex_of c) (times (complex_of self.now) (complex_of o.now))) }
    {
        let re = Complex::real_product(self, o);
        let im = Complex::imaginary_product(self, o);
        Complex::paired(re, im)
    }

    // The real part of a product. None exactly where one of its steps is no constant.
    fn real_product(x: &Complex, y: &Complex) -> Option<Dyadic>
        ensures limits { IsSome result ↔ (IsConstant (product_of (exact_of x.now.re) (exact_of y.now.re)) × IsConstant (product_of (exact_of x.now.im) (exact_of y.now.im)) × IsConstant (times (complex_of x.now) (complex_of y.now)).re) }
        ensures same { IfSome result (λ d. IsSame (exact_of d) (times (complex_of x.now) (complex_of y.now)).re) }
    {
        match x.re.mul(y.re) {
            None => None,
            Some(first) => match x.im.mul(y.im) {
                None => None,
                Some(second) => first.sub(second),
            },
        }
    }

    // The imaginary part of a product. None exactly where one of its steps is no constant.
    fn imaginary_product(x: &Complex, y: &Complex) -> Option<Dyadic>
        ensures limits { IsSome result ↔ (IsConstant (product_of (exact_of x.now.re) (exact_of y.now.im)) × IsConstant (product_of (exact_of x.now.im) (exact_of y.now.re)) × IsConstant (times (complex_of x.now) (complex_of y.now)).im) }
        ensures same { IfSome result (λ d. IsSame (exact_of d) (times (complex_of x.now) (complex_of y.now)).im) }
    {
        match x.re.mul(y.im) {
            None => None,
            Some(first) => match x.im.mul(y.re) {
                None => None,
                Some(second) => first.add(second),
            },
        }
    }

    // The number of two parts, if both are there.
    fn paired(re: Option<Dyadic>, im: Option<Dyadic>) -> Option<Complex>
        ensures both { IsSome result ↔ (IsSome re × IsSome im) }
        ensures real { IfSome result (λ c. re ≡ Some c.re) }
        ensures imaginary { IfSome result (λ c. im ≡ Some c.im) }
    {
        match re {
            None => None,
            Some(re) => match im {
                None => None,
                Some(im) => Some(Complex { re, im }),
            },
        }
    }
}
