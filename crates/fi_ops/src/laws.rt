//! Laws: in their full types products and sums are exact.

ghost use Rattle.std.specs.Prelude.{◌≡◌, ◌||◌, ◌+ℤ◌, ◌-ℤ◌, ◌*ℤ◌, true};
ghost use Rattle.num_type.specs.Types.{IsInRange};
ghost use Rattle.fi_quant.specs.Numbers.{fitted};
ghost use Rattle.fi_math.specs.declared.fimath.Fimath.{Fimath};
ghost use Rattle.fi_math.specs.Full.{full_product, full_sum, full_difference};
ghost use Rattle.fi_ops.specs.Elements.{Element, IsElement};
ghost use Rattle.fi_ops.specs.Operations.{common, aligned, multiplied, summed, subtracted};

/// A product in its full type is the exact one, which is in range, under each fimath.
pub fn full_products_are_exact()
    ensures value { (m : Fimath) (a b : Element) → IsElement a → IsElement b → multiplied m (full_product a.num b.num) a b ≡ a.z *ℤ b.z }
    ensures inside { (a b : Element) → IsElement a → IsElement b → IsInRange (full_product a.num b.num) (a.z *ℤ b.z) }
{}

/// A sum in its full type is the exact one, which is in range, under each fimath: with and without CastBeforeSum.
pub fn full_sums_are_exact()
    ensures value { (m : Fimath) (a b : Element) → IsElement a → IsElement b → summed m (full_sum a.num b.num) a b ≡ aligned (common a b) a +ℤ aligned (common a b) b }
    ensures inside { (a b : Element) → IsElement a → IsElement b → IsInRange (full_sum a.num b.num) (aligned (common a b) a +ℤ aligned (common a b) b) }
{}

/// A difference in its full type is the exact one brought into range, under each fimath. Where an operand is signed, the exact one
/// is in range.
pub fn full_differences_are_exact()
    ensures value { (m : Fimath) (a b : Element) → IsElement a → IsElement b → subtracted m (full_difference a.num b.num) a b ≡ fitted m.overflow (full_difference a.num b.num) (aligned (common a b) a -ℤ aligned (common a b) b) }
    ensures exact { (m : Fimath) (a b : Element) → (a.num.signed || b.num.signed) ≡ true → IsElement a → IsElement b → subtracted m (full_difference a.num b.num) a b ≡ aligned (common a b) a -ℤ aligned (common a b) b }
    ensures inside { (a b : Element) → (a.num.signed || b.num.signed) ≡ true → IsElement a → IsElement b → IsInRange (full_difference a.num b.num) (aligned (common a b) a -ℤ aligned (common a b) b) }
{}
