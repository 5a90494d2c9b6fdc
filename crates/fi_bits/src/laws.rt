//! Laws: where the operations on bits leave each bit. Bits are counted from 0, the least.

ghost use Rattle.std.specs.Prelude.{◌≡◌, ◌≤◌, ◌<◌, ◌+◌, ◌-◌, ◌^◌, ◌%◌, ℕ, pos, min, max, true, false};
ghost use Rattle.std.specs.Int.{bit_at};
ghost use Rattle.num_type.specs.Types.{NumericType, IsInRange};
ghost use Rattle.fi_quant.specs.Split.{IsCongruent};
ghost use Rattle.fi_ops.specs.Elements.{Element, IsElement};
ghost use Rattle.fi_ops.specs.Bits.{bits_of, with_bits, left_shifted, right_shifted, sign_shifted, complemented, anded, ored, xored, concatenated, sliced};
ghost use Rattle.fi_bits.specs.Places.{bit_of, of_type};

/// The stored bits are the number from 0 to `2^W - 1` that differs from the stored integer by a multiple of `2^W`, and give it back: a
/// type's stored integers and its patterns of bits stand for each other.
pub fn bits_stand_for_integers()
    ensures below { (a : Element) → bits_of a < 2 ^ a.num.word }
    ensures same { (a : Element) → IsCongruent (2 ^ a.num.word) a.z (pos (bits_of a)) }
    ensures back { (a : Element) → IsElement a → with_bits a.num (bits_of a) ≡ a.z }
    ensures inside { (t : NumericType) (u : ℕ) → 1 ≤ t.word → IsInRange t (with_bits t u) }
    ensures there { (t : NumericType) (u : ℕ) → 1 ≤ t.word → u < 2 ^ t.word → bits_of (record { num = t; z = with_bits t u }) ≡ u }
{}

/// Two elements of one type with the same bits are equal. So the laws below leave each operation one result.
pub fn bits_decide()
    ensures { (a b : Element) → IsElement a → IsElement b → a.num ≡ b.num → ((i : ℕ) → i < a.num.word → bit_of i a ≡ bit_of i b) → a ≡ b }
{}

/// A shift to the left by `k` takes each bit `k` places up, drops those that leave the word, and brings in zeros below.
pub fn left_shifts_move_bits()
    ensures moved { (k i : ℕ) (a : Element) → i + k < a.num.word → bit_of (i + k) (of_type a (left_shifted k a)) ≡ bit_of i a }
    ensures zeros { (k i : ℕ) (a : Element) → i < k → i < a.num.word → bit_of i (of_type a (left_shifted k a)) ≡ 0 }
{}

/// A shift to the right by `k` takes each bit `k` places down and brings in zeros on top, also where the type is signed.
pub fn right_shifts_move_bits()
    ensures moved { (k i : ℕ) (a : Element) → i + k < a.num.word → bit_of i (of_type a (right_shifted k a)) ≡ bit_of (i + k) a }
    ensures zeros { (k i : ℕ) (a : Element) → 1 ≤ a.num.word → a.num.word ≤ i + k → bit_of i (of_type a (right_shifted k a)) ≡ 0 }
{}

/// A shift to the right with sign by `k` takes each bit `k` places down and brings in on top the bit of the sign, which is the greatest
/// one, where the type is signed, and zeros where it is unsigned.
pub fn sign_shifts_move_bits()
    ensures moved { (k i : ℕ) (a : Element) → IsElement a → i + k < a.num.word → bit_of i (of_type a (sign_shifted k a)) ≡ bit_of (i + k) a }
    ensures signs { (k i : ℕ) (a : Element) → IsElement a → a.num.signed ≡ true → i < a.num.word → a.num.word ≤ i + k → bit_of i (of_type a (sign_shifted k a)) ≡ bit_of (a.num.word - 1) a }
    ensures zeros { (k i : ℕ) (a : Element) → IsElement a → a.num.signed ≡ false → a.num.word ≤ i + k → bit_of i (of_type a (sign_shifted k a)) ≡ 0 }
{}

/// A complement has 1 where there was 0, and 0 where there was 1.
pub fn complements_turn_bits()
    ensures { (i : ℕ) (a : Element) → i < a.num.word → bit_of i (of_type a (complemented a)) ≡ 1 - bit_of i a }
{}

/// Of two elements of one type the bits are joined place by place: 1 where both have 1, where either has, and where just one has.
pub fn pairs_of_bits_join()
    ensures both { (i : ℕ) (a b : Element) → a.num ≡ b.num → i < a.num.word → bit_of i (of_type a (anded a b)) ≡ min (bit_of i a) (bit_of i b) }
    ensures either { (i : ℕ) (a b : Element) → a.num ≡ b.num → i < a.num.word → bit_of i (of_type a (ored a b)) ≡ max (bit_of i a) (bit_of i b) }
    ensures one { (i : ℕ) (a b : Element) → a.num ≡ b.num → i < a.num.word → bit_of i (of_type a (xored a b)) ≡ (bit_of i a + bit_of i b) % 2 }
{}

/// A concatenation has the bits of the second element, and above them those of the first.
pub fn concatenations_keep_bits()
    ensures second { (i : ℕ) (a b : Element) → i < b.num.word → bit_of i (concatenated a b) ≡ bit_of i b }
    ensures first { (i : ℕ) (a b : Element) → i < a.num.word → bit_of (i + b.num.word) (concatenated a b) ≡ bit_of i a }
{}

/// The slice from bit `l` down to bit `r`, both counted from 1, has as its bits those from place `r - 1` on.
pub fn slices_keep_bits()
    ensures { (l r i : ℕ) (a : Element) → 1 ≤ r → i < l - r + 1 → bit_of i (sliced l r a) ≡ bit_of (i + (r - 1)) a }
{}
