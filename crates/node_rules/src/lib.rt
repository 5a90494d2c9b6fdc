//! The rules of nodes: for an operator, a sign, a transpose, a sum, a range, a bracket, functions on bits, on parts of complex values and on shapes, a
//! subscripted read and a subscripted assignment, on operands of which types it is defined, with the conditions in the order of their codes, the
//! type of its result, and the value of its node at that type. Laws: evaluation goes by these rules.
#![tactic(auto)]

ghost use Rattle.std.specs.Prelude.{◌≡◌, ◌<◌, ◌^◌, ℕ, ℤ, Bool, List, ◌∷◌, map, Option, Some, true, nat_abs};
ghost use Rattle.fic_base.specs.declared.place.Place.{Place};
ghost use Rattle.mat_ast.specs.declared.tree.BinOp.{BinOp};
ghost use Rattle.mat_ast.specs.declared.tree.PostOp.{PostOp};
ghost use Rattle.mat_ast.specs.declared.tree.UnOp.{UnOp};
ghost use Rattle.num_type.specs.Constants.{Exact, order_of};
ghost use Rattle.fi_rules.specs.Value.{Val};
ghost use Rattle.fi_rules.specs.declared.built_ins.BuiltIn.{BuiltIn};
ghost use Rattle.fi_rules.specs.declared.work.Work.{Work};
ghost use Rattle.fi_values.specs.Arithmetic.{is_arithmetic, arithmetic};
ghost use Rattle.fi_ops.specs.Elements.{Element};
ghost use Rattle.fi_ops.specs.Operations.{compared};
ghost use Rattle.node_rules.specs.Comparisons.{exact_value};
ghost use Rattle.fi_rules.specs.Options.{◌|>◌, all_of};
ghost use Rattle.fi_eval.specs.Outcome.{or_wrong};
ghost use Rattle.fi_values.specs.Bits.{two_typed, turned_bits, shifted, concatenated_all, bits_between};
ghost use Rattle.fi_values.specs.Brackets.{bracket};
ghost use Rattle.fi_values.specs.Numbers.{is_bound};
ghost use Rattle.fi_values.specs.Queries.{real_part, imaginary_part, complex_of, element_count, greater_extent, extent_of};
ghost use Rattle.fi_values.specs.Ranges.{ranged, items_of};
ghost use Rattle.fi_values.specs.Sums.{Along, summed_value};
ghost use Rattle.fi_values.specs.Transposes.{transposed};
ghost use Rattle.fi_meaning.specs.Functions as functions;
ghost use Rattle.fi_meaning.specs.Functions.{Function, Filled, natural, conjugate_of};
ghost use Rattle.fi_meaning.specs.Calls.{Argument, element_ty, argument_types, values_of, by_rules, function_call, called_name};
ghost use Rattle.fi_meaning.specs.Operators.{by_operator, by_sign};
ghost use Rattle.node_rules.specs.Agrees.{Tells, evaluated_read, evaluated_store};
ghost use Rattle.node_rules.specs.Arguments.{ArgumentTy, argument_tys, element_of, element_types};
ghost use Rattle.node_rules.specs.Calls.{argument_items, NamedCall, call_shape, call_met, call_worked, call_ruled, built_in_value};
ghost use Rattle.node_rules.specs.Filling.{filled_ruled, filled_value};
ghost use Rattle.node_rules.specs.Makers.{maker_ruled, maker_value};
ghost use Rattle.node_rules.specs.Bits.{bits_paired, paired_value, complemented_ruled, complemented_value, shifted_ruled, shifted_value, sliced_ruled, sliced_value};
ghost use Rattle.node_rules.specs.Brackets.{bracket_ruled, bracket_value};
ghost use Rattle.node_rules.specs.Concatenated.{concatenated_ruled, concatenated_value};
ghost use Rattle.node_rules.specs.Operators.{pair_worked, pair_ruled, pair_value};
ghost use Rattle.fi_meaning.specs.Statements.{item_value};
ghost use Rattle.node_rules.specs.Pairs.{Span, IsIn, span_worked, items_worked, arithmetic_value};
ghost use Rattle.node_rules.specs.Parted.{part_ruled, real_value, imaginary_value, conjugate_ruled, conjugate_value, complex_ruled, complex_value};
ghost use Rattle.node_rules.specs.Queries.{numel_ruled, length_ruled, size_ruled};
ghost use Rattle.node_rules.specs.Ranges.{range_ruled, range_value, loop_ruled, items_at};
ghost use Rattle.node_rules.specs.Built.{Calling, calling_shape, has_rule, function_worked, function_ruled, function_value};
ghost use Rattle.node_rules.specs.Ruled.{Fine, fine, given};
ghost use Rattle.node_rules.specs.Sides.{Meeting, meeting_shape};
ghost use Rattle.node_rules.specs.Signs.{sign_ruled, sign_value};
ghost use Rattle.node_rules.specs.Stores.{store_ruled, store_value};
ghost use Rattle.node_rules.specs.Subscripts.{SoundItems, item_types, read_ruled, read_value};
ghost use Rattle.node_rules.specs.Sums.{sum_ruled, sum_value};
ghost use Rattle.node_rules.specs.Transposes.{post_ruled, post_value};
ghost use Rattle.node_rules.specs.Types.{NodeTy, IndexNode, ty_of, shape_of, known};

/// An operator with two operands gives what its rule says: a value exactly where the conditions of the rule hold on the types of the operands,
/// and then the value of the node at the type that the rule gives.
pub fn operators_go_by_their_rules()
    ensures { (o : BinOp) (v w : Val) → by_operator o v w ≡ given (pair_ruled o (ty_of v) (ty_of w)) (λ t. pair_value o t v w) }
{}

/// The value of an operator's node has the type of the node.
pub fn operators_have_their_types()
    ensures { (o : BinOp) (v w : Val) (t : NodeTy) → pair_ruled o (ty_of v) (ty_of w) ≡ Fine t → ty_of (pair_value o t v w) ≡ t }
{}

/// A sign, or `~`, gives what its rule says: a value exactly where its conditions hold, the one at the type of the node.
pub fn signs_go_by_their_rule()
    ensures { (sign : UnOp) (v : Val) → by_sign sign v ≡ given (sign_ruled sign (ty_of v)) (λ t. sign_value sign t v) }
{}

/// A transpose gives what its rule says, likewise.
pub fn transposes_go_by_their_rule()
    ensures { (mark : PostOp) (v : Val) → transposed mark v ≡ given (post_ruled mark (ty_of v)) (λ t. post_value mark t v) }
{}

/// A sum of the elements along a dimension gives what its rule says, likewise.
pub fn sums_go_by_their_rule()
    ensures { (along : Along) (v : Val) → summed_value along v ≡ given (sum_ruled along (ty_of v)) (λ t. sum_value along t v) }
{}

/// A subscripted read has the outcome that its rule says: wrong at its place where a condition is missing, and else the value or the fault at
/// the type of the node. The values of the subscripts are sound.
pub fn reads_go_by_their_rule()
    ensures { (at : Place) (site : ℕ) (v : Val) (ks : List (Option Val)) → SoundItems ks → Tells at (λ t. read_value site t v ks) (evaluated_read at site v ks) (read_ruled (ty_of v) (item_types ks)) }
{}

/// A subscripted assignment has the outcome that its rule says, likewise.
pub fn stores_go_by_their_rule()
    ensures { (at : Place) (site : ℕ) (old : Val) (ks : List (Option Val)) (v : Val) → SoundItems ks → Tells at (λ t. store_value site old ks v) (evaluated_store at site old ks v) (store_ruled (ty_of old) (item_types ks) (ty_of v)) }
{}

/// A sum, difference or product of two loop indices is that of the whole numbers, and stays in the span that its rule gives.
pub fn indices_go_by_their_rules()
    ensures value { (w : Work) (lo hi a b : ℤ) → is_arithmetic w ≡ true → is_bound a ≡ true → is_bound b ≡ true → nat_abs (items_worked w a b) < 2 ^ 53
        → arithmetic w (item_value a) (item_value b) ≡ Some (arithmetic_value w (IndexNode lo hi) (item_value a) (item_value b)) }
    ensures span { (w : Work) (a b : ℤ) (p q : Span) → is_arithmetic w ≡ true → IsIn p a → IsIn q b → IsIn (span_worked w p q) (items_worked w a b) }
{}

/// A range gives what its rule says: a row of numbers exactly where the conditions hold on the types of its bounds and its step, and then the
/// row that is the type of the node.
pub fn ranges_go_by_their_rule()
    ensures { (first step last : Val) → ranged first step last ≡ given (range_ruled (ty_of first) (ty_of step) (ty_of last)) range_value }
{}

/// A bracket gives what its rule says, whatever its rows are: a value exactly where the conditions hold on the types of its elements, and then the
/// one at the type of the node, which has this type.
pub fn brackets_go_by_their_rule()
    ensures values { (rows : List (List Val)) → bracket rows ≡ given (bracket_ruled (map (map ty_of) rows)) (λ t. bracket_value t rows) }
    ensures types { (rows : List (List Val)) (t : NodeTy) → bracket_ruled (map (map ty_of) rows) ≡ Fine t → ty_of (bracket_value t rows) ≡ t }
{}

/// The items of a range in the head of a loop are those that its rule says, likewise; there may be any number of them, and none.
pub fn loops_go_by_their_rule()
    ensures { (first step last : Val) → items_of first step last ≡ given (loop_ruled (ty_of first) (ty_of step) (ty_of last)) (λ l. items_at l.first l.step l.count) }
{}

/// A function on the bits of two operands gives what its rule says, whichever it is: a value exactly where the conditions of the rule hold, and
/// then the value of the node at the type that the rule gives.
pub fn bit_pairs_go_by_their_rule()
    ensures { (f : Element → Element → ℤ) (v w : Val) → two_typed f v w ≡ given (bits_paired (ty_of v) (ty_of w)) (λ t. paired_value f t v w) }
{}

/// `bitconcat` of two operands or more gives what its rule says, likewise.
pub fn concatenations_go_by_their_rule()
    ensures { (v w : Val) (ws : List Val) → concatenated_all v (w ∷ ws) ≡ given (concatenated_ruled (ty_of v) (map ty_of (w ∷ ws))) (λ t. concatenated_value t v (w ∷ ws)) }
{}

/// `bitcmp` gives what its rule says, likewise.
pub fn bit_complements_go_by_their_rule()
    ensures { (v : Val) → turned_bits v ≡ given (complemented_ruled (ty_of v)) (λ t. complemented_value t v) }
{}

/// A shift by a constant gives what its rule says, whichever it is, likewise.
pub fn shifts_go_by_their_rule()
    ensures { (f : ℕ → Element → ℤ) (v k : Val) → (natural k |> (λ n. shifted f n v)) ≡ given (shifted_ruled (ty_of v) (ty_of k)) (λ t. shifted_value f t v k) }
{}

/// `bitsliceget` gives what its rule says, likewise.
pub fn bit_slices_go_by_their_rule()
    ensures { (v l r : Val) → (natural l |> (λ l. natural r |> (λ r. bits_between l r v))) ≡ given (sliced_ruled (ty_of v) (ty_of l) (ty_of r)) (λ t. sliced_value t v l r) }
{}

/// `real`, `imag` and `conj` give what their rules say, likewise.
pub fn parts_go_by_their_rules()
    ensures real { (v : Val) → real_part v ≡ given (part_ruled (ty_of v)) (λ t. real_value t v) }
    ensures imaginary { (v : Val) → imaginary_part v ≡ given (part_ruled (ty_of v)) (λ t. imaginary_value t v) }
    ensures conjugates { (v : Val) → conjugate_of v ≡ given (conjugate_ruled (ty_of v)) (λ t. conjugate_value v) }
{}

/// `complex` gives what its rule says, likewise.
pub fn complex_values_go_by_their_rule()
    ensures { (v w : Val) → complex_of v w ≡ given (complex_ruled (ty_of v) (ty_of w)) (λ t. complex_value t v w) }
{}

/// `numel`, `length` and `size` give what their rules say: a number exactly where the conditions hold, and then the one that is the type of the
/// node.
pub fn queries_go_by_their_rules()
    ensures numel { (v : Val) → element_count v ≡ given (numel_ruled (ty_of v)) known }
    ensures length { (v : Val) → greater_extent v ≡ given (length_ruled (ty_of v)) known }
    ensures size { (v d : Val) → (natural d |> (λ n. extent_of n v)) ≡ given (size_ruled (ty_of v) (ty_of d)) known }
{}

/// A call of a built-in function gives what its rule says, with any number of arguments: a value exactly where it has as many as the function
/// takes and the conditions of the rule hold on their types, the one at the type of the node.
pub fn built_in_functions_go_by_their_rules()
    ensures { (f : Function) (vs : List Val) → has_rule f ≡ true → functions.given f vs ≡ given (function_ruled f (map ty_of vs)) (λ t. function_value f t vs) }
{}

/// The shape by which the node of an operator or of a call of a built-in function is counted, before its type is worked out, is that of its type.
pub fn nodes_are_counted_by_their_shapes()
    ensures operators { (o : BinOp) (m : Meeting) (t : NodeTy) → pair_worked o m ≡ Fine t → shape_of t ≡ meeting_shape m }
    ensures functions { (m : Calling) (t : NodeTy) → function_worked m ≡ Fine t → shape_of t ≡ calling_shape m }
{}

/// The types of elements that the rules of calls ask for are those that evaluation asks for: of a value's elements, and of all arguments of a call,
/// the first one taken into a type or not.
pub fn element_types_are_those_of_values()
    ensures elements { (v : Val) → element_ty v ≡ element_of (ty_of v) }
    ensures arguments { (b : Bool) (args : List Argument) → argument_types b args ≡ element_types b (argument_tys args) }
{}

/// A call of `fi`, `numerictype`, `fimath`, `setfimath`, `removefimath`, `cast` or `abs` gives what its rule says, with any number of arguments: a
/// value exactly where the conditions of the rule hold on their types, the one at the type of the node.
pub fn makers_go_by_their_rules()
    ensures { (at : Place) (b : BuiltIn) (args : List Argument) → by_rules at b args ≡ or_wrong at (given (maker_ruled b (argument_tys args)) (λ t. maker_value b t (values_of args))) }
{}

/// A call of `zeros` or `ones` gives what its rule says, likewise, also with `'like'` and a fi.
pub fn filled_arrays_go_by_their_rule()
    ensures { (at : Place) (z : Exact) (vs : List Val) → function_call at (Filled z) vs ≡ or_wrong at (given (filled_ruled z (map ty_of vs)) (λ t. filled_value z t)) }
{}

/// A call of a built-in function by its name gives what its rule says, with any arguments, words among them: a value exactly where the conditions of
/// the rule hold, the one at the type of the node that the values of the arguments make, whichever of them are words; it has that type. With `:`
/// among the arguments a condition is missing. The shape by which the node is counted is that of its type.
pub fn calls_go_by_their_rules()
    ensures value { (at : Place) (name : List ℕ) (args : List Argument)
        → called_name at name args ≡ or_wrong at (given (call_ruled name (argument_items args)) (λ t. built_in_value name t (values_of args))) }
    ensures typed { (name : List ℕ) (args : List Argument) (t : NodeTy) → call_ruled name (argument_items args) ≡ Fine t → ty_of (built_in_value name t (values_of args)) ≡ t }
    ensures colon { (name : List ℕ) (items : List (Option ArgumentTy)) → all_of items ≡ None → fine (call_met name items) ≡ None }
    ensures shape { (m : NamedCall) (t : NodeTy) → call_worked m ≡ Fine t → shape_of t ≡ call_shape m }
{}

/// Stored integers and constants are compared by one order: that of two elements is that of the exact values that they stand for.
#[tactic(auto, using(crate::proofs::Orders::order_law))]
pub fn elements_are_compared_by_their_values()
    ensures { (a b : Element) → order_of (exact_value a) (exact_value b) ≡ compared a b }
{}
