//! What typing is: a law that holds of every expression. The function computes nothing; it is called for its contract.

ghost use Rattle.std.specs.Prelude.{◌≡◌, ◌↔◌, Err, Ok};
ghost use Rattle.rs_syntax.specs.Syntax.{Expression};
ghost use Rattle.rs_typing.specs.Rules.{Refused, Types};
ghost use Rattle.rs_typing.specs.Typing.{Scope, Typed, type_of};
ghost use Rattle.rs_typing.specs.declared.fault.BindFault.{BindFault};

/// An expression is one thing at most, as the rules say, or refused with one fault, that of the first rule that fails; it
/// is never both.
pub fn expressions_are_typed_by_rules()
    ensures typed { (scope : Scope) (x : Expression) (t : Typed) → (type_of scope x ≡ Ok t) ↔ Types scope x t }
    ensures refused { (scope : Scope) (x : Expression) (fault : BindFault) → (type_of scope x ≡ Err fault) ↔ Refused scope x fault }
{}
