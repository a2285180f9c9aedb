//! What operators take and give.
ghost use Rattle.std.specs.Prelude.{◌≡◌, ℕ, Ok, Result};
ghost use Rattle.grammar.specs.Trees.{Dyadic, land, Monadic, Comparator, spell, spell_monadic, spell_comparator};
ghost use Rattle.statics.specs.Scopes.{Text as Facts};
ghost use Rattle.statics.specs.declared.Refusal.{Refusal as Refused};
ghost use Rattle.statics.specs.Modes.{Mode as ModeOf, BYTE as byte_mode};
ghost use Rattle.statics.specs.Expressions.{operand as operand_of, result as result_of, argument as argument_of, outcome as outcome_of, compared as compared_of, figure as figure_of};
ghost use Rattle.statics.specs.JudgeExpressions.{then, agree as agree_of};
ghost use Rattle.texts.specs.Facts.{facts};
ghost use Rattle.modes.specs.Meanings.{mode_means, need_means, thing_means};
ghost use Rattle.scopes.specs.Meanings.{Answers};

use grammar::Symbol;
use modes::{BYTE, INT, Mode, Need, Thing};
use statics::Refusal;
use texts::Text;

/// What a dyadic operator needs of its operands.
pub fn operand(operator: Symbol) -> Need
    ensures { (n : ℕ) (o : Dyadic n) → operator ≡ spell o → (x : Facts) → need_means x result ≡ operand_of o }
{
    match operator {
        Symbol::Land | Symbol::Lor | Symbol::Nev => Need::Number,
        _ => Need::Mode(INT),
    }
}

/// What a dyadic operator gives on operands of these modes.
pub fn result(operator: Symbol, a: Mode, b: Mode) -> Mode
    ensures { (n : ℕ) (o : Dyadic n) → operator ≡ spell o → (x : Facts) → mode_means x result ≡ result_of o (mode_means x a) (mode_means x b) }
{
    match operator {
        Symbol::Land | Symbol::Lor | Symbol::Nev => combined(a, b),
        _ => INT,
    }
}

/// What a logical operator gives on operands of these modes: BYTE on two BYTEs.
pub fn combined(a: Mode, b: Mode) -> Mode
    ensures { (x : Facts) → mode_means x result ≡ result_of land (mode_means x a) (mode_means x b) }
{
    match (a, b) {
        (BYTE, BYTE) => BYTE,
        _ => INT,
    }
}

/// What an operator and all behind it give if what stands before it is a BYTE; or the first that is wrong there.
pub fn behind(
    operator: Symbol,
    operand: Result<Mode, Refusal>,
    rest: Result<Mode, Refusal>,
) -> Result<Mode, Refusal>
    ensures { (n : ℕ) (o : Dyadic n) → operator ≡ spell o → (x : Facts) (b w : Result ModeOf Refused) → Answers (mode_means x) operand b → Answers (mode_means x) rest w → Answers (mode_means x) result (then b (λ m. then w (λ k. Ok (result_of land (result_of o byte_mode m) k)))) }
{
    let mode = result(operator, BYTE, operand?);
    Ok(combined(mode, rest?))
}

/// What a monadic operator needs of its operand.
pub fn argument(operator: Symbol) -> Need
    ensures { (o : Monadic) → operator ≡ spell_monadic o → (x : Facts) → need_means x result ≡ argument_of o }
{
    match operator {
        Symbol::Length => Need::Elements,
        _ => Need::Mode(INT),
    }
}

/// What a monadic operator gives.
pub fn outcome(operator: Symbol) -> Mode
    ensures { (o : Monadic) → operator ≡ spell_monadic o → (x : Facts) → mode_means x result ≡ outcome_of o }
{
    match operator {
        Symbol::Byte => BYTE,
        _ => INT,
    }
}

/// What a comparison needs of its operands.
pub fn compared(comparator: Symbol) -> Need
    ensures { (o : Comparator) → comparator ≡ spell_comparator o → (x : Facts) → need_means x result ≡ compared_of o }
{
    match comparator {
        Symbol::Equal | Symbol::Hash => Need::Number,
        Symbol::Is | Symbol::Isnt => Need::Reference,
        _ => Need::Mode(INT),
    }
}

/// Whether operands of these modes can be compared.
pub fn agree(comparator: Symbol, a: Mode, b: Mode, text: Text<'_>) -> bool
    ensures { (o : Comparator) → comparator ≡ spell_comparator o → result ≡ agree_of o (mode_means (facts text.entry) a) (mode_means (facts text.entry) b) }
{
    match comparator {
        Symbol::Is | Symbol::Isnt => a.same(b, text),
        _ => true,
    }
}

/// What an integer of this value stands for.
pub fn figure(value: u16) -> Thing
    ensures { (x : Facts) → thing_means x result ≡ figure_of value }
{
    if value < 256 {
        Thing::Value(BYTE)
    } else {
        Thing::Value(INT)
    }
}
