//! The laws of items and of the cut, each the promise of a function.
// The first three answer a number, and not nothing as such functions do elsewhere: a must-fail edit turns each of these numbers.
ghost use Rattle.std.specs.Prelude.{◌≡◌, codes};
ghost use Rattle.symbols.specs.Items.{IsInteger};
ghost use Rattle.symbols.specs.Laws.{BinIs, Bound, HexIs, InOrder, OneAnswer, OneMeaning, SameIs};

/// How many answers the rules give to a text, whatever text it is.
#[tactic(auto, using(crate::proofs::Examples::one_answer))]
pub fn answers_to_a_text() -> u8
    ensures { (result ≡ 1) × (OneAnswer) }
{
    let answers = 1;
    answers
}

/// How many symbols an item can be of, and how many values an integer can have.
#[tactic(auto, using(crate::proofs::Examples::one_meaning))]
pub fn meanings_of_an_item() -> u8
    ensures { (result ≡ 1) × (OneMeaning) }
{
    let meanings = 1;
    meanings
}

/// How many items of an accepted text can cover a byte of it: they stand one behind the other, each as its symbol is spelled.
#[tactic(auto, using(crate::proofs::Order::in_order))]
pub fn items_at_a_byte() -> u8
    ensures { (result ≡ 1) × (InOrder) }
{
    let covering = 1;
    covering
}

/// The value of a quote between two quotes.
pub fn quoted_quote() -> u16
    ensures { IsInteger (codes "'''") result }
{
    39
}

/// The largest integer.
pub fn largest_integer() -> u16
    ensures { Bound result }
{
    32_767
}

/// How many items `:=:` is.
#[tactic(auto, using(crate::proofs::Examples::same_is))]
pub fn items_of_same() -> usize
    ensures { SameIs result }
{
    let items = 1;
    items
}

/// The value of `HEX 1F`, which is one item.
pub fn value_of_hex() -> u16
    ensures { HexIs result }
{
    31
}

/// How many items `BIN 2` is.
#[tactic(auto, using(crate::proofs::Examples::bin_is))]
pub fn items_of_bin() -> usize
    ensures { BinIs result }
{
    2
}
