//! The resolved tree of a module: what each name means, how often each form is read, where a value is widened, which slot a local has, and where
//! data and strings lie. It is a definition; the functions here carry its theorems.
#![tactic(auto)]

ghost use Rattle.resolved.specs.Theorems.{ExpressionsAgree, ConditionsAgree, StatementsAgree, ModulesAgree, OneTree, AcceptedTree, ReadsRight, ComponentRight, EachPlaced, PlacesApart, PlacesInOrder, PlacesBelow, GroundRight, PartsRight, CellsRight, NamesRight, SlotsApart};
ghost use Rattle.resolved.specs.Examples.{Examples};

/// What an expression is resolved to stands for what the expression is judged to stand for; or both are refused alike.
pub fn expressions_agree()
    ensures { ExpressionsAgree }
{}

/// Conditions are resolved exactly where they are judged right, and else refused alike.
pub fn conditions_agree()
    ensures { ConditionsAgree }
{}

/// The same of the body of a procedure, a block or a loop.
pub fn statements_agree()
    ensures { StatementsAgree }
{}

/// The same of a whole module.
pub fn modules_agree()
    ensures { ModulesAgree }
{}

/// A module that is judged right, so that none of the declines 10, 11 and 12 applies to it, has exactly one resolved tree, and any other has none. One
/// that is refused by 9, 13 or 14 only may have a tree.
pub fn one_tree()
    ensures { OneTree }
{}

/// A module that the static rules accept has exactly one resolved tree.
pub fn accepted_tree()
    ensures { AcceptedTree }
{}

/// What is brought to a need is read as often as the rules say, and widened only from BYTE to INT.
pub fn reads_right()
    ensures { ReadsRight }
{}

/// A component is numbered among those of its record mode.
pub fn component_right()
    ensures { ComponentRight }
{}

/// Each data variable and string has as many places as it is charged, in the order of the text.
pub fn each_placed()
    ensures { EachPlaced }
{}

/// No two of them overlap.
pub fn places_apart()
    ensures { PlacesApart }
{}

/// They stand in the order of their items, so an item has at most one of them.
pub fn places_in_order()
    ensures { PlacesInOrder }
{}

/// All places lie below 4,096 in a module that has not too many.
pub fn places_below()
    ensures { PlacesBelow }
{}

/// The names of the module come from the items that declare them, in the order of the environment.
pub fn ground_right()
    ensures { GroundRight }
{}

/// The parts of a tree are the data variables and procedures that the module declares, in the order of the text.
pub fn parts_right()
    ensures { PartsRight }
{}

/// A data variable has as many places as it is charged, and with an initial value one cell for each.
pub fn cells_right()
    ensures { CellsRight }
{}

/// A tree names just what it has: each procedure its own slots, and all of it data variables and procedures of the tree and strings with places in it.
pub fn names_right()
    ensures { NamesRight }
{}

/// Locals in scope have different slots.
pub fn slots_apart()
    ensures { SlotsApart }
{}

/// The resolved trees of five small modules, and the refusal of a sixth.
pub fn examples()
    ensures { Examples }
{}
