#![tactic(auto)]
// The theorems about minimal models and their list, each on the contract of a function. The functions do nothing.
ghost use Rattle.theorems.specs.Lists.{BySides, ComputedList, EmptyList, FirstBroken, Fronts, MinimalInside, OneList, StrictOrder};
ghost use Rattle.theorems.specs.Splitting.{Splitting};
ghost use Rattle.theorems.specs.Worked.{Worked};

// The answer to the question of a source is the first clause broken, or none exactly at a model.
pub fn first_broken_is_first()
    ensures { FirstBroken }
{}

// The list order is irreflexive and transitive, and decides any two different minimal models.
pub fn strict_order()
    ensures { StrictOrder }
{}

// Every list of clauses has exactly one list of explanations.
pub fn one_list()
    ensures { OneList }
{}

// The list that is computed by splitting is the list of explanations.
pub fn computed_list()
    ensures { ComputedList }
{}

// Every model includes a minimal model.
pub fn minimal_inside()
    ensures { MinimalInside }
{}

// The list of explanations is empty exactly when the clauses have no model.
pub fn empty_list()
    ensures { EmptyList }
{}

// What may be handed out before the other minimal models is the beginning of the list.
pub fn fronts()
    ensures { Fronts }
{}

// Clauses with the same bodies and heads have the same explanations.
pub fn by_sides()
    ensures { BySides }
{}

// The minimal models of a node are those of its children, each once and in order; a node that is a model has at most that one.
pub fn splitting()
    ensures { Splitting }
{}

// Eleven lists, worked out.
pub fn worked_lists()
    ensures { Worked }
{}
