//! What a specification, a run, a derived edge, an order, a label and the question rule are, in specs/, and the laws over them. There is no
//! program code here: each function stands for a law, which is its contract.
#![tactic(auto)]

ghost use Rattle.model.specs.Laws.{PathLaw, OrderLaw, ListingLaw, OneLabelLaw, ApartLaw, LabelLaw, AfterLaw, RuleLaw, AnswerLaw, GrowthLaw};
ghost use Rattle.model.specs.TwoRound.{ImportLaw};

/// A path of the run's edges leads from one step to another exactly when the relation of their contexts and origins holds.
pub fn path_law_stands()
    ensures { PathLaw }
{}

/// Each order is a strict total order of the copies, and positions go as the order.
pub fn order_law_stands()
    ensures { OrderLaw }
{}

/// The position of a copy is its place in the list in which each copy is directly followed by all that lies under it.
pub fn listing_law_stands()
    ensures { ListingLaw }
{}

/// Every step has one label, two steps have two, and the question rule on two labels says yes exactly when a path leads from step to step.
pub fn label_law_stands()
    ensures { (OneLabelLaw) × ((ApartLaw) × (LabelLaw)) }
{}

/// The same for paths of one or more edges, with a step itself left out.
pub fn after_law_stands()
    ensures { AfterLaw }
{}

/// The question rule comes to one answer, with its counts, and that is yes exactly when a path leads from step to step.
pub fn answer_law_stands()
    ensures { (RuleLaw) × (AnswerLaw) }
{}

/// Two steps and their counterparts in a run that grew get one answer.
pub fn growth_law_stands()
    ensures { GrowthLaw }
{}

/// The worked example is sealed, conforms, and has the orders, labels and answers stated.
pub fn import_law_stands()
    ensures { ImportLaw }
{}
