//! What the table of the rules comes to.
ghost use Rattle.dk_suppress.specs.Laws.{AgreeingVariablesAreSuppressedAlike, ConclusionsArePlain, PremisesAreBelow, PremisesAreUsable, RolesAreThere, SuppressionIsOfLowerRank};
ghost use Rattle.dk_suppress.specs.Soundness.{RulesAreSound, SuppressedInstancesHold};

/// Each premise has a lower rank than its conclusion.
pub fn premises_are_below()
    ensures { PremisesAreBelow }
{}

/// Each conclusion is a row with a relation.
pub fn conclusions_are_plain()
    ensures { ConclusionsArePlain }
{}

/// The roles that a premise reads are roles of its conclusion.
pub fn roles_are_there()
    ensures { RolesAreThere }
{}

/// Over variables that a conclusion admits each premise of its rule can be asked, in either grammar.
pub fn premises_are_usable()
    ensures { PremisesAreUsable }
{}

/// The rules are sound over any samples whose numbers have 64 bits. Where the premises of a rule fit, the conclusion's state is Holds
/// if there is a sample in which none of its variables is missing, and else Empty.
pub fn rules_are_sound()
    ensures { RulesAreSound }
{}

/// So a suppressed instance holds, or has no tuples.
pub fn suppressed_instances_hold()
    ensures { SuppressedInstancesHold }
{}

/// Whether a row's variables are suppressed depends only on the states of rows of lower rank over these variables, and it is the same
/// for variables that agree.
pub fn suppression_is_of_lower_rank()
    ensures rank { SuppressionIsOfLowerRank }
    ensures alike { AgreeingVariablesAreSuppressedAlike }
{}
