//! What the definitions of classes come to.
ghost use Rattle.dk_classes.specs.Laws.{LeadersAgree, LeadersAreDetermined, LeadersTellClasses};

/// Samples determine the leaders of classes.
pub fn leaders_are_determined()
    ensures { LeadersAreDetermined }
{}

/// A variable and its leader are of one class: they are of one kind, and agree in each sample. Two variables have one leader exactly
/// where they are of one class.
pub fn leaders_tell_classes()
    ensures leader { LeadersAgree }
    ensures classes { LeadersTellClasses }
{}
