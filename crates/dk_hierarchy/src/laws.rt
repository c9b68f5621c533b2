//! What the samples of a point come to.
ghost use Rattle.dk_hierarchy.specs.Edges.{AgreementThroughEdges, CountsThroughEdges, FitsThroughEdges};
ghost use Rattle.dk_hierarchy.specs.Laws.{DepthsSuffice, SamplesAreOfVariables, SamplesAreOwnAndChildrens, SamplesHaveAllVariables, VariablesAreOfPoints};
ghost use Rattle.dk_hierarchy.specs.Standing.{FollowedWaysStand, MergedStandForWhatIsBrought};
ghost use Rattle.dk_hierarchy.specs.WayLaws.{DescentsBegin, DescentsEnd, DescentsGoOn, EqualWaysAreOne, SameSamplesSayTheSame, WaysGoOn};

/// In a table without a cycle the samples of a point are its own, and then for each edge into it the child's samples, mapped. None
/// comes over more edges than the point's depth.
pub fn samples_are_own_and_childrens()
    ensures each { SamplesAreOwnAndChildrens }
    ensures depths { DepthsSuffice }
{}

/// Each sample of a point has a value for each of its variables. Where all points' own samples are samples of their variables, all are.
pub fn samples_have_all_variables()
    ensures long { SamplesHaveAllVariables }
    ensures samples { SamplesAreOfVariables }
{}

/// Through an edge a child's samples tell of the parent's variables what they tell of the partners.
pub fn edges_show_partners()
    ensures fit { FitsThroughEdges }
    ensures count { CountsThroughEdges }
    ensures agreement { AgreementThroughEdges }
{}

/// Samples of which the same stand in two lists, and as many, say the same of variables.
pub fn same_samples_say_the_same()
    ensures { SameSamplesSayTheSame }
{}

/// What a way brings of all samples is what it brings of its lower point's own ones, and what the ways bring that go on from it down
/// an edge. A way that is added to others brings what it has, also where one of them has its paths too.
pub fn ways_bring_samples()
    ensures below { WaysGoOn }
    ensures added { EqualWaysAreOne }
{}

/// So whoever goes down from a point, way by way, comes to ways that bring all samples of the point from the own samples of points
/// alone.
pub fn descents_bring_all_samples()
    ensures begin { DescentsBegin }
    ensures go_on { DescentsGoOn }
    ensures end { DescentsEnd }
{}

/// Where engines stand for their points' samples, what they say through ways is what the samples say that the ways bring. So through
/// the ways of a whole descent they say what all samples of the point say.
pub fn merged_stand_for_what_is_brought()
    ensures brought { MergedStandForWhatIsBrought }
    ensures all { FollowedWaysStand }
{}

/// Base variables with what is derived of them can be an engine's, if they are fewer than 2^32.
pub fn variables_are_of_points()
    ensures { VariablesAreOfPoints }
{}
