//! What the definitions of fits, counts and instances come to.
ghost use Rattle.dk_instances.specs.Laws.{AgreeingVariablesCountAlike, AgreeingVariablesFitAlike, CountsAdd, CountsAreOfTuples, CountsOfNoVariables, FitsAreOfSets, FitsAreProper, FitsJoin, FitsOfNoSamples, FitsOfOneTuple, FitsTurn, InstancesAreListed, InstancesAscend, PlainFitsTellTheirRelation, PlainRowsHold, SamplesJoinOneByOne, SymmetricRowsExchange};

/// A row of the table says of variables what their samples say together: nothing on no samples, on two lists of samples the join of
/// what it says on each, and the same on the same set of samples.
pub fn fits_join()
    ensures none { FitsOfNoSamples }
    ensures both { FitsJoin }
    ensures same { FitsAreOfSets }
{}

/// A sample more changes what a row says of variables only where all of them are present in it: then its tuple joins.
pub fn samples_join_one_by_one()
    ensures { SamplesJoinOneByOne }
{}

/// What a row says of variables that have one tuple in all samples, it says of that tuple. Where one of them is missing it says
/// nothing.
pub fn fits_of_one_tuple()
    ensures { FitsOfOneTuple }
{}

/// A row with a relation says nothing where its variables are present together in no sample. Else it holds exactly where each sample
/// in which they are present satisfies the relation.
pub fn plain_fits_tell_their_relation()
    ensures fit { PlainFitsTellTheirRelation }
    ensures holds { PlainRowsHold }
{}

/// What a row says of variables that it admits is a proper state of it.
pub fn fits_are_proper()
    ensures { FitsAreProper }
{}

/// What a row says of its variables with two of them exchanged, where the row may exchange these roles, is what it says of the
/// variables, exchanged. So what it says of variables in any order is what it says of them in its written order, turned.
pub fn fits_turn()
    ensures exchanged { SymmetricRowsExchange }
    ensures turned { FitsTurn }
{}

/// The number of samples in which variables are present is the number of their tuples. It adds up over two lists of samples, and for
/// no variables it is the number of all samples. Numbers end at 2^64 - 1.
pub fn counts_add()
    ensures tuples { CountsAreOfTuples }
    ensures both { CountsAdd }
    ensures none { CountsOfNoVariables }
{}

/// Variables that agree on the samples can stand for each other.
pub fn agreeing_variables_are_alike()
    ensures fit { AgreeingVariablesFitAlike }
    ensures count { AgreeingVariablesCountAlike }
{}

/// The instances of a grammar are exactly its rows with variables that they are asked about, each once: by row, and then by the
/// variables in the order of the roles.
pub fn instances_are_listed()
    ensures exact { InstancesAreListed }
    ensures ascend { InstancesAscend }
{}
