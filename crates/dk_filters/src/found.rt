// What is found once for a point.
ghost use Rattle.std.specs.Prelude.{◌≡◌, ◌<◌, ◌^◌, All, IfOk, OnErr, filter, length, map};
ghost use Rattle.dk_instances.specs.Instances.{all_vars};
ghost use Rattle.dk_filters.specs.Facts.{are_alike, first_like, has_one_value, info_at, is_one_value, is_partner, one_of_row_for};
ghost use Rattle.dk_filters.specs.Found.{by_partner, firsts_of, found_of, one_values_of, vars_below};
ghost use Rattle.dk_filters.specs.Parents.{answers_by, parent_shown};
ghost use Rattle.dk_points.specs.Sameness.{same_compar};

use crate::ParentView;
use dk_base::{Compar, Kind, List, NoMemory, VarId, VarInfo};
use dk_template::{Answers, RowId, State, rows};
use std::alloc::Global;

/// What is found once for a point, so that it isn't found anew for each instance: of each variable what the filters ask about it.
#[derive(Debug, Drop)]
pub struct PointFacts {
    /// The first variable that agrees with it and has the same comparability.
    pub firsts: List<VarId>,
    /// Whether it is no sequence and has one value.
    pub one_values: List<bool>,
    /// For each parent, its variables whose partner it is.
    pub partners: List<List<List<VarId>>>,
}

fn same_compar(a: Compar, b: Compar) -> bool
    ensures { result ≡ same_compar a b }
{
    a.elem == b.elem && a.index == b.index
}

// Whether the variable w agrees with v and has the same comparability.
fn is_like<A: Answers>(here: &A, vars: &[VarInfo], v: VarId, w: VarId) -> bool
    requires infos { A.infos here.now ≡ vars.now }
    requires v { v.0 < length vars.now }
    requires w { w.0 < length vars.now }
    ensures { result ≡ are_alike (answers_by vars.now (A.answered here.now) (A.counted here.now) (A.agreeing here.now)) v w }
{
    same_compar(vars[w.0 as usize].compar, vars[v.0 as usize].compar) && here.agree(w, v)
}

// The first variable that is like it.
fn first_like<A: Answers>(here: &A, vars: &[VarInfo], v: VarId) -> VarId
    requires infos { A.infos here.now ≡ vars.now }
    requires small { length vars.now < 2 ^ 32 }
    requires within { v.0 < length vars.now }
    ensures { result ≡ first_like (answers_by vars.now (A.answered here.now) (A.counted here.now) (A.agreeing here.now)) v }
{
    for n in 0..vars.len() as u32 {
        if is_like(here, vars, v, VarId(n)) {
            return VarId(n);
        }
    }
    v
}

#[tactic(auto, using(crate::proofs::Listed::map_vars_more))]
fn firsts<A: Answers>(alloc: Global, here: &A, vars: &[VarInfo]) -> Result<List<VarId>, NoMemory>
    requires infos { A.infos here.now ≡ vars.now }
    requires small { length vars.now < 2 ^ 32 }
    ensures { IfOk result (λ list. list ≡ firsts_of (answers_by vars.now (A.answered here.now) (A.counted here.now) (A.agreeing here.now))) }
{
    let mut list = List::new(alloc);
    for n in 0..vars.len() as u32 {
        list.push(first_like(here, vars, VarId(n)))?;
    }
    Ok(list)
}

// The row that says which values a scalar has.
fn one_of_row(kind: Kind) -> Option<RowId>
    ensures { result ≡ one_of_row_for kind }
{
    match kind {
        Kind::Int => Some(RowId(rows::ONE_OF_INT)),
        Kind::Bool => Some(RowId(rows::ONE_OF_BOOL)),
        Kind::Hash => Some(RowId(rows::ONE_OF_HASH)),
        Kind::Str => Some(RowId(rows::ONE_OF_STR)),
        Kind::BoolSeq | Kind::IntSeq | Kind::HashSeq | Kind::StrSeq => None,
    }
}

fn is_one_value(state: &State) -> bool
    ensures { result ≡ is_one_value state.now }
{
    match state {
        State::Ints(values) => values.as_slice().len() == 1,
        State::Texts(values) => values.len() == 1,
        State::Truth(_) | State::Code(_) => true,
        _ => false,
    }
}

// Whether the variable is a scalar with one value.
fn has_one_value<A: Answers>(here: &A, vars: &[VarInfo], v: VarId) -> Result<bool, NoMemory>
    requires infos { A.infos here.now ≡ vars.now }
    requires within { v.0 < length vars.now }
    ensures { IfOk result (λ one. one ≡ has_one_value (answers_by vars.now (A.answered here.now) (A.counted here.now) (A.agreeing here.now)) v) }
{
    match one_of_row(vars[v.0 as usize].kind) {
        Some(row) => {
            let state = here.answer(row, &[v])?;
            Ok(is_one_value(&state))
        }
        None => Ok(false),
    }
}

#[tactic(auto, using(crate::proofs::Listed::map_vars_more))]
fn one_values<A: Answers>(alloc: Global, here: &A, vars: &[VarInfo]) -> Result<List<bool>, NoMemory>
    requires infos { A.infos here.now ≡ vars.now }
    requires small { length vars.now < 2 ^ 32 }
    ensures { IfOk result (λ list. list ≡ one_values_of (answers_by vars.now (A.answered here.now) (A.counted here.now) (A.agreeing here.now))) }
{
    let mut list = List::new(alloc);
    for n in 0..vars.len() as u32 {
        list.push(has_one_value(here, vars, VarId(n))?)?;
    }
    Ok(list)
}

// Whether the parent's variable w has the partner v.
fn is_partner(partner: &[Option<VarId>], v: VarId, w: VarId) -> bool
    ensures { result ≡ is_partner partner.now v w }
{
    match partner.get(w.0 as usize) {
        Some(Some(u)) => u.0 == v.0,
        _ => false,
    }
}

// Those of the first `count` variables of a parent whose partner is v.
#[tactic(auto, using(crate::proofs::Listed::filter_vars_more))]
fn having_partner(
    alloc: Global,
    count: u32,
    partner: &[Option<VarId>],
    v: VarId,
) -> Result<List<VarId>, NoMemory>
    ensures { IfOk result (λ list. list ≡ filter (is_partner partner.now v) (vars_below count)) }
{
    let mut list = List::new(alloc);
    for n in 0..count {
        if is_partner(partner, v, VarId(n)) {
            list.push(VarId(n))?;
        }
    }
    Ok(list)
}

// Of each of the first `count` variables those of the parent with this partner.
#[tactic(auto, using(crate::proofs::Listed::map_vars_more))]
fn by_partner(
    alloc: Global,
    count: u32,
    there: u32,
    partner: &[Option<VarId>],
) -> Result<List<List<VarId>>, NoMemory>
    ensures { IfOk result (λ lists. lists ≡ map (λ v. filter (is_partner partner.now v) (vars_below there)) (vars_below count)) }
{
    let mut lists = List::new(alloc);
    for n in 0..count {
        lists.push(having_partner(alloc, there, partner, VarId(n))?)?;
    }
    Ok(lists)
}

fn partners<P: Answers>(
    alloc: Global,
    vars: &[VarInfo],
    parents: &[ParentView<'_, P>],
) -> Result<List<List<List<VarId>>>, NoMemory>
    requires small { length vars.now < 2 ^ 32 }
    requires parents { All (λ p. length p.vars.now < 2 ^ 32) parents.now }
    ensures { IfOk result (λ lists. lists ≡ map (λ p. by_partner vars.now (parent_shown P.answered P.counted P.agreeing p)) parents.now) }
{
    let mut lists = List::new(alloc);
    for parent in parents {
        lists.push(by_partner(
            alloc,
            vars.len() as u32,
            parent.vars.len() as u32,
            parent.partner,
        )?)?;
    }
    Ok(lists)
}

impl PointFacts {
    /// What the filters ask of each variable of a point and of its parents.
    pub fn of<A: Answers, P: Answers>(
        alloc: Global,
        vars: &[VarInfo],
        here: &A,
        parents: &[ParentView<'_, P>],
    ) -> Result<PointFacts, NoMemory>
        requires infos { A.infos here.now ≡ vars.now }
        requires small { length vars.now < 2 ^ 32 }
        requires parents { All (λ p. length p.vars.now < 2 ^ 32) parents.now }
        ensures { IfOk result (λ found. found ≡ found_of (answers_by vars.now (A.answered here.now) (A.counted here.now) (A.agreeing here.now)) (map (parent_shown P.answered P.counted P.agreeing) parents.now)) }
    {
        Ok(PointFacts {
            firsts: firsts(alloc, here, vars)?,
            one_values: one_values(alloc, here, vars)?,
            partners: partners(alloc, vars, parents)?,
        })
    }
}
