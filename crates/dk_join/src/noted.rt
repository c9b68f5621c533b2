// An engine with notes of which leaders have equal numbers, by which the rules of rows over three leaders are told fast.
ghost use Rattle.std.specs.Prelude.{◌≡◌, IfOk, IfSome, Some, map, slice_get, slice_index_or};
ghost use Rattle.dk_base.specs.declared.kinds.VarId.{VarId};
ghost use Rattle.dk_engine.specs.Reading.{agree_read, count_read, state_read};
ghost use Rattle.dk_join.specs.Noted.{equal_lines, equal_numbers};
ghost use Rattle.dk_template.specs.Premises.{IsUsable, at_role, premise_fits};

use dk_base::{Kind, NoMemory, VarId};
use dk_engine::{Engine, suited_vars};
use dk_template::{Answers, Premise, Role, RowId, State, admits, rows};
use std::alloc::Global;

/// An engine, and of some leaders whether two have equal numbers. Of the places nothing is promised: they say where to look.
#[derive(Drop)]
pub(crate) struct Noted<'a> {
    pub(crate) engine: &'a Engine,
    leaders: Vec<VarId>,
    places: Vec<usize>,
    lines: Vec<Vec<bool>>,
    ghost noted: { map (λ l. l.items) lines.items ≡ equal_lines engine.now leaders.items leaders.items },
}

// ---- noting

// Whether two variables have numbers, and these are equal.
fn are_equal(engine: &Engine, v: VarId, w: VarId) -> bool
    ensures { result ≡ equal_numbers engine.now v w }
{
    let premise = Premise::Holds {
        row: RowId(rows::EQ_INT),
        roles: [0, 1, 0],
    };
    if !admits(RowId(rows::EQ_INT), engine.vars(), &[v, w]) {
        return false;
    }
    engine.premise(&premise, &[v, w])
}

// The same of each of the leaders beside one.
fn line_of(
    alloc: Global,
    engine: &Engine,
    v: VarId,
    leaders: &[VarId],
) -> Result<Vec<bool>, NoMemory>
    ensures { IfOk result (λ line. line.items ≡ map (λ w. equal_numbers engine.now v w) leaders.now) }
{
    let mut line = Vec::new(alloc);
    for w in leaders {
        line.push(are_equal(engine, v, *w))?;
    }
    Ok(line)
}

// The same of each two of the leaders.
fn lines_of(
    alloc: Global,
    engine: &Engine,
    firsts: &[VarId],
    leaders: &[VarId],
) -> Result<Vec<Vec<bool>>, NoMemory>
    ensures { IfOk result (λ lines. map (λ l. l.items) lines.items ≡ equal_lines engine.now firsts.now leaders.now) }
{
    let mut lines = Vec::new(alloc);
    for v in firsts {
        lines.push(line_of(alloc, engine, *v, leaders)?)?;
    }
    Ok(lines)
}

// By each variable, the place of the leader, if it is one. Others have any place.
fn places_of(alloc: Global, count: usize, leaders: &[VarId]) -> Result<Vec<usize>, NoMemory> {
    let mut places = Vec::new(alloc);
    for _ in 0..count {
        places.push(0)?;
    }
    for (place, v) in leaders.iter().enumerate() {
        if let Some(at) = places.get_mut(v.0 as usize) {
            *at = place;
        }
    }
    Ok(places)
}

// The leaders of which it is noted: the base numbers; none where the engine has no slots, since then all are constant.
fn noted_leaders(
    alloc: Global,
    engine: &Engine,
    leaders: &[VarId],
) -> Result<Vec<VarId>, NoMemory> {
    if engine.slots().is_empty() {
        return Ok(Vec::new(alloc));
    }
    let numbers = suited_vars(alloc, Role::Base(Kind::Int), engine.vars(), leaders)?;
    Ok(numbers.into_vec())
}

impl<'a> Noted<'a> {
    /// An engine with notes of these leaders.
    pub(crate) fn of(
        alloc: Global,
        engine: &'a Engine,
        leaders: &[VarId],
    ) -> Result<Noted<'a>, NoMemory>
        ensures { IfOk result (λ n. n.engine.now ≡ engine.now) }
    {
        let leaders = noted_leaders(alloc, engine, leaders)?;
        let places = places_of(alloc, engine.vars().len(), leaders.as_slice())?;
        let lines = lines_of(alloc, engine, leaders.as_slice(), leaders.as_slice())?;
        Ok(Noted {
            engine,
            leaders,
            places,
            lines,
        })
    }

    // ---- looking up

    // The place of a leader, if it is noted.
    fn place(&self, v: VarId) -> Option<usize>
        ensures { IfSome result (λ i. slice_get self.now.leaders.items i ≡ Some v) }
    {
        match self.places.get(v.0 as usize) {
            Some(place) => match self.leaders.get(*place) {
                Some(leader) => { if leader.0 == v.0 { Some(*place) } else { None } }
                None => None,
            },
            None => None,
        }
    }

    // What stands at two places.
    fn at(&self, i: usize, j: usize) -> Option<bool>
        ensures { IfSome result (λ b. (v w : VarId) → slice_get self.now.leaders.items i ≡ Some v → slice_get self.now.leaders.items j ≡ Some w → b ≡ equal_numbers self.now.engine.now v w) }
    {
        match self.lines.get(i) {
            Some(line) => match line.get(j) {
                Some(equal) => Some(*equal),
                None => None,
            },
            None => None,
        }
    }

    // Whether two variables have equal numbers, if it is noted.
    fn are_equal(&self, v: VarId, w: VarId) -> Option<bool>
        ensures { IfSome result (λ b. b ≡ equal_numbers self.now.engine.now v w) }
    {
        match self.place(v) {
            Some(i) => match self.place(w) {
                Some(j) => self.at(i, j),
                None => None,
            },
            None => None,
        }
    }

    // Whether two numbers at roles are equal, if it is noted.
    fn told_equal(&self, roles: [u8; 3], vars: &[VarId]) -> Option<bool>
        ensures { IfSome result (λ b. b ≡ equal_numbers self.now.engine.now (at_role (slice_index_or roles 0 0) vars.now) (at_role (slice_index_or roles 1 0) vars.now)) }
    {
        match vars.get(roles[0] as usize) {
            Some(v) => match vars.get(roles[1] as usize) {
                Some(w) => self.are_equal(*v, *w),
                None => None,
            },
            None => None,
        }
    }

    // Whether the premise fits, if it is noted.
    fn told(&self, premise: &Premise, vars: &[VarId]) -> Option<bool>
        requires { IsUsable self.now.engine.now.grammar self.now.engine.now.infos premise.now vars.now }
        ensures { IfSome result (λ b. b ≡ premise_fits (state_read self.now.engine.now.kept) premise.now vars.now) }
    {
        match *premise {
            Premise::Holds { row, roles } => {
                if row.0 == rows::EQ_INT {
                    self.told_equal(roles, vars)
                } else {
                    None
                }
            }
            _ => None,
        }
    }
}

impl<'a> Answers for Noted<'a> {
    ghost grammar = { λ n. n.engine.now.grammar };

    ghost infos = { λ n. n.engine.now.infos };

    ghost answered = { λ n. state_read n.engine.now.kept };

    ghost counted = { λ n. count_read n.engine.now.kept };

    ghost agreeing = { λ n. agree_read n.engine.now.kept };

    fn answer(&self, row: RowId, vars: &[VarId]) -> Result<State, NoMemory> {
        self.engine.answer(row, vars)
    }

    fn count(&self, vars: &[VarId]) -> u64 {
        self.engine.count(vars)
    }

    fn agree(&self, v: VarId, w: VarId) -> bool {
        self.engine.agree(v, w)
    }

    fn premise(&self, premise: &Premise, vars: &[VarId]) -> bool {
        match self.told(premise, vars) {
            Some(fits) => fits,
            None => self.engine.premise(premise, vars),
        }
    }
}
