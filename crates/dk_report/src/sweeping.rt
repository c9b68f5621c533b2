// The candidates of a point, row by row over all tuples of variables that may stand in what is kept.
ghost use Rattle.std.specs.Prelude.{◌≡◌, ◌≤◌, ◌^◌, ◌<◌, ◌++◌, IfOk, filter, length};
ghost use Rattle.dk_engine.specs.Sweeps.Suited.{suited_vars};
ghost use Rattle.dk_filters.specs.Candidates.{candidates_kept, candidates_of};
ghost use Rattle.dk_report.specs.Keeping.{keeps};
ghost use Rattle.dk_report.specs.Asked.{AreStanding, CanBeAsked, candidates_equal, candidates_over, candidates_standing, has_enough, here_of, listed_candidates_by, vars_for_row, vars_with_enough, views_of};
ghost use Rattle.dk_report.specs.Listing.{may_equal, may_lead, may_stand};
ghost use Rattle.dk_report.specs.Sweeps.{behind, equal_pairs, equals, firsts, over_takes, pairs, seconds, thirds, triples};
ghost use Rattle.dk_template.specs.Templates.{IsRow, IsRowOf};

use crate::Options;
use crate::asking::Asking;
use crate::narrowing::has;
use dk_base::{List, NoMemory, VarId};
use dk_engine::suited_vars;
use dk_filters::{Candidate, PointFacts, first_of, has_one_value, is_equality};
use dk_template::{Answers, Role, RowId, Takes, info, template_at};
use std::alloc::Global;

// Whether an instance over the variable may be kept.
fn may_stand(options: &Options, found: &PointFacts, several: bool, v: VarId) -> bool
    ensures { result ≡ may_stand options.now found.now several v }
{
    let is_first = first_of(found.firsts.as_slice(), v).0 == v.0;
    let one_value = has_one_value(found.one_values.as_slice(), v);
    (options.keep_members || is_first) && (options.keep_constant || !(several && one_value))
}

// Whether an equality of the variable with a later one may be kept.
fn may_lead(options: &Options, found: &PointFacts, v: VarId) -> bool
    ensures { result ≡ may_lead options.now found.now v }
{
    options.keep_members || has(found.firsts.as_slice(), v)
}

// Whether an equality of the first variable with the other may be kept.
fn may_equal(options: &Options, found: &PointFacts, v: VarId, w: VarId) -> bool
    ensures { result ≡ may_equal options.now found.now v w }
{
    let firsts = found.firsts.as_slice();
    let first = first_of(firsts, w);
    options.keep_members || first.0 == v.0 || (first_of(firsts, v).0 == v.0 && first.0 == w.0)
}

/// The variables of a point, each present in enough samples: all of these, those that may stand first in an equality, and those that may
/// stand in an instance of one variable, and in one of several.
#[derive(Drop)]
pub(crate) struct Standing {
    pub(crate) all: List<VarId>,
    pub(crate) leading: List<VarId>,
    pub(crate) single: List<VarId>,
    pub(crate) several: List<VarId>,
}

impl Standing {
    /// Those over which a row is asked about that is no equality.
    pub(crate) fn of(&self, row: RowId) -> &[VarId]
        requires { IsRow row }
        ensures { result.now ≡ vars_for_row self.now row }
    {
        if info(row).arity == 1 {
            self.single.as_slice()
        } else {
            self.several.as_slice()
        }
    }
}

impl<'a, 'e> Asking<'a, 'e> {
    // Whether the variable is present in enough samples.
    fn has_enough(&self, v: VarId) -> bool
        requires { v.0 < length self.now.here.now.here.infos }
        ensures { result ≡ has_enough self.now v }
    {
        self.options.least <= self.here.count(&[v])
    }

    // Such variables of the point.
    fn vars_with_enough(&self) -> Result<List<VarId>, NoMemory>
        requires { length self.now.here.now.here.infos < 2 ^ 32 }
        ensures { IfOk result (λ list. list ≡ vars_with_enough self.now) }
    {
        let mut list = List::new(self.alloc);
        for n in 0..self.here.vars().len() as u32 {
            if self.has_enough(VarId(n)) {
                list.push(VarId(n))?;
            }
        }
        Ok(list)
    }

    // Those of the variables that may stand in an instance of several, or of one.
    fn standing_vars(&self, several: bool, of: &[VarId]) -> Result<List<VarId>, NoMemory>
        ensures { IfOk result (λ list. list ≡ filter (may_stand self.now.options.now self.now.found.now several) of.now) }
    {
        let mut list = List::new(self.alloc);
        for v in of {
            if may_stand(self.options, self.found, several, *v) {
                list.push(*v)?;
            }
        }
        Ok(list)
    }

    // Those that may stand first in an equality.
    fn leading_vars(&self, of: &[VarId]) -> Result<List<VarId>, NoMemory>
        ensures { IfOk result (λ list. list ≡ filter (may_lead self.now.options.now self.now.found.now) of.now) }
    {
        let mut list = List::new(self.alloc);
        for v in of {
            if may_lead(self.options, self.found, *v) {
                list.push(*v)?;
            }
        }
        Ok(list)
    }

    /// The variables of the point that may stand in what is kept.
    pub(crate) fn all_standing(&self) -> Result<Standing, NoMemory>
        requires { length self.now.here.now.here.infos < 2 ^ 32 }
        ensures { IfOk result (AreStanding self.now) }
    {
        let all = self.vars_with_enough()?;
        Ok(Standing {
            leading: self.leading_vars(all.as_slice())?,
            single: self.standing_vars(false, all.as_slice())?,
            several: self.standing_vars(true, all.as_slice())?,
            all,
        })
    }

    // The candidates with those of one variable each.
    fn firsts(
        &self,
        row: RowId,
        first: &[VarId],
        list: List<Candidate>,
    ) -> Result<List<Candidate>, NoMemory>
        requires asked { CanBeAsked self.now }
        requires row { IsRowOf self.now.here.now.here.grammar row }
        ensures { IfOk result (λ more. more ≡ list ++ firsts (listed_candidates_by self.now row) first.now) }
    {
        let mut list = list;
        for v in first {
            list = self.consider(row, &[*v], list)?;
        }
        Ok(list)
    }

    // With those of a variable and one of the list.
    fn seconds(
        &self,
        row: RowId,
        v: VarId,
        second: &[VarId],
        list: List<Candidate>,
    ) -> Result<List<Candidate>, NoMemory>
        requires asked { CanBeAsked self.now }
        requires row { IsRowOf self.now.here.now.here.grammar row }
        ensures { IfOk result (λ more. more ≡ list ++ seconds (listed_candidates_by self.now row) v second.now) }
    {
        let mut list = list;
        for w in second {
            list = self.consider(row, &[v, *w], list)?;
        }
        Ok(list)
    }

    // With those of two variables and one of the list.
    fn thirds(
        &self,
        row: RowId,
        v: VarId,
        w: VarId,
        third: &[VarId],
        list: List<Candidate>,
    ) -> Result<List<Candidate>, NoMemory>
        requires asked { CanBeAsked self.now }
        requires row { IsRowOf self.now.here.now.here.grammar row }
        ensures { IfOk result (λ more. more ≡ list ++ thirds (listed_candidates_by self.now row) v w third.now) }
    {
        let mut list = list;
        for x in third {
            list = self.consider(row, &[v, w, *x], list)?;
        }
        Ok(list)
    }

    // With those of two variables, one of each list.
    fn pairs(
        &self,
        row: RowId,
        first: &[VarId],
        second: &[VarId],
        list: List<Candidate>,
    ) -> Result<List<Candidate>, NoMemory>
        requires asked { CanBeAsked self.now }
        requires row { IsRowOf self.now.here.now.here.grammar row }
        ensures { IfOk result (λ more. more ≡ list ++ pairs (listed_candidates_by self.now row) first.now second.now) }
    {
        let mut list = list;
        for v in first {
            list = self.seconds(row, *v, second, list)?;
        }
        Ok(list)
    }

    // With those of a variable and two more, one of each list.
    fn behind(
        &self,
        row: RowId,
        v: VarId,
        second: &[VarId],
        third: &[VarId],
        list: List<Candidate>,
    ) -> Result<List<Candidate>, NoMemory>
        requires asked { CanBeAsked self.now }
        requires row { IsRowOf self.now.here.now.here.grammar row }
        ensures { IfOk result (λ more. more ≡ list ++ behind (listed_candidates_by self.now row) v second.now third.now) }
    {
        let mut list = list;
        for w in second {
            list = self.thirds(row, v, *w, third, list)?;
        }
        Ok(list)
    }

    // With those of three variables, one of each list.
    fn triples(
        &self,
        row: RowId,
        first: &[VarId],
        second: &[VarId],
        third: &[VarId],
        list: List<Candidate>,
    ) -> Result<List<Candidate>, NoMemory>
        requires asked { CanBeAsked self.now }
        requires row { IsRowOf self.now.here.now.here.grammar row }
        ensures { IfOk result (λ more. more ≡ list ++ triples (listed_candidates_by self.now row) first.now second.now third.now) }
    {
        let mut list = list;
        for v in first {
            list = self.behind(row, *v, second, third, list)?;
        }
        Ok(list)
    }

    // Those of the variables that suit a role.
    fn vars_of_role(&self, role: Role, of: &[VarId]) -> Result<List<VarId>, NoMemory>
        ensures { IfOk result (λ list. list ≡ suited_vars role self.now.here.now.here.infos of.now) }
    {
        suited_vars(self.alloc, role, self.here.vars(), of)
    }

    // With those of a row of one role.
    fn of_one(
        &self,
        row: RowId,
        a: Role,
        of: &[VarId],
        list: List<Candidate>,
    ) -> Result<List<Candidate>, NoMemory>
        requires asked { CanBeAsked self.now }
        requires row { IsRowOf self.now.here.now.here.grammar row }
        ensures { IfOk result (λ more. more ≡ list ++ over_takes (listed_candidates_by self.now row) self.now.here.now.here.infos (Takes.One a) of.now) }
    {
        let first = self.vars_of_role(a, of)?;
        self.firsts(row, first.as_slice(), list)
    }

    // With those of a row of two roles.
    fn of_two(
        &self,
        row: RowId,
        a: Role,
        b: Role,
        of: &[VarId],
        list: List<Candidate>,
    ) -> Result<List<Candidate>, NoMemory>
        requires asked { CanBeAsked self.now }
        requires row { IsRowOf self.now.here.now.here.grammar row }
        ensures { IfOk result (λ more. more ≡ list ++ over_takes (listed_candidates_by self.now row) self.now.here.now.here.infos (Takes.Two a b) of.now) }
    {
        let first = self.vars_of_role(a, of)?;
        let second = self.vars_of_role(b, of)?;
        self.pairs(row, first.as_slice(), second.as_slice(), list)
    }

    // With those of a row of three roles.
    fn of_three(
        &self,
        row: RowId,
        roles: (Role, Role, Role),
        of: &[VarId],
        list: List<Candidate>,
    ) -> Result<List<Candidate>, NoMemory>
        requires asked { CanBeAsked self.now }
        requires row { IsRowOf self.now.here.now.here.grammar row }
        ensures { IfOk result (λ more. more ≡ list ++ over_takes (listed_candidates_by self.now row) self.now.here.now.here.infos (Takes.Three roles.0 roles.1 roles.2) of.now) }
    {
        let first = self.vars_of_role(roles.0, of)?;
        let second = self.vars_of_role(roles.1, of)?;
        let third = self.vars_of_role(roles.2, of)?;
        self.triples(
            row,
            first.as_slice(),
            second.as_slice(),
            third.as_slice(),
            list,
        )
    }

    /// The candidates with those of a row over these variables.
    pub(crate) fn over(
        &self,
        row: RowId,
        of: &[VarId],
        list: List<Candidate>,
    ) -> Result<List<Candidate>, NoMemory>
        requires asked { CanBeAsked self.now }
        requires row { IsRowOf self.now.here.now.here.grammar row }
        ensures { IfOk result (λ more. more ≡ list ++ candidates_over self.now row of.now) }
    {
        match template_at(row).takes {
            Takes::One(a) => self.of_one(row, a, of, list),
            Takes::Two(a, b) => self.of_two(row, a, b, of, list),
            Takes::Three(a, b, c) => self.of_three(row, (a, b, c), of, list),
        }
    }

    // With those of an equality of a variable and one of the list that may be kept.
    fn equals(
        &self,
        row: RowId,
        v: VarId,
        second: &[VarId],
        list: List<Candidate>,
    ) -> Result<List<Candidate>, NoMemory>
        requires asked { CanBeAsked self.now }
        requires row { IsRowOf self.now.here.now.here.grammar row }
        ensures { IfOk result (λ more. more ≡ list ++ equals (listed_candidates_by self.now row) (may_equal self.now.options.now self.now.found.now) v second.now) }
    {
        let mut list = list;
        for w in second {
            if may_equal(self.options, self.found, v, *w) {
                list = self.consider(row, &[v, *w], list)?;
            }
        }
        Ok(list)
    }

    // With those of two variables, one of each list.
    fn equal_pairs(
        &self,
        row: RowId,
        first: &[VarId],
        second: &[VarId],
        list: List<Candidate>,
    ) -> Result<List<Candidate>, NoMemory>
        requires asked { CanBeAsked self.now }
        requires row { IsRowOf self.now.here.now.here.grammar row }
        ensures { IfOk result (λ more. more ≡ list ++ equal_pairs (listed_candidates_by self.now row) (may_equal self.now.options.now self.now.found.now) first.now second.now) }
    {
        let mut list = list;
        for v in first {
            list = self.equals(row, *v, second, list)?;
        }
        Ok(list)
    }

    // With those of an equality.
    fn of_equality(
        &self,
        row: RowId,
        standing: &Standing,
        list: List<Candidate>,
    ) -> Result<List<Candidate>, NoMemory>
        requires asked { CanBeAsked self.now }
        requires row { IsRowOf self.now.here.now.here.grammar row }
        ensures { IfOk result (λ more. more ≡ list ++ candidates_equal self.now standing.now row) }
    {
        match template_at(row).takes {
            Takes::Two(a, b) => {
                let first = self.vars_of_role(a, standing.leading.as_slice())?;
                let second = self.vars_of_role(b, standing.all.as_slice())?;
                self.equal_pairs(row, first.as_slice(), second.as_slice(), list)
            }
            Takes::One(_) | Takes::Three(_, _, _) => self.over(row, standing.all.as_slice(), list),
        }
    }

    /// The candidates with those of a row over the variables that may stand in what is kept.
    pub(crate) fn over_standing(
        &self,
        row: RowId,
        standing: &Standing,
        list: List<Candidate>,
    ) -> Result<List<Candidate>, NoMemory>
        requires asked { CanBeAsked self.now }
        requires row { IsRowOf self.now.here.now.here.grammar row }
        ensures { IfOk result (λ more. more ≡ list ++ candidates_standing self.now standing.now row) }
    {
        if is_equality(row) {
            self.of_equality(row, standing, list)
        } else {
            self.over(row, standing.of(row), list)
        }
    }

    /// The candidates that the options let through, by row and then by variables. Each row is asked about over the variables that suit
    /// its roles and may stand in what is kept.
    pub(crate) fn sweep_all(&self, standing: &Standing) -> Result<List<Candidate>, NoMemory>
        requires asked { CanBeAsked self.now }
        requires standing { AreStanding self.now standing.now }
        ensures { IfOk result (λ list. list ≡ candidates_kept (keeps self.now.options.now) (candidates_of self.now.here.now.here.grammar self.now.options.now.least (here_of self.now) (views_of self.now))) }
    {
        let mut list = List::new(self.alloc);
        for n in 0..self.grammar.rows() {
            list = self.over_standing(RowId(n + 1), standing, list)?;
        }
        Ok(list)
    }
}
