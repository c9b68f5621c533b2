// What a declaration does to the table.
ghost use Rattle.std.specs.Prelude.{◌≡◌, ◌<◌, ◌∷◌, ◌++◌, [], IfOk, None, false, length};
ghost use Rattle.std.specs.Option.{option_map_or};
ghost use Rattle.dk_decl.specs.Outcomes.{AnswerAgrees};
ghost use Rattle.dk_graph.specs.Names.{place_of};
ghost use Rattle.dk_points.specs.Declaring.{at_line, declared, declared_again, declared_new, has_many_points, has_many_vars};
ghost use Rattle.dk_points.specs.Kept.{IsOwnBehind, Judges, TableGrows};
ghost use Rattle.dk_points.specs.Names.{combined_of};
ghost use Rattle.dk_points.specs.Sameness.{same_decl};
ghost use Rattle.dk_points.specs.Table.{added_points, decl_at, declared_point, makes_exit, names};

use crate::declared::Declared;
use crate::limits::has_many_vars;
use crate::places::Own;
use crate::points::Points;
use crate::roles::combined_of;
use crate::sameness::same_decl;
use dk_base::{BlockFault, NoMemory, PointId, Text, Why};
use dk_decl::PointDecl;

fn refuse(line: u64, why: Why) -> BlockFault
    ensures { result ≡ BlockFault.Refused line why }
{
    BlockFault::Refused { line, why }
}

impl Points {
    // Whether the points that the declaration adds are too many; it makes an implicit exit or none.
    fn has_many_points(&self, decl: &PointDecl, makes: bool) -> bool
        requires { makes ≡ makes_exit self.now decl.now }
        ensures { result ≡ has_many_points (self.now ++ added_points self.now decl.now) }
    {
        let more = if makes { 2 } else { 1 };
        self.len() + more > 65535
    }

    // The declaration with its own parts, if there are not too many points and not too many variables.
    fn own_within_limits(&self, decl: PointDecl, makes: bool, line: u64) -> Result<Own, BlockFault>
        requires { makes ≡ makes_exit self.now decl }
        ensures { Judges result line self.now decl }
    {
        if self.has_many_points(&decl, makes) {
            return Err(refuse(line, Why::TooManyPoints));
        }
        let own = self.own_of(decl)?;
        if has_many_vars(own.decl.vars.len(), own.vars.as_slice()) {
            return Err(refuse(line, Why::TooManyVariables));
        }
        Ok(own)
    }

    // The table with the points that the declaration adds. None where the edges would have a cycle.
    fn with_added(
        self,
        own: Own,
        combined: Option<Text>,
        makes: bool,
    ) -> Result<Option<Points>, NoMemory>
        requires new { place_of (names self) own.decl.name ≡ None }
        requires few { has_many_points (self ++ added_points self own.decl) ≡ false }
        requires own { IsOwnBehind self own }
        requires few_vars { has_many_vars self own.decl ≡ false }
        requires combined { combined ≡ combined_of own.decl.name }
        requires makes { makes ≡ makes_exit self own.decl }
        ensures { IfOk result (λ points. TableGrows points (self ++ added_points self own.decl)) }
    {
        match combined {
            None => self.with_declared(own, None),
            Some(name) => if makes {
                self.with_exit(own, name)
            } else {
                self.with_declared(own, Some(name))
            },
        }
    }

    fn declare_new(self, decl: PointDecl, line: u64) -> Result<(Points, Declared), BlockFault>
        requires new { place_of (names self) decl.name ≡ None }
        ensures { AnswerAgrees result (at_line line (declared_new self decl)) }
    {
        let combined = combined_of(self.alloc, decl.name.as_slice())?;
        let makes = self.makes_exit(&decl, combined.as_ref());
        let own = self.own_within_limits(decl, makes, line)?;
        match self.with_added(own, combined, makes)? {
            None => Err(refuse(line, Why::CyclicParents)),
            Some(points) => {
                let last = points.len() - 1;
                Ok((points, Declared::New(PointId(last))))
            }
        }
    }

    // Whether the point has this declaration.
    fn has_decl(&self, p: PointId, decl: &PointDecl) -> bool
        requires { p.0 < length self.now }
        ensures { result ≡ option_map_or (λ own. same_decl own decl.now) (decl_at self.now p.0) false }
    {
        match self.decl(p) {
            None => false,
            Some(own) => same_decl(own, decl),
        }
    }

    fn declare_again(
        self,
        p: PointId,
        decl: PointDecl,
        line: u64,
    ) -> Result<(Points, Declared), BlockFault>
        requires { p.0 < length self }
        ensures { AnswerAgrees result (at_line line (declared_again self decl p.0 (decl_at self p.0))) }
    {
        if self.has_decl(p, &decl) {
            Ok((self, Declared::Same(p)))
        } else {
            Err(refuse(line, Why::DuplicatePoint))
        }
    }

    /// The table with one declaration more, and what the declaration was. The declaration that a known name has is taken again
    /// and changes nothing. A refusal is at the given line, and consumes the table: a known name has another declaration or is
    /// an implicit exit's; there would be more than 65,535 points; the point has more than 1,024 declared variables, or with
    /// derived ones more than 16,384; or the edges between the points would have a cycle. The first of these in this order is
    /// answered.
    #[tactic(auto, unfolding(crate::specs::Declaring::declared))]
    pub fn declare(self, decl: PointDecl, line: u64) -> Result<(Points, Declared), BlockFault>
        ensures { AnswerAgrees result (at_line line (declared self decl)) }
    {
        match self.find(decl.name.as_slice()) {
            None => self.declare_new(decl, line),
            Some(p) => self.declare_again(p, decl, line),
        }
    }
}
