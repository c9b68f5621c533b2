// What a declaration behind the points of the table has.
ghost use Rattle.std.specs.Prelude.{◌≡◌, ◌<◌, ◌&&◌, IfOk, IfSome, [], is_none, length, map};
ghost use Rattle.std.specs.Option.{option_map, option_map_or};
ghost use Rattle.dk_graph.specs.Graphs.{place_in};
ghost use Rattle.dk_points.specs.Kept.{IsOwnBehind};
ghost use Rattle.dk_points.specs.Links.{edges_of_implicit, kept_edges};
ghost use Rattle.dk_points.specs.Names.{combined_of};
ghost use Rattle.dk_points.specs.Table.{declared_point, makes_exit};
ghost use Rattle.dk_points.specs.Vars.{base_vars, entry_before};

use crate::bare::have_bare_names;
use crate::links::{KeptEdges, kept_edges};
use crate::places::Own;
use crate::points::Points;
use crate::roles::{entry_name, role_of};
use crate::variables::{declared_vars, with_orig_vars};
use dk_base::{List, NoMemory, PointId, Text, VarInfo};
use dk_decl::{EdgeDecl, PointDecl};

impl Points {
    // The entry that an exit of this name would have to match.
    #[tactic(auto, unfolding(crate::specs::Vars::entry_before))]
    fn entry_before(&self, name: &[u8]) -> Result<Option<PointId>, NoMemory>
        ensures entry { IfOk result (λ entry. option_map place_in entry ≡ entry_before self.now name.now) }
        ensures within { IfOk result (λ entry. IfSome entry (λ e. e.0 < length self.now)) }
    {
        if !role_of(name).is_exit() {
            return Ok(None);
        }
        let entry = entry_name(self.alloc, name)?;
        Ok(self.find(entry.as_slice()))
    }

    // The base variables of the declaration's point, which has this entry.
    fn base_vars(&self, decl: &PointDecl, entry: Option<PointId>) -> Result<List<VarInfo>, NoMemory>
        requires entry { option_map place_in entry ≡ entry_before self.now decl.now.name }
        requires within { IfSome entry (λ e. e.0 < length self.now) }
        ensures { IfOk result (λ vars. vars ≡ base_vars self.now decl.now) }
    {
        let vars = declared_vars(self.alloc, decl.vars.as_slice())?;
        match entry {
            None => Ok(vars),
            Some(entry) => {
                let place = self.place(entry);
                with_orig_vars(self.alloc, vars, place.own.decl.vars.as_slice())
            }
        }
    }

    // The declaration with the role, the base variables and the entry of its point.
    pub(crate) fn own_of(&self, decl: PointDecl) -> Result<Own, NoMemory>
        ensures decl { IfOk result (λ own. own.decl ≡ decl) }
        ensures own { IfOk result (λ own. IsOwnBehind self.now own) }
    {
        let role = role_of(decl.name.as_slice());
        let entry = self.entry_before(decl.name.as_slice())?;
        let vars = self.base_vars(&decl, entry)?;
        let is_bare = have_bare_names(decl.vars.as_slice());
        Ok(Own {
            decl,
            role,
            vars,
            entry,
            is_bare,
        })
    }

    // Whether a declaration with this combined exit makes it.
    pub(crate) fn makes_exit(&self, decl: &PointDecl, combined: Option<&Text>) -> bool
        requires { option_map (λ c. c.now) combined ≡ combined_of decl.now.name }
        ensures { result ≡ makes_exit self.now decl.now }
    {
        match combined {
            None => false,
            Some(name) => self.find(name.as_slice()).is_none(),
        }
    }

    // The edges that the implicit exit of this name was made with.
    fn edges_of_implicit(&self, name: &[u8]) -> &[EdgeDecl]
        ensures { result.now ≡ edges_of_implicit self.now name.now }
    {
        match self.find(name) {
            None => &[],
            Some(p) => {
                let place = self.place(p);
                if place.is_implicit {
                    place.own.decl.edges.as_slice()
                } else {
                    &[]
                }
            }
        }
    }

    fn taken_edges(&self, combined: Option<&Text>) -> &[EdgeDecl]
        ensures { result.now ≡ option_map_or (edges_of_implicit self.now) (option_map (λ c. c.now) combined.entry) [] }
    {
        match combined {
            None => &[],
            Some(name) => self.edges_of_implicit(name.as_slice()),
        }
    }

    // The edges of the declaration that its point keeps.
    pub(crate) fn kept_edges(
        &self,
        decl: &PointDecl,
        combined: Option<&Text>,
    ) -> Result<KeptEdges, NoMemory>
        requires { option_map (λ c. c.now) combined ≡ combined_of decl.now.name }
        ensures places { IfOk result (λ kept. kept.places ≡ map (λ e. e.0) (kept_edges self.now (declared_point decl.now))) }
        ensures links { IfOk result (λ kept. kept.links ≡ map (λ e. e.1.parent) (kept_edges self.now (declared_point decl.now))) }
    {
        let taken = self.taken_edges(combined);
        kept_edges(self.alloc, decl.edges.as_slice(), combined, taken)
    }
}
