// A declaration that begins with `ppt`.
ghost use Rattle.std.specs.Prelude.{◌≡◌, [], ◌∷◌, true, false, ℕ, Bool, List, Option};
ghost use Rattle.dk_base.specs.Reading.{Line};
ghost use Rattle.dk_decl.specs.Outcomes.{AnswerAgrees};

use crate::decls::{EdgeDecl, PointDecl};
use crate::heads::head_line;
use crate::line_words::{begins, operand};
use crate::outcomes::{bad_point, in_memory};
use crate::variables::{OpenVar, close_var, open_var, var_line};
use crate::vars::Vars;
use dk_base::{BlockFault, List, Text, unescape};
use std::alloc::Global;

/// The front of a block that begins with `ppt`.
#[derive(Drop)]
pub(crate) struct PptBlock {
    pub(crate) name: Text,
    pub(crate) edges: List<EdgeDecl>,
    pub(crate) vars: Vars,
    pub(crate) current: Option<OpenVar>,
}

impl PptBlock {
    ghost use Rattle.dk_decl.specs.Outcomes.{ReaderGoesOn};
    ghost use Rattle.dk_decl.specs.PptBlock.{is_variable, point_name, ppt_lines, ppt_of, ppt_resumed, with_var};

    // The point's name, by the first line.
    #[tactic(auto, unfolding(crate::specs::PptBlock::point_name))]
    fn point_name(alloc: Global, line: u64, bytes: &[u8]) -> Result<Text, BlockFault>
        ensures { AnswerAgrees result (point_name (record { number = line; bytes = bytes.now })) }
    {
        let rest = operand(bytes);
        if rest.is_empty() {
            return Err(bad_point(line));
        }
        in_memory(unescape(alloc, rest))
    }

    // A block of which the first line was read.
    #[tactic(auto, unfolding(crate::specs::PptBlock::ppt_lines, crate::specs::PptBlock::ppt_resumed))]
    fn of_name(alloc: Global, name: Text) -> PptBlock
        ensures { (implicit : Bool) (ls : List Line) (close : Option ℕ) → ppt_lines implicit name ls close ≡ ppt_resumed implicit result ls close }
    {
        PptBlock {
            name,
            edges: List::new(alloc),
            vars: Vars::new(alloc),
            current: None,
        }
    }

    /// A block that begins with this line.
    #[tactic(auto, unfolding(crate::specs::PptBlock::ppt_of))]
    pub(crate) fn begin(alloc: Global, line: u64, bytes: &[u8]) -> Result<PptBlock, BlockFault>
        ensures { (implicit : Bool) → ReaderGoesOn (ppt_resumed implicit) result (ppt_of implicit (record { number = line; bytes = bytes.now })) }
    {
        let name = PptBlock::point_name(alloc, line, bytes)?;
        Ok(PptBlock::of_name(alloc, name))
    }

    #[tactic(auto, unfolding(crate::specs::PptBlock::is_variable))]
    fn is_variable(line: u64, bytes: &[u8]) -> bool
        ensures { result ≡ is_variable (record { number = line; bytes = bytes.now }) }
    {
        begins(b"variable", bytes)
    }

    // The variables with the one that ends here.
    #[tactic(auto, unfolding(crate::specs::PptBlock::with_var))]
    fn with_var(alloc: Global, vars: Vars, current: OpenVar) -> Result<Vars, BlockFault>
        ensures { AnswerAgrees result (with_var vars current true) }
    {
        let ended = close_var(alloc, current)?;
        in_memory(vars.with(ended))
    }

    /// The block with one line more.
    pub(crate) fn line(
        self,
        alloc: Global,
        implicit: bool,
        line: u64,
        bytes: &[u8],
    ) -> Result<PptBlock, BlockFault>
        ensures { ReaderGoesOn (ppt_resumed implicit) result (λ ls. ppt_resumed implicit self (record { number = line; bytes = bytes.now } ∷ ls)) }
    {
        if PptBlock::is_variable(line, bytes) {
            self.next_variable(alloc, implicit, line, bytes)
        } else {
            self.other_line(alloc, implicit, line, bytes)
        }
    }

    // A `variable` line ends the variable in front of it, and opens another.
    #[tactic(auto, unfolding(crate::specs::PptBlock::ppt_resumed))]
    fn next_variable(
        self,
        alloc: Global,
        implicit: bool,
        line: u64,
        bytes: &[u8],
    ) -> Result<PptBlock, BlockFault>
        requires { is_variable (record { number = line; bytes = bytes.now }) ≡ true }
        ensures { ReaderGoesOn (ppt_resumed implicit) result (λ ls. ppt_resumed implicit self (record { number = line; bytes = bytes.now } ∷ ls)) }
    {
        let PptBlock {
            name,
            edges,
            mut vars,
            current,
        } = self;
        if let Some(ended) = current {
            vars = PptBlock::with_var(alloc, vars, ended)?;
        }
        let current = open_var(alloc, &vars, line, bytes)?;
        Ok(PptBlock {
            name,
            edges,
            vars,
            current: Some(current),
        })
    }

    // Another line is one of the variable, or stands in front of the first.
    #[tactic(auto, unfolding(crate::specs::PptBlock::ppt_resumed))]
    fn other_line(
        self,
        alloc: Global,
        implicit: bool,
        line: u64,
        bytes: &[u8],
    ) -> Result<PptBlock, BlockFault>
        requires { is_variable (record { number = line; bytes = bytes.now }) ≡ false }
        ensures { ReaderGoesOn (ppt_resumed implicit) result (λ ls. ppt_resumed implicit self (record { number = line; bytes = bytes.now } ∷ ls)) }
    {
        let PptBlock {
            name,
            edges,
            vars,
            current,
        } = self;
        match current {
            None => {
                let edges = head_line(alloc, edges, line, bytes)?;
                Ok(PptBlock {
                    name,
                    edges,
                    vars,
                    current: None,
                })
            }
            Some(current) => {
                let current = var_line(alloc, implicit, &edges, current, line, bytes)?;
                Ok(PptBlock {
                    name,
                    edges,
                    vars,
                    current: Some(current),
                })
            }
        }
    }

    /// The block's end, which ends the last variable.
    #[tactic(auto, unfolding(crate::specs::PptBlock::ppt_resumed))]
    pub(crate) fn end(self, alloc: Global) -> Result<PointDecl, BlockFault>
        ensures { (implicit : Bool) (close : ℕ) → AnswerAgrees result (ppt_resumed implicit self [] (Some close)) }
    {
        let PptBlock {
            name,
            edges,
            mut vars,
            current,
        } = self;
        if let Some(last) = current {
            vars = PptBlock::with_var(alloc, vars, last)?;
        }
        Ok(PointDecl {
            name,
            edges,
            vars: vars.into_list(),
        })
    }
}
