// A declaration that begins with `DECLARE`, whose lines are read by their positions.
ghost use Rattle.std.specs.Prelude.{◌≡◌, [], ◌∷◌, ℕ, Bool, List, Option};
ghost use Rattle.dk_base.specs.Reading.{Line};
ghost use Rattle.dk_decl.specs.Outcomes.{AnswerAgrees};

use crate::brackets::compar_of;
use crate::decls::{PointDecl, VarDecl};
use crate::line_words::{begins, operand};
use crate::outcomes::{bad_point, bad_variable, in_memory, or_bad_variable};
use crate::types::{Placed, RepType, constant_at, rep_kind, rep_type_of};
use crate::variables::NO_COMPAR;
use crate::vars::Vars;
use dk_base::{BlockFault, Compar, List, Text, Value, first_word, unescape};
use std::alloc::Global;

/// What a variable's representation says.
#[derive(Drop)]
pub(crate) struct Represented {
    pub(crate) rep: RepType,
    pub(crate) constant: Option<Value>,
    pub(crate) constant_line: bool,
}

/// What the next line is, if there is one. Of a variable that has begun, its name and the line of its name are kept.
#[derive(Drop)]
pub(crate) enum NextLine {
    /// The name of another variable.
    AtName,
    /// A variable's declared type.
    AtType {
        line: u64,
        own: Text,
    },
    /// A variable's representation.
    AtRepresentation {
        line: u64,
        own: Text,
    },
    /// A variable's comparability.
    AtComparability {
        line: u64,
        own: Text,
        represented: Represented,
    },
}

/// The front of a block that begins with `DECLARE`.
#[derive(Drop)]
pub(crate) enum DeclareBlock {
    /// The line `DECLARE` alone, by its number.
    Begun {
        line: u64,
    },
    /// The point's name was read, and these variables.
    Going {
        name: Text,
        vars: Vars,
        place: NextLine,
    },
}

impl DeclareBlock {
    ghost use Rattle.dk_decl.specs.DeclareBlock.{comparability, constant_text, declare_lines, declare_resumed, from_name, from_next_line, new_name, old_form_var, representation};
    ghost use Rattle.dk_decl.specs.Outcomes.{ReaderGoesOn};

    // The name of a variable, which no earlier one has.
    #[tactic(auto, unfolding(crate::specs::DeclareBlock::new_name))]
    fn new_name(alloc: Global, vars: &Vars, line: u64, bytes: &[u8]) -> Result<Text, BlockFault>
        ensures { AnswerAgrees result (new_name vars.now (record { number = line; bytes = bytes.now })) }
    {
        let name = in_memory(unescape(alloc, bytes))?;
        if vars.has(name.as_slice()) {
            return Err(bad_variable(line));
        }
        Ok(name)
    }

    // The constant's text, where one follows the rep-type.
    #[tactic(auto, unfolding(crate::specs::DeclareBlock::constant_text))]
    fn constant_text(alloc: Global, line: u64, bytes: &[u8]) -> Result<Option<Placed>, BlockFault>
        ensures { AnswerAgrees result (constant_text (record { number = line; bytes = bytes.now })) }
    {
        let rest = operand(bytes);
        if rest.is_empty() {
            return Ok(None);
        }
        if !begins(b"=", rest) {
            return Err(bad_variable(line));
        }
        let text = in_memory(Text::from_slice(alloc, operand(rest)))?;
        Ok(Some(Placed { line, text }))
    }

    // The rep-type, and the constant if one follows.
    #[tactic(auto, unfolding(crate::specs::DeclareBlock::representation))]
    fn representation(alloc: Global, line: u64, bytes: &[u8]) -> Result<Represented, BlockFault>
        ensures { AnswerAgrees result (representation (record { number = line; bytes = bytes.now })) }
    {
        let rep = or_bad_variable(rep_type_of(first_word(bytes)), line)?;
        let text = DeclareBlock::constant_text(alloc, line, bytes)?;
        let constant = constant_at(alloc, rep, &text)?;
        Ok(Represented {
            rep,
            constant,
            constant_line: text.is_some(),
        })
    }

    #[tactic(auto, unfolding(crate::specs::DeclareBlock::comparability))]
    fn comparability(
        alloc: Global,
        implicit: bool,
        line: u64,
        bytes: &[u8],
    ) -> Result<Compar, BlockFault>
        ensures { AnswerAgrees result (comparability implicit (record { number = line; bytes = bytes.now })) }
    {
        if !implicit {
            return Ok(NO_COMPAR);
        }
        or_bad_variable(in_memory(compar_of(alloc, bytes))?, line)
    }

    fn declared_var(alloc: Global, name: Text, represented: Represented, compar: Compar) -> VarDecl
        ensures { result ≡ old_form_var name represented compar }
    {
        let Represented {
            rep,
            constant,
            constant_line,
        } = represented;
        VarDecl {
            name,
            kind: rep_kind(rep),
            compar,
            constant,
            constant_line,
            parents: List::new(alloc),
        }
    }

    /// A block that begins with `DECLARE` at this line.
    #[tactic(auto, unfolding(crate::specs::DeclareBlock::declare_resumed))]
    pub(crate) fn begin(line: u64) -> DeclareBlock
        ensures { (implicit : Bool) (ls : List Line) (close : Option ℕ) → declare_lines implicit line ls close ≡ declare_resumed implicit result ls close }
    {
        DeclareBlock::Begun { line }
    }

    // The next line of the variable, or the name of the next one.
    #[tactic(auto, unfolding(crate::specs::DeclareBlock::declare_resumed))]
    fn next_line(
        alloc: Global,
        implicit: bool,
        name: Text,
        vars: Vars,
        place: NextLine,
        line: u64,
        bytes: &[u8],
    ) -> Result<DeclareBlock, BlockFault>
        ensures { ReaderGoesOn (declare_resumed implicit) result (λ ls. declare_resumed implicit (DeclareBlock.Going name vars place) (record { number = line; bytes = bytes.now } ∷ ls)) }
    {
        match place {
            NextLine::AtName => {
                let own = DeclareBlock::new_name(alloc, &vars, line, bytes)?;
                Ok(DeclareBlock::Going {
                    name,
                    vars,
                    place: NextLine::AtType { line, own },
                })
            }
            NextLine::AtType { line, own } => Ok(DeclareBlock::Going {
                name,
                vars,
                place: NextLine::AtRepresentation { line, own },
            }),
            NextLine::AtRepresentation { line: begun, own } => {
                let represented = DeclareBlock::representation(alloc, line, bytes)?;
                Ok(DeclareBlock::Going {
                    name,
                    vars,
                    place: NextLine::AtComparability {
                        line: begun,
                        own,
                        represented,
                    },
                })
            }
            NextLine::AtComparability {
                line: _,
                own,
                represented,
            } => {
                let compar = DeclareBlock::comparability(alloc, implicit, line, bytes)?;
                let var = DeclareBlock::declared_var(alloc, own, represented, compar);
                let vars = in_memory(vars.with(var))?;
                Ok(DeclareBlock::Going {
                    name,
                    vars,
                    place: NextLine::AtName,
                })
            }
        }
    }

    /// The block with one line more.
    #[tactic(auto, unfolding(crate::specs::DeclareBlock::declare_resumed, crate::specs::DeclareBlock::declare_lines))]
    pub(crate) fn line(
        self,
        alloc: Global,
        implicit: bool,
        line: u64,
        bytes: &[u8],
    ) -> Result<DeclareBlock, BlockFault>
        ensures { ReaderGoesOn (declare_resumed implicit) result (λ ls. declare_resumed implicit self (record { number = line; bytes = bytes.now } ∷ ls)) }
    {
        match self {
            DeclareBlock::Begun { line: _ } => {
                let name = in_memory(unescape(alloc, bytes))?;
                Ok(DeclareBlock::Going {
                    name,
                    vars: Vars::new(alloc),
                    place: NextLine::AtName,
                })
            }
            DeclareBlock::Going { name, vars, place } => {
                DeclareBlock::next_line(alloc, implicit, name, vars, place, line, bytes)
            }
        }
    }

    // The block's end behind the point's name: a variable that has begun has all its lines.
    #[tactic(auto, unfolding(crate::specs::DeclareBlock::declare_resumed))]
    fn whole(
        alloc: Global,
        name: Text,
        vars: Vars,
        place: NextLine,
    ) -> Result<PointDecl, BlockFault>
        ensures { (implicit : Bool) (close : ℕ) → AnswerAgrees result (declare_resumed implicit (DeclareBlock.Going name vars place) [] (Some close)) }
    {
        match place {
            NextLine::AtName => Ok(PointDecl {
                name,
                edges: List::new(alloc),
                vars: vars.into_list(),
            }),
            NextLine::AtType { line, own: _ } => Err(bad_variable(line)),
            NextLine::AtRepresentation { line, own: _ } => Err(bad_variable(line)),
            NextLine::AtComparability {
                line,
                own: _,
                represented: _,
            } => Err(bad_variable(line)),
        }
    }

    /// The block's end: it has a name, and a variable that has begun has all its lines.
    #[tactic(auto, unfolding(crate::specs::DeclareBlock::declare_resumed, crate::specs::DeclareBlock::declare_lines))]
    pub(crate) fn end(self, alloc: Global) -> Result<PointDecl, BlockFault>
        ensures { (implicit : Bool) (close : ℕ) → AnswerAgrees result (declare_resumed implicit self [] (Some close)) }
    {
        match self {
            DeclareBlock::Begun { line } => Err(bad_point(line)),
            DeclareBlock::Going { name, vars, place } => {
                DeclareBlock::whole(alloc, name, vars, place)
            }
        }
    }
}
