// Declarations, as they are read.
ghost use Rattle.std.specs.Prelude.{◌≡◌, ◌++◌, ◌-◌, ◌<◌, ◌≤◌, ◌^◌, ◌∷◌, ℕ, true, false, All, Bool, IfOk, List, Option, codes, length, nat_eq, refl, unwrap_or};
ghost use Rattle.std.specs.List.{starts_with};
ghost use Rattle.dk_base.specs.declared.kinds.Kind.{Kind as Kinds};
ghost use Rattle.dk_base.specs.Values.Spelling.{spelling};
ghost use Rattle.dk_base.specs.declared.values.Value.{Value as Values};
ghost use Rattle.dk_state.specs.Declarations.{constant_decl_text, edge_line, mapped_line, point_lines, var_lines};
ghost use Rattle.dk_write.specs.Declarations.{rep_text};
ghost use Rattle.dk_state.specs.Lines.{behind_blank};
ghost use Rattle.dk_state.specs.Fitting.{FitsConstant, FitsEdge, FitsMapped, FitsPoint, FitsVar, IsBehindVars};
ghost use Rattle.dk_state.specs.Within.{IsEdgeWithin, IsMappedWithin, IsPointWithin, IsVarWithin};

use crate::entries::{Entry, read_all};
use crate::front::Front;
use dk_base::{Compar, Kind, NoMemory, Value, VarInfo, same_bytes};
use dk_decl::{EdgeDecl, ParentVar, PointDecl, VarDecl};
use std::alloc::Global;

impl Entry for EdgeDecl {
    ghost text_of = { edge_line };

    ghost fits = { λ _ edge. FitsEdge edge };

    ghost within = { λ edge. IsEdgeWithin edge };

    ghost begins = { λ front. starts_with nat_eq front (codes "edge ") };

    ghost follows = { λ _. Unit {0} };

    fn is_next(front: &Front<'_>) -> bool {
        front.is_at(b"edge ")
    }

    fn read(alloc: Global, _vars: &[VarInfo], front: &mut Front<'_>) -> Result<EdgeDecl, NoMemory> {
        front.pass(b"edge");
        let id = front.place();
        let parent = front.name(alloc)?;
        front.pass(b"\n");
        Ok(EdgeDecl { parent, id })
    }

    ghost first = { λ _ _ _ _. refl };

    ghost follow = { λ _ _ _ _. tt };
}

impl Entry for ParentVar {
    ghost text_of = { mapped_line };

    ghost fits = { λ _ mapped. FitsMapped mapped };

    ghost within = { λ mapped. IsMappedWithin mapped };

    ghost begins = { λ front. starts_with nat_eq front (codes "mapped ") };

    ghost follows = { λ _. Unit {0} };

    fn is_next(front: &Front<'_>) -> bool {
        front.is_at(b"mapped ")
    }

    fn read(
        alloc: Global,
        _vars: &[VarInfo],
        front: &mut Front<'_>,
    ) -> Result<ParentVar, NoMemory> {
        front.pass(b"mapped");
        let edge = front.natural();
        let name = front.name(alloc)?;
        front.pass(b"\n");
        Ok(ParentVar { edge, name })
    }

    ghost first = { λ _ _ _ _. refl };

    ghost follow = { λ _ _ _ _. tt };
}

// The kind of this rep-type, or none, as for an opaque variable.
fn kind_of(rep: &[u8]) -> Option<Kind>
    ensures { (kind : Option Kinds) → rep.now ≡ rep_text kind → result ≡ kind }
{
    if same_bytes(rep, b"boolean") {
        Some(Kind::Bool)
    } else if same_bytes(rep, b"int") {
        Some(Kind::Int)
    } else if same_bytes(rep, b"hashcode") {
        Some(Kind::Hash)
    } else if same_bytes(rep, b"java.lang.String") {
        Some(Kind::Str)
    } else if same_bytes(rep, b"boolean[]") {
        Some(Kind::BoolSeq)
    } else if same_bytes(rep, b"int[]") {
        Some(Kind::IntSeq)
    } else if same_bytes(rep, b"hashcode[]") {
        Some(Kind::HashSeq)
    } else if same_bytes(rep, b"java.lang.String[]") {
        Some(Kind::StrSeq)
    } else {
        None
    }
}

// The value on a `constant` line, which for an opaque variable is none.
fn constant_value(
    alloc: Global,
    kind: Option<Kind>,
    front: &mut Front<'_>,
) -> Result<Option<Value>, NoMemory>
    ensures read { (value : Option Values) (rest : List ℕ) → FitsConstant true kind value → front.old ≡ behind_blank (spelling (unwrap_or value Value.Missing)) ++ 10 ∷ rest → IfOk result (λ own. (own ≡ value) × (front.new ≡ 10 ∷ rest)) }
    ensures within { IfOk result (λ own. FitsConstant true kind own) }
    ensures shorter { length front.new ≤ length front.old }
{
    match kind {
        None => {
            front.field();
            Ok(None)
        }
        Some(kind) => Ok(Some(front.value(alloc, kind)?)),
    }
}

// Whether a `constant` line comes next, and its value.
fn constant(
    alloc: Global,
    kind: Option<Kind>,
    front: &mut Front<'_>,
) -> Result<(bool, Option<Value>), NoMemory>
    ensures read { (line : Bool) (value : Option Values) (rest : List ℕ) → FitsConstant line kind value → starts_with nat_eq rest (codes "constant ") ≡ false → front.old ≡ constant_decl_text line value ++ rest → IfOk result (λ own. (own ≡ (line, value)) × (front.new ≡ rest)) }
    ensures within { IfOk result (λ own. FitsConstant own.0 kind own.1) }
    ensures shorter { length front.new ≤ length front.old }
{
    if !front.is_at(b"constant ") {
        return Ok((false, None));
    }
    front.pass(b"constant");
    let value = constant_value(alloc, kind, front)?;
    front.pass(b"\n");
    Ok((true, value))
}

impl Entry for VarDecl {
    ghost text_of = { var_lines };

    ghost fits = { λ _ var. FitsVar var };

    ghost within = { λ var. IsVarWithin var };

    ghost begins = { λ front. starts_with nat_eq front (codes "var ") };

    ghost follows = { IsBehindVars };

    fn is_next(front: &Front<'_>) -> bool {
        front.is_at(b"var ")
    }

    fn read(alloc: Global, vars: &[VarInfo], front: &mut Front<'_>) -> Result<VarDecl, NoMemory> {
        front.pass(b"var");
        let kind = kind_of(front.field());
        let elem = front.integer();
        let index = front.integer();
        let name = front.name(alloc)?;
        front.pass(b"\n");
        let (constant_line, constant) = constant(alloc, kind, front)?;
        let parents = read_all(alloc, vars, front)?;
        Ok(VarDecl {
            name,
            kind,
            compar: Compar { elem, index },
            constant,
            constant_line,
            parents,
        })
    }

    ghost first = { λ _ _ _ _. refl };

    ghost follow = { λ _ _ _ _. (refl, refl) };
}

impl Entry for PointDecl {
    ghost text_of = { point_lines };

    ghost fits = { λ _ point. FitsPoint point };

    ghost within = { λ point. IsPointWithin point };

    ghost begins = { λ front. starts_with nat_eq front (codes "point ") };

    ghost follows = { λ _. Unit {0} };

    fn is_next(front: &Front<'_>) -> bool {
        front.is_at(b"point ")
    }

    fn read(alloc: Global, vars: &[VarInfo], front: &mut Front<'_>) -> Result<PointDecl, NoMemory> {
        front.pass(b"point");
        let name = front.name(alloc)?;
        front.pass(b"\n");
        let edges = read_all(alloc, vars, front)?;
        let vars = read_all(alloc, vars, front)?;
        front.pass(b"end\n");
        Ok(PointDecl { name, edges, vars })
    }

    ghost first = { λ _ _ _ _. refl };

    ghost follow = { λ _ _ _ _. tt };
}
