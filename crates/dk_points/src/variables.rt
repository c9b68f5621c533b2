// The base variables of points.
ghost use Rattle.std.specs.Prelude.{◌≡◌, ◌++◌, ℕ, List, IfOk, filter_map};
ghost use Rattle.std.specs.Str.{bytes_eq};
ghost use Rattle.dk_points.specs.Vars.{declared_var, declared_vars, orig_name, orig_vars, same_kind};
ghost use Rattle.dk_points.specs.VarsByName.{orig_by, orig_like, typed_in};
ghost use Rattle.indexmap.specs.IndexMap.{get_by};

use dk_base::{Compar, Form, Kind, List, NoMemory, Text, VarInfo};
use dk_decl::VarDecl;
use indexmap::IndexMap;
use std::alloc::Global;

pub(crate) fn same_kind(a: Kind, b: Kind) -> bool
    ensures { result ≡ same_kind a b }
{
    a == b
}

fn declared_var(alloc: Global, var: &VarDecl) -> Result<Option<VarInfo>, NoMemory>
    ensures { IfOk result (λ found. found ≡ declared_var var.now) }
{
    match var.kind {
        None => Ok(None),
        Some(kind) => Ok(Some(VarInfo {
            name: Text::from_slice(alloc, var.name.as_slice())?,
            kind,
            form: Form::Declared,
            compar: var.compar,
        })),
    }
}

/// The declared variables that are not opaque, in order.
pub(crate) fn declared_vars(alloc: Global, vars: &[VarDecl]) -> Result<List<VarInfo>, NoMemory>
    ensures { IfOk result (λ found. found ≡ declared_vars vars.now) }
{
    let mut found = List::new(alloc);
    for var in vars {
        if let Some(info) = declared_var(alloc, var)? {
            found.push(info)?;
        }
    }
    Ok(found)
}

/// Kinds and comparabilities of variables by name.
type Typed = IndexMap<Vec<u8>, (Kind, Compar)>;

// The variables by name; of two with one name the first counts.
fn by_name(alloc: Global, vars: &[VarInfo]) -> Result<Typed, NoMemory>
    ensures { IfOk result (λ found. (name : List ℕ) → get_by (λ k. bytes_eq name k.items) found ≡ typed_in vars.now name) }
{
    let mut found: Typed = IndexMap::new(alloc);
    for var in vars {
        if !found.contains_key(var.name.as_slice()) {
            let key = Vec::from_slice(alloc, var.name.as_slice())?;
            found.insert(key, (var.kind, var.compar))?;
        }
    }
    Ok(found)
}

/// The name orig(N) for the name N.
pub fn orig_name(alloc: Global, name: &[u8]) -> Result<Text, NoMemory>
    ensures { IfOk result (λ text. text ≡ orig_name name.now) }
{
    let mut text = Text::from_slice(alloc, b"orig(")?;
    text.append(name)?;
    text.append(b")")?;
    Ok(text)
}

// The value that an entry's variable of this name and kind had at the entry, if the exit's variable of the name has the kind.
fn orig_like(
    alloc: Global,
    name: &[u8],
    kind: Kind,
    like: &(Kind, Compar),
) -> Result<Option<VarInfo>, NoMemory>
    ensures { IfOk result (λ found. found ≡ orig_like name.now kind like.now) }
{
    if !same_kind(kind, like.0) {
        return Ok(None);
    }
    Ok(Some(VarInfo {
        name: orig_name(alloc, name)?,
        kind,
        form: Form::Orig,
        compar: like.1,
    }))
}

fn orig_var(alloc: Global, typed: &Typed, var: &VarDecl) -> Result<Option<VarInfo>, NoMemory>
    ensures { IfOk result (λ found. found ≡ orig_by (λ name. get_by (λ k. bytes_eq name k.items) typed.now) var.now) }
{
    match var.kind {
        None => Ok(None),
        Some(kind) => match typed.get(var.name.as_slice()) {
            None => Ok(None),
            Some(like) => orig_like(alloc, var.name.as_slice(), kind, like),
        },
    }
}

fn push_orig_vars(
    alloc: Global,
    vars: List<VarInfo>,
    entry: &[VarDecl],
    typed: &Typed,
) -> Result<List<VarInfo>, NoMemory>
    ensures { IfOk result (λ all. all ≡ vars ++ filter_map (orig_by (λ name. get_by (λ k. bytes_eq name k.items) typed.now)) entry.now) }
{
    let mut all = vars;
    for var in entry {
        if let Some(info) = orig_var(alloc, typed, var)? {
            all.push(info)?;
        }
    }
    Ok(all)
}

/// The exit's variables and behind them its orig ones, in the order of its entry's declared variables.
pub(crate) fn with_orig_vars(
    alloc: Global,
    vars: List<VarInfo>,
    entry: &[VarDecl],
) -> Result<List<VarInfo>, NoMemory>
    ensures { IfOk result (λ all. all ≡ vars ++ orig_vars (declared_vars entry.now) vars) }
{
    let typed = by_name(alloc, vars.as_slice())?;
    push_orig_vars(alloc, vars, entry, &typed)
}
