//! The fields that a scan asks for. After the Rust's `scan::scan_builder` and its `referenced_field_paths`.
ghost use Rattle.std.specs.Prelude.{◌≡◌, ◌++◌, ◌∷◌, [], true, IfOk, IfSome, if◌then◌else◌, map, option_map};
ghost use Rattle.std.specs.List.{flat_map};
ghost use Rattle.scan_values.specs.DataType.{Fields};
ghost use Rattle.scan_expr.specs.Infer.{fields_or_none, infer, struct_fields};
ghost use Rattle.scan_expr.specs.Needs.{other_names, uses};
ghost use Rattle.scan_core.specs.NameSets.{names_in};
ghost use Rattle.scan_core.specs.FieldMasks.{below, onto, end_of, lent_names, ends_of, path_mask, demand_paths, used_paths, scan_paths, firsts};
ghost use Rattle.scan_readers.specs.FieldNames.{all_lead, name_fields};

use crate::name_set::NameSet;
use scan_expr::{BoundExpression, BoundNode, Unary};
use scan_values::{DType, FieldMask, FieldName, FieldPath, Names, NoMemory};
use std::alloc::Global;
use std::collections::BTreeSet;

/// The paths of the fields that the projection and the filter of a scan use, each once, in the order in which they are
/// first used. Of a select or an exclude on a field these are the fields that it chooses. Each is a field of the dtype
/// that both are bound over.
pub fn referenced_field_masks(
    alloc: Global,
    projection: &BoundExpression,
    filter: Option<&BoundExpression>,
) -> Result<Vec<FieldMask>, NoMemory>
    ensures paths { IfOk result (λ v. v.items ≡
        map path_mask (firsts (scan_paths projection.now (option_map (λ f. f.now) filter.entry)))) }
    ensures named { IfSome filter.entry (λ f. f.now.scope ≡ projection.now.scope) →
        IfOk result (λ v. name_fields projection.now.scope v.items ≡ true) }
{
    let mut paths = Vec::new(alloc);
    add_referenced(alloc, projection, &mut paths)?;
    if let Some(filter) = filter {
        add_referenced(alloc, filter, &mut paths)?;
    }
    distinct_masks(alloc, &paths)
}

/// Adds the paths of what an expression uses. Each names a field of its scope.
fn add_referenced(
    alloc: Global,
    expr: &BoundExpression,
    paths: &mut Vec<Names>,
) -> Result<(), NoMemory>
    ensures paths { IfOk result (λ _. paths.new.items ≡ paths.old.items ++ used_paths expr.now) }
    ensures named { all_lead expr.now.scope (used_paths expr.now) ≡ true }
{
    let _typed = expr.dtype();
    add_uses(alloc, expr, Vec::new(alloc), None, paths)
}

/// The masks of paths, each at its first place.
fn distinct_masks(alloc: Global, paths: &[Names]) -> Result<Vec<FieldMask>, NoMemory>
    ensures { IfOk result (λ v. v.items ≡ map path_mask (firsts paths.now)) }
{
    let mut seen: BTreeSet<Vec<&str>> = BTreeSet::new(alloc);
    let mut masks = Vec::new(alloc);
    for path in paths {
        let is_new = seen.insert(texts_of(alloc, path)?)?;
        push_new(alloc, is_new, path, &mut masks)?;
    }
    Ok(masks)
}

/// The texts of a path's names.
fn texts_of<'a>(alloc: Global, path: &'a Names) -> Result<Vec<&'a str>, NoMemory>
    ensures { IfOk result (λ v. names_in v ≡ path.entry.now) }
{
    let names = path.as_slice();
    let mut texts = Vec::with_capacity(alloc, names.len())?;
    for name in names {
        texts.push(name.as_str())?;
    }
    Ok(texts)
}

/// Adds the mask of a path that is new.
fn push_new(
    alloc: Global,
    is_new: bool,
    path: &Names,
    masks: &mut Vec<FieldMask>,
) -> Result<(), NoMemory>
    ensures { IfOk result (λ _. masks.new.items ≡ masks.old.items ++
        (if is_new then path_mask path.now ∷ [] else [])) }
{
    if is_new {
        masks.push(mask_of(alloc, path)?)?;
        return Ok(());
    }
    Ok(())
}

/// The mask of a path.
fn mask_of(alloc: Global, path: &Names) -> Result<FieldMask, NoMemory>
    ensures { IfOk result (λ m. m ≡ path_mask path.now) }
{
    if path.as_slice().is_empty() {
        return Ok(FieldMask::All);
    }
    let names = path.try_clone(alloc)?.into_vec();
    Ok(FieldMask::Prefix(FieldPath::from_names(names)))
}

/// Adds the paths of what an expression uses, where of its value a field is read that has these names, the last one
/// outermost, and of this field the fields of these ends, or all of it.
fn add_uses<'a>(
    alloc: Global,
    expr: &'a BoundExpression,
    names: Vec<&'a FieldName>,
    ends: Option<&[FieldName]>,
    paths: &mut Vec<Names>,
) -> Result<(), NoMemory>
    ensures { IfOk result (λ _. paths.new.items ≡ paths.old.items ++ flat_map demand_paths
        (uses expr.now.scope expr.now.expr
        (below (lent_names names.entry.items) (ends_of (option_map (λ s. s.now) ends.entry))))) }
{
    match expr.node() {
        BoundNode::Root => add_paths(alloc, &names, ends, paths),
        BoundNode::Unary(op, part) => match op {
            Unary::GetItem(name) => {
                let mut names = names;
                names.push(name)?;
                add_uses(alloc, part, names, ends, paths)
            }
            Unary::Select(chosen) => {
                let ends = chosen.as_slice();
                add_uses(alloc, part, Vec::new(alloc), Some(ends), paths)
            }
            Unary::Exclude(left) => {
                let ends = others(alloc, part.dtype(), left)?;
                add_uses(alloc, part, Vec::new(alloc), Some(&ends), paths)
            }
            _ => add_uses(alloc, part, Vec::new(alloc), None, paths),
        },
        BoundNode::Binary(_, x, y) => {
            add_uses(alloc, x, Vec::new(alloc), None, paths)?;
            add_uses(alloc, y, Vec::new(alloc), None, paths)
        }
        BoundNode::Pack(_, parts, _) => {
            for part in parts {
                add_uses(alloc, part, Vec::new(alloc), None, paths)?;
            }
            Ok(())
        }
        _ => Ok(()),
    }
}

/// Adds the paths of a field that has these names, the last one outermost, or of some fields of it.
fn add_paths(
    alloc: Global,
    names: &[&FieldName],
    ends: Option<&[FieldName]>,
    paths: &mut Vec<Names>,
) -> Result<(), NoMemory>
    ensures { IfOk result (λ _. paths.new.items ≡ paths.old.items ++
        demand_paths (below (lent_names names.now) (ends_of (option_map (λ s. s.now) ends.entry)))) }
{
    match ends {
        Some(chosen) => {
            for end in chosen {
                paths.push(path_to(alloc, names, Some(end))?)?;
            }
            Ok(())
        }
        None => {
            paths.push(path_to(alloc, names, None)?)?;
            Ok(())
        }
    }
}

/// The path of a field that has these names, the last one outermost, or of a field of it.
fn path_to(alloc: Global, names: &[&FieldName], end: Option<&FieldName>) -> Result<Names, NoMemory>
    ensures { IfOk result (λ p. p ≡ onto (lent_names names.now) (end_of (option_map (λ n. n.now) end.entry))) }
{
    let mut made = Vec::with_capacity(alloc, names.len() + 1)?;
    let mut left = names.len();
    while left > 0 {
        left -= 1;
        made.push(names[left].try_clone(alloc)?)?;
    }
    if let Some(end) = end {
        made.push(end.try_clone(alloc)?)?;
    }
    Ok(Names::new(made))
}

/// The names of the fields of a struct that are not among these.
fn others(alloc: Global, dtype: &DType, left: &Names) -> Result<Vec<FieldName>, NoMemory>
    ensures { IfOk result (λ v. v.items ≡ other_names left.now (struct_fields dtype.now)) }
{
    let mut made = Vec::new(alloc);
    let Some(fields) = dtype.as_struct_fields_opt() else {
        return Ok(made);
    };
    let left = NameSet::of(alloc, left)?;
    for name in fields.names() {
        if !left.has(name) {
            made.push(name.try_clone(alloc)?)?;
        }
    }
    Ok(made)
}
