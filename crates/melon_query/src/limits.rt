//! How large a query may be: at most 16 of `and`, `or` and `on` above a condition, 256 conditions, 1000 values in one
//! list, and 8 joined tables.
ghost use Rattle.std.specs.Prelude.{◌≡◌, ◌++◌, [], nat_le, length, IfOk, OnOk};
ghost use Rattle.std.specs.List.{list_any, list_all};
ghost use Rattle.melon_query.specs.Limits.{has_room, all_have_room, values_in, nodes, all_nodes, node_above, is_named, with_name, tables_in, are_few, is_within_limits};
ghost use Rattle.melon_query.specs.Counting.{seen_node, seen_nodes, seen_names};
ghost use Rattle.std.specs.Option.{option_copied};

use crate::{CondForm, QueryForm, RightForm};
use std::alloc::{AllocError, Global};

// ---- depth

#[cycle(depth)]
#[tactic(auto, using(crate::proofs::Rooms::equations))]
fn has_room(cond: &CondForm, left: usize) -> bool
    ensures { result ≡ has_room cond.now left }
{
    match cond {
        CondForm::Compare(_) => true,
        CondForm::All(parts) => all_have_room(parts.as_slice(), left),
        CondForm::Any(parts) => all_have_room(parts.as_slice(), left),
        CondForm::On { table: _, conds } => all_have_room(conds.as_slice(), left),
    }
}

#[cycle(depth)]
fn all_have_room(parts: &[CondForm], left: usize) -> bool
    ensures { result ≡ all_have_room parts.now left }
{
    for part in parts {
        if left == 0 || !has_room(part, left - 1) {
            return false;
        }
    }
    true
}

fn are_shallow(conds: &[CondForm]) -> bool
    ensures { result ≡ list_all (λ c. has_room c 16) conds.now }
{
    conds.iter().all(|cond| has_room(cond, 16))
}

// ---- numbers

/// What is counted of one condition: the values of its list, and the table that it joins.
#[derive(Clone, Copy)]
pub(crate) struct Counted<'a> {
    values: usize,
    table: Option<&'a str>,
}

fn values_in(right: &RightForm) -> usize
    ensures { result ≡ values_in right.now }
{
    match right {
        RightForm::One(_) => 0,
        RightForm::Many(values) => values.len(),
        RightForm::Other(_) => 0,
    }
}

#[cycle(counting)]
#[tactic(auto, using(crate::proofs::Nodes::equations))]
fn count<'a>(cond: &'a CondForm, counted: &mut Vec<Counted<'a>>) -> Result<(), AllocError>
    ensures { OnOk result (seen_nodes counted.new.items ≡ seen_nodes counted.old.items ++ nodes cond.now) }
{
    match cond {
        CondForm::Compare(by) => {
            counted.push(Counted {
                values: values_in(&by.right),
                table: None,
            })?;
            Ok(())
        }
        CondForm::All(parts) => count_below(None, parts.as_slice(), counted),
        CondForm::Any(parts) => count_below(None, parts.as_slice(), counted),
        CondForm::On { table, conds } => {
            count_below(Some(table.as_str()), conds.as_slice(), counted)
        }
    }
}

#[cycle(counting)]
fn count_below<'a>(
    table: Option<&'a str>,
    parts: &'a [CondForm],
    counted: &mut Vec<Counted<'a>>,
) -> Result<(), AllocError>
    ensures { OnOk result (seen_nodes counted.new.items ≡ seen_nodes counted.old.items ++ node_above (option_copied table.entry) parts.now) }
{
    counted.push(Counted { values: 0, table })?;
    count_each(parts, counted)
}

#[cycle(counting)]
fn count_each<'a>(parts: &'a [CondForm], counted: &mut Vec<Counted<'a>>) -> Result<(), AllocError>
    ensures { OnOk result (seen_nodes counted.new.items ≡ seen_nodes counted.old.items ++ all_nodes parts.now) }
{
    for part in parts {
        count(part, counted)?;
    }
    Ok(())
}

fn is_named(name: &str, names: &[&str]) -> bool
    ensures { result ≡ is_named name.now (seen_names names.now) }
{
    for other in names {
        if *other == name {
            return true;
        }
    }
    false
}

/// The different tables that are joined.
fn tables_in<'a>(alloc: Global, counted: &[Counted<'a>]) -> Result<Vec<&'a str>, AllocError>
    ensures { IfOk result (λ names. seen_names names.items ≡ tables_in [] (seen_nodes counted.now)) }
{
    let mut names = Vec::new(alloc);
    for one in counted {
        add_name(one.table, &mut names)?;
    }
    Ok(names)
}

fn add_name<'a>(name: Option<&'a str>, names: &mut Vec<&'a str>) -> Result<(), AllocError>
    ensures { OnOk result (seen_names names.new.items ≡ with_name (seen_names names.old.items) (option_copied name.entry)) }
{
    match name {
        None => Ok(()),
        Some(name) => {
            if !is_named(name, names.as_slice()) {
                names.push(name)?;
            }
            Ok(())
        }
    }
}

fn have_few_values(counted: &[Counted<'_>]) -> bool
    ensures { result ≡ list_all (λ n. nat_le n.values 1000) (seen_nodes counted.now) }
{
    for one in counted {
        if one.values > 1000 {
            return false;
        }
    }
    true
}

#[tactic(auto, unfolding(crate::specs::Limits::are_few))]
fn are_few(alloc: Global, counted: &[Counted<'_>]) -> Result<bool, AllocError>
    ensures { IfOk result (λ few. few ≡ are_few (seen_nodes counted.now)) }
{
    if counted.len() > 256 || !have_few_values(counted) {
        return Ok(false);
    }
    let tables = tables_in(alloc, counted)?;
    Ok(tables.len() <= 8)
}

pub(crate) fn is_within_limits(alloc: Global, form: &QueryForm) -> Result<bool, AllocError>
    ensures { IfOk result (λ small. small ≡ is_within_limits form.now) }
{
    let conds = form.conds.as_slice();
    if !are_shallow(conds) {
        return Ok(false);
    }
    let mut counted = Vec::new(alloc);
    count_each(conds, &mut counted)?;
    are_few(alloc, counted.as_slice())
}
