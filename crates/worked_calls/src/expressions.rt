// Whether two expressions are the same, which no run asks. What they give is in the case files.
use crate::compare::expect;
use fx_expr::{
    Expr, ExprList, Handler, SetList, Value, ValueList, same_expr, same_handler, same_sets,
    same_values,
};
use std::alloc::{AllocError, Global};
use std::process::Abort;
use std::test::Fail;

// Sets field 0 to the movement to the right, then field 1 to field 0.
fn sets(alloc: Global) -> Result<SetList, AllocError> {
    let mut items = Vec::new(alloc);
    items.push((0, Expr::EventDx))?;
    items.push((1, Expr::Field(0)))?;
    Ok(SetList::of(items))
}

fn two_fields(alloc: Global, a: i64, b: i64) -> Result<Vec<Value>, AllocError> {
    let mut fields = Vec::new(alloc);
    fields.push(Value::Int(a))?;
    fields.push(Value::Int(b))?;
    Ok(fields)
}

// A list expression of one item.
fn one_item(alloc: Global, item: Expr) -> Result<Expr, AllocError> {
    let mut items = Vec::new(alloc);
    items.push(item)?;
    Ok(Expr::Ints(ExprList::of(items)))
}

// Places in a list of two expressions that are the same, or aren't.
fn check(rt: &impl Abort, list: &[Expr], rows: &[(usize, usize, bool)]) {
    for (a, b, is_same) in rows {
        assert!(rt; *a < list.len() && *b < list.len());
        expect(rt, same_expr(&list[*a], &list[*b]), *is_same);
    }
}

fn atoms(alloc: Global) -> Result<Vec<Expr>, AllocError> {
    let atoms = vec![in alloc;
        Expr::EventDx,
        Expr::EventDy,
        Expr::Field(0),
        Expr::Prop(0),
        Expr::Field(1),
    ]?;
    Ok(atoms)
}

#[test]
fn tells_expressions_apart(rt: HostRuntime) -> Result<(), Fail> {
    let list = atoms(rt.alloc())?;
    let rows = [(0, 0, true), (0, 1, false), (2, 3, false), (2, 4, false)];
    check(&rt, list.as_slice(), &rows);
    Ok(())
}

// Lists of one item, and one of none.
fn lists(alloc: Global) -> Result<Vec<Expr>, AllocError> {
    let mut lists = Vec::new(alloc);
    for item in [2, 2, 3] {
        lists.push(one_item(alloc, Expr::Literal(Value::Int(item)))?)?;
    }
    lists.push(Expr::Ints(ExprList::of(Vec::new(alloc))))?;
    Ok(lists)
}

#[test]
fn tells_lists_apart(rt: HostRuntime) -> Result<(), Fail> {
    let list = lists(rt.alloc())?;
    check(
        &rt,
        list.as_slice(),
        &[(0, 1, true), (0, 2, false), (0, 3, false)],
    );
    Ok(())
}

fn handler(alloc: Global, owner: u64) -> Result<Handler, AllocError> {
    let sets = sets(alloc)?;
    Ok(Handler { owner, sets })
}

// Compares a handler with one of another owner that has the same sets.
fn check_owner(rt: &impl Abort, alloc: Global, first: &Handler) -> Result<(), Fail> {
    let second = handler(alloc, 2)?;
    expect(rt, same_handler(first, &second), false);
    expect(rt, same_sets(&first.sets, &second.sets), true);
    Ok(())
}

fn check_no_sets(rt: &impl Abort, alloc: Global, first: &Handler) {
    let none = SetList::of(Vec::new(alloc));
    expect(rt, same_sets(&first.sets, &none), false);
}

#[test]
fn tells_handlers_apart(rt: HostRuntime) -> Result<(), Fail> {
    let first = handler(rt.alloc(), 1)?;
    expect(&rt, same_handler(&first, &first), true);
    check_no_sets(&rt, rt.alloc(), &first);
    check_owner(&rt, rt.alloc(), &first)
}

#[test]
fn tells_values_apart(rt: HostRuntime) -> Result<(), Fail> {
    let ones = ValueList::of(two_fields(rt.alloc(), 1, 1)?);
    let others = ValueList::of(two_fields(rt.alloc(), 1, 2)?);
    expect(&rt, same_values(&ones, &ones), true);
    expect(&rt, same_values(&ones, &others), false);
    Ok(())
}
