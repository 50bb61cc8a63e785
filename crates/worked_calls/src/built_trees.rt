// What is compared of two builds: of one over elements and render nodes, and of a plain one.
use crate::build_lines::{Numbers, next_number};
use crate::compare::expect_at;
use build_form::FrameFault;
use element_tree::ElementTree;
use fx_expr::Value;
use fx_geom::Placed;
use fx_handles::Handle;
use plain_tree::{Node, ParentData, RenderNode, project};
use render_tree::RenderTree;
use std::alloc::{AllocError, Global};
use std::process::Abort;
use std::rc::Rc;
use std::test::Fail;
use widget_keys::Key;
use widget_model::{Widget, same};

// ---- outputs, which show what is built

// Outputs of components, each with its number.
pub(crate) type Outputs = Vec<(u64, Rc<Widget>)>;

pub(crate) fn outputs_of(alloc: Global, t: &ElementTree, nodes: &[&Node]) -> Result<Outputs, Fail> {
    let mut outputs = Vec::new(alloc);
    for node in nodes {
        if let Some(h) = t.find(node.number) {
            if let Some(output) = t.output(h) {
                outputs.push((node.number, Rc::clone(output)?))?;
            }
        }
    }
    Ok(outputs)
}

// Whether this very output is among them.
pub(crate) fn is_among(outputs: &[(u64, Rc<Widget>)], number: u64, output: &Rc<Widget>) -> bool {
    for (at, old) in outputs {
        if *at == number && Rc::ptr_eq(old, output) {
            return true;
        }
    }
    false
}

// How many outputs were made for a component: one that it stores, if that isn't an old one, and one that its child has, if that is another.
fn made_for(t: &ElementTree, h: Handle, number: u64, old: &[(u64, Rc<Widget>)]) -> u64 {
    let Some(output) = t.output(h) else {
        return 0;
    };
    let mut made = if is_among(old, number, output) { 0 } else { 1 };
    for child in t.children(h) {
        if let Some(widget) = t.widget(*child) {
            if !Rc::ptr_eq(widget, output) {
                made = 2;
            }
        }
    }
    made
}

// ---- elements

// What was seen of the elements so far, in preorder: how many there are, and how many outputs were made for them; and the numbers that
// the others have.
#[derive(Drop)]
pub(crate) struct Seen<'a> {
    pub(crate) numbers: Numbers<'a>,
    pub(crate) count: usize,
    pub(crate) built: u64,
}

// What an element and a plain node say: its number, its place, whether it is marked, and how many children it has.
type Said = (Option<u64>, Option<u64>, bool, usize);

fn said_by(t: &ElementTree, h: Handle) -> Said {
    (t.number(h), t.place(h), t.is_dirty(h), t.children(h).len())
}

fn says_the_same(t: &ElementTree, h: Handle, node: &Node) -> bool {
    match t.widget(h) {
        Some(widget) => same(widget, &node.widget) && t.fields(h) == node.fields.get(),
        None => false,
    }
}

// The elements from one on are these nodes.
pub(crate) fn check_elements(
    rt: &impl Abort,
    t: &ElementTree,
    h: Handle,
    node: &Node,
    old: &[(u64, Rc<Widget>)],
    seen: &mut Seen<'_>,
    row: usize,
) {
    expect_at(rt, node.number, next_number(&mut seen.numbers), &row);
    let said = (
        Some(node.number),
        Some(node.index),
        false,
        node.children.len(),
    );
    expect_at(rt, said_by(t, h), said, &row);
    expect_at(rt, says_the_same(t, h, node), true, &row);
    seen.count = seen.count.wrapping_add(1);
    seen.built = seen.built.wrapping_add(made_for(t, h, node.number, old));
    for (child, want) in t.children(h).iter().zip(node.children.iter()) {
        check_elements(rt, t, *child, want, old, seen, row);
    }
}

// ---- render nodes

// What a render node is told by its parent.
type Told = Option<(u64, bool, Option<Placed>, u64)>;

fn told_of(told: Option<ParentData>) -> Told {
    let told = told?;
    Some((told.flex, told.tight, told.placed, told.index))
}

fn is_drawn(r: &RenderTree, h: Handle, node: &RenderNode) -> bool {
    match r.widget(h) {
        Some(widget) => same(widget, &node.widget),
        None => false,
    }
}

// The render nodes from one on are these, as many as are answered.
fn check_render(
    rt: &impl Abort,
    r: &RenderTree,
    h: Handle,
    node: &RenderNode,
    row: usize,
) -> usize {
    let drawn = (r.number(h), r.scroll(h).unwrap_or(0), r.children(h).len());
    let want = (Some(node.number), node.scroll, node.children.len());
    expect_at(rt, drawn, want, &row);
    let told = told_of(r.parent_data(h));
    expect_at(rt, told, told_of(Some(node.parent_data)), &row);
    expect_at(rt, is_drawn(r, h, node), true, &row);
    let mut count = 1usize;
    for (child, want) in r.children(h).iter().zip(node.children.iter()) {
        count = count.wrapping_add(check_render(rt, r, *child, want, row));
    }
    count
}

// The render nodes are the projection of a build's tree.
pub(crate) fn check_renders(
    rt: &impl Abort,
    alloc: Global,
    r: &RenderTree,
    plain: &Node,
    row: usize,
) -> Result<(), Fail> {
    let Some(root) = r.root() else {
        return Err("there is no render node".into());
    };
    let tops = project(alloc, plain)?;
    expect_at(rt, tops.len(), 1, &row);
    for top in tops.as_slice() {
        let count = check_render(rt, r, root, top, row);
        expect_at(rt, r.tree().len(), count, &row);
    }
    Ok(())
}

// ---- faults

// A fault, as a frame tells it.
pub(crate) fn told_fault(alloc: Global, fault: &FrameFault) -> Result<String, AllocError> {
    match fault {
        FrameFault::RepeatedSiblingKey(Key::Local(Value::Int(key))) => {
            format!(in alloc; "repeated-sibling-key {key}")
        }
        FrameFault::RepeatedGlobalKey(Value::Text(key)) => {
            format!(in alloc; "repeated-global-key {}", key.get())
        }
        FrameFault::TreeTooLarge => String::from_str(alloc, "tree-too-large"),
        FrameFault::OutputTooLarge => String::from_str(alloc, "output-too-large"),
        FrameFault::OutOfMemory => Err(AllocError),
        _ => String::from_str(alloc, "another key"),
    }
}
