// Fields of elements.
ghost use Rattle.std.specs.Prelude.{◌≡◌, ◌↔◌, ◌<◌, length, map, Some, None, Ok, Err, IsTrue, true, false, IfOk, IfErr, IfSome, IfNone, OnErr};
ghost use Rattle.std.specs.List.{find, position_or_len};
ghost use Rattle.fx_expr.specs.declared.values.Value.{Value};
ghost use Rattle.fx_expr.specs.Value.{type_of};
ghost use Rattle.widget_model.specs.View.{look_in};
ghost use Rattle.element_tree.specs.Element.{Element as ElementOf, element_at, number_at};
ghost use Rattle.element_tree.specs.Fields.{declared, AreDeclared, fitted, is_named, with_value, with_field, with_fields};
ghost use Rattle.element_tree.specs.Edits.{Changes, Writes};
ghost use Rattle.element_tree.specs.declared.fields.SetFault.TheVariants as fault;

use crate::ElementTree;
use crate::element::Element;
use fx_expr::{IntList, TextList, Txt, Ty, Value};
use fx_handles::Handle;
use node_tree::Tree;
use std::alloc::Global;
use thiserror::Error;
use widget_model::Kind;

/// Why a field was not set.
#[derive(Debug, Drop, Error)]
pub enum SetFault {
    /// No element has the number.
    #[error("no such node")]
    NoNode,
    /// The element isn't a component with fields.
    #[error("not a component with fields")]
    NotStateful,
    /// The component has no field of the name.
    #[error("no such field")]
    NoField,
    /// The value isn't of the field's type.
    #[error("a value of another type")]
    WrongType,
}

// The fields that a kind declares.
fn declared(kind: &Kind) -> &[(Txt, Ty)]
    ensures { result.now ≡ declared (look_in kind.now) }
{
    match kind {
        Kind::Use { decl, .. } => decl.fields.get(),
        _ => &[],
    }
}

// The place of the first field of a name.
fn place_of(fields: &[(Txt, Ty)], name: &str) -> Option<usize>
    ensures missing { IfNone result (find (is_named name.now) fields.now ≡ None) }
    ensures within { IfSome result (λ i. i < length fields.now) }
    ensures first { IfSome result (λ i. position_or_len (is_named name.now) fields.now ≡ i) }
{
    for i in 0..fields.len() {
        if name == fields[i].0.get() {
            return Some(i);
        }
    }
    None
}

// The value as one of the type, if it is one.
fn fit(alloc: Global, ty: Ty, value: Value) -> Option<Value>
    ensures { result ≡ fitted ty value }
{
    match (ty, value) {
        (Ty::Int, Value::Int(n)) => Some(Value::Int(n)),
        (Ty::Bool, Value::Bool(b)) => Some(Value::Bool(b)),
        (Ty::Text, Value::Text(t)) => Some(Value::Text(t)),
        (Ty::Ints, Value::Ints(ns)) => Some(Value::Ints(ns)),
        (Ty::Texts, Value::Texts(ts)) => Some(Value::Texts(ts)),
        (Ty::Ints, Value::Texts(ts)) => {
            if ts.get().is_empty() {
                Some(Value::Ints(IntList::of(Vec::new(alloc))))
            } else {
                None
            }
        }
        (Ty::Texts, Value::Ints(ns)) => {
            if ns.get().is_empty() {
                Some(Value::Texts(TextList::of(Vec::new(alloc))))
            } else {
                None
            }
        }
        _ => None,
    }
}

impl Element {
    // The place of a field, and the value that it may hold once it was given this one.
    fn field_set(&self, alloc: Global, name: &str, value: Value) -> Result<(usize, Value), SetFault>
        requires { AreDeclared self.now.widget self.now.fields }
        ensures ok { IfOk result (λ p. (with_field self.now name.now value ≡ Ok (with_value p.0 p.1 self.now))
            × (p.0 < length self.now.fields) × AreDeclared self.now.widget (with_value p.0 p.1 self.now).fields) }
        ensures err { IfErr result (λ e. with_field self.now name.now value ≡ Err e) }
    {
        let fields = declared(&self.widget.kind);
        if fields.is_empty() {
            return Err(SetFault::NotStateful);
        }
        let Some(place) = place_of(fields, name) else {
            return Err(SetFault::NoField);
        };
        let Some(value) = fit(alloc, fields[place].1, value) else {
            return Err(SetFault::WrongType);
        };
        Ok((place, value))
    }

    // Whether values are as many as the element's fields, and of the same types.
    fn fits(&self, values: &[Value]) -> bool
        ensures { IsTrue result ↔ (map type_of values.now ≡ map type_of self.now.fields) }
    {
        if values.len() != self.fields.len() {
            return false;
        }
        for i in 0..values.len() {
            if values[i].ty() != self.fields[i].ty() {
                return false;
            }
        }
        true
    }
}

fn write_value(tree: &mut Tree<Element>, h: Handle, place: usize, value: Value)
    requires { (e : ElementOf) → element_at tree.old h ≡ Some e → place < length e.fields }
    ensures { Changes tree.old tree.new h (with_value place value) }
{
    if let Some(element) = tree.value_mut(h) {
        element.fields[place] = value;
        element.dirty = true;
    }
}

fn write_values(tree: &mut Tree<Element>, h: Handle, fields: Vec<Value>)
    ensures { Changes tree.old tree.new h (with_fields fields.items) }
{
    if let Some(element) = tree.value_mut(h) {
        element.fields = fields;
        element.dirty = true;
    }
}

impl ElementTree {
    /// Gives a value to the first field of a name that the component with a number declares; the component is to be built anew
    /// then. An empty list of one of the two list types is also one of the other.
    ///
    /// The first of these that holds refuses it, and nothing changes: `NoNode` where no element has the number, `NotStateful`
    /// where it isn't a component with fields, `NoField` where none of them has the name, `WrongType` where the value isn't of
    /// the field's type. It takes log n steps for n elements, and one for each field.
    pub fn set_field(&mut self, number: u64, field: &str, value: Value) -> Result<(), SetFault>
        ensures missing { ((h : _) → number_at self.old.tree h ≡ Some number → ⊥) → result ≡ Err fault.NoNode }
        ensures refused { (h : _) (e : ElementOf) (why : _) → element_at self.old.tree h ≡ Some e → e.number ≡ number
            → with_field e field.now value ≡ Err why → result ≡ Err why }
        ensures set { (h : _) (e w : ElementOf) → element_at self.old.tree h ≡ Some e → e.number ≡ number
            → with_field e field.now value ≡ Ok w → (result ≡ Ok tt) × Writes self.old.tree self.new.tree h w }
        ensures spent { self.new.spent ≡ self.old.spent }
        ensures err { OnErr result (self.new ≡ self.old) }
    {
        let Some(h) = self.find(number) else {
            return Err(SetFault::NoNode);
        };
        let Some(element) = self.tree.value(h) else {
            unreachable!()
        };
        let (place, value) = element.field_set(self.alloc, field, value)?;
        write_value(&mut self.tree, h, place, value);
        Ok(())
    }

    /// Replaces the fields of an element by as many values of the same types; the element is to be built anew then. `false`, and
    /// nothing changes, exactly where the handle isn't live, or the number or a type of the values differs.
    pub fn set_fields(&mut self, h: Handle, fields: Vec<Value>) -> bool
        ensures set { (e : ElementOf) → element_at self.old.tree h ≡ Some e → map type_of fields.items ≡ map type_of e.fields
            → (result ≡ true) × Writes self.old.tree self.new.tree h (with_fields fields.items e) }
        ensures refused { ((e : ElementOf) → element_at self.old.tree h ≡ Some e → map type_of fields.items ≡ map type_of e.fields → ⊥)
            → (result ≡ false) × (self.new ≡ self.old) }
        ensures spent { self.new.spent ≡ self.old.spent }
    {
        let Some(element) = self.tree.value(h) else {
            return false;
        };
        if !element.fits(fields.as_slice()) {
            return false;
        }
        write_values(&mut self.tree, h, fields);
        true
    }
}
