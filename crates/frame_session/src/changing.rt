// The lines that change what the next frame is made of.
ghost use Rattle.std.specs.Prelude.{◌≡◌, ℕ, ◌<◌, ◌^◌, ◌+ℤ◌, pos, Some, IfOk, OnOk, OnErr, List, length, map, slice_set};
ghost use Rattle.fx_expr.specs.declared.values.Value.{Value};
ghost use Rattle.fx_expr.specs.Value.{type_of};
ghost use Rattle.delegates.specs.Answers.{clamped};
ghost use Rattle.expr_check.specs.Names.{place_of};
ghost use Rattle.delegates.specs.Table.{Plug};
ghost use Rattle.widget_model.specs.Typed.{Declarations};
ghost use Rattle.widget_model.specs.Plain.{look_of};
ghost use Rattle.widget_model.specs.View.{look_in};
ghost use Rattle.plain_tree.specs.PlainNode.{PlainNode, widget_of, fields_of};
ghost use Rattle.plain_tree.specs.States.{state_of};
ghost use Rattle.build_form.specs.WellBuilt.{IsWellBuilt};
ghost use Rattle.session_form.specs.Changing.{set_state, set_line, scroll_line, root_line, side_of, resize_line};
ghost use Rattle.session_form.specs.FieldValue.{value_read};
ghost use Rattle.counted_work.specs.Known.{ScrollGoes};
ghost use Rattle.frame_session.specs.NodeState.{set_by};
ghost use Rattle.session_form.specs.Outcome.{state_after, end_of};
ghost use Rattle.frame_session.specs.Memory.{MayLackMemory};
ghost use Rattle.frame_session.specs.StandsFor.{StandsFor, IsSound};
ghost use Rattle.session_form.specs.State.{SessionState};

use crate::field_value::read_value;
use crate::held::{HeldSession, kept_root};
use crate::node_state::{NodeState, node_state};
use build_form::changes_keep_numbering;
use frame_owner::what_stands_is_drawn;
use fx_expr::{Txt, Ty, Value};
use fx_geom::{LEN_MAX, Size};
use program_check::{CheckFault, check_widget};
use program_read::{ReadFault, read_widget};
use session_form::{LineEnd, Refusal};
use std::alloc::{AllocError, Global};
use widget_model::Kind;

// The greatest side of a view, in u.
const SIDE_MAX: i64 = 16_777_216;

// The same values once more.
pub(crate) fn copies(alloc: Global, values: &[Value]) -> Result<Vec<Value>, AllocError>
    ensures { IfOk result (λ vs. vs.items ≡ values.now) }
{
    let mut copies = Vec::with_capacity(alloc, values.len())?;
    for value in values {
        copies.push(value.clone()?)?;
    }
    Ok(copies)
}

// The same values, with another one at a place.
fn with_value(
    alloc: Global,
    values: &[Value],
    place: usize,
    value: Value,
) -> Result<Vec<Value>, AllocError>
    requires { place < length values.now }
    ensures { IfOk result (λ vs. vs.items ≡ slice_set values.now place value) }
{
    let mut values = copies(alloc, values)?;
    values[place] = value;
    Ok(values)
}

// The place of a field that a component declares, and its type.
fn field_named(fields: &[(Txt, Ty)], name: &str) -> Option<(usize, Ty)>
    ensures { result ≡ place_of fields.now name.now }
{
    for i in 0..fields.len() {
        if name == fields[i].0.get() {
            return Some((i, fields[i].1));
        }
    }
    None
}

// The field of a node that has a name, by its place and type.
fn field_of(kind: &Kind, fields: &[Value], name: &str) -> Result<(usize, Ty), Refusal>
    ensures set { (number scroll : ℕ) (bytes : List ℕ) (s : SessionState)
        → set_state (state_of (look_in kind.now) number fields.now scroll) name.now bytes s ≡ set_by number result bytes s }
    ensures place { IfOk result (λ f. (d : Declarations) (n : PlainNode) (bytes : List ℕ) (v : Value) → IsWellBuilt d n → look_of (widget_of n) ≡ look_in kind.now
        → fields_of n ≡ fields.now → value_read f.1 bytes ≡ Some v
        → (f.0 < length fields.now) × (map type_of (slice_set fields.now f.0 v) ≡ map type_of fields.now)) }
{
    match node_state(kind, fields) {
        NodeState::Fields(declaration) => match field_named(declaration.fields.get(), name) {
            Some(field) => Ok(field),
            None => Err(Refusal::NoField),
        },
        NodeState::Nothing | NodeState::Offset => Err(Refusal::NotStateful),
    }
}

// An offset that is changed by so much; it stops at 0 and at the greatest length.
fn scrolled(offset: u64, by: i64) -> u64
    ensures { result ≡ clamped (2 ^ 40) (pos offset +ℤ by) }
{
    if by < 0 {
        return offset.saturating_sub(by.unsigned_abs()).min(LEN_MAX);
    }
    offset.saturating_add(by as u64).min(LEN_MAX)
}

// A side of a view.
fn side(length: i64) -> Option<u64>
    ensures { result ≡ side_of length }
{
    if length < 1 || length > SIDE_MAX {
        return None;
    }
    Some(length as u64)
}

impl HeldSession {
    // `set #n field value`
    pub(crate) fn set(
        &mut self,
        alloc: Global,
        number: u64,
        field: &Txt,
        value: &Txt,
    ) -> Result<LineEnd, AllocError>
        requires { IsSound self.old }
        ensures state { (ds : List Plug) (s : SessionState) → StandsFor self.old ds s
            → OnOk result (StandsFor self.new ds (state_after s (set_line number field.now value.now s))) }
        ensures end { (ds : List Plug) (s : SessionState) → StandsFor self.old ds s
            → IfOk result (λ end. end ≡ end_of (set_line number field.now value.now s)) }
        ensures memory { (ds : List Plug) (s : SessionState) → StandsFor self.old ds s
            → OnErr result (MayLackMemory (set_line number field.now value.now s)) }
        ensures sound { OnOk result (IsSound self.new) }
        ensures pointers { self.new.pointers ≡ self.old.pointers }
        ensures frames { self.new.frames ≡ self.old.frames }
        ensures screen { self.new.owner.screen ≡ self.old.owner.screen }
    {
        let Some(widget) = self.owner.widget(number) else {
            return Ok(LineEnd::Refused(Refusal::NoNode));
        };
        let now = self.owner.fields(number);
        let (place, ty) = match field_of(&widget.kind, now, field.get()) {
            Ok(found) => found,
            Err(refusal) => return Ok(LineEnd::Refused(refusal)),
        };
        let Some(value) = read_value(alloc, ty, value)? else {
            return Ok(LineEnd::Refused(Refusal::WrongType));
        };
        let fields = with_value(alloc, now, place, value)?;
        changes_keep_numbering();
        self.owner.set_fields(number, fields);
        Ok(LineEnd::Done)
    }

    // `scroll #n D`
    pub(crate) fn scroll(&mut self, number: u64, by: i64) -> LineEnd
        requires { IsSound self.old }
        ensures state { (ds : List Plug) (s : SessionState) → StandsFor self.old ds s
            → StandsFor self.new ds (state_after s (scroll_line number by s)) }
        ensures end { (ds : List Plug) (s : SessionState) → StandsFor self.old ds s → result ≡ end_of (scroll_line number by s) }
        ensures goes { (ds : List Plug) (s : SessionState) → StandsFor self.old ds s
            → ScrollGoes number (scroll_line number by s) s self.old.owner.screen.nodes self.new.owner.screen.nodes }
        ensures sound { IsSound self.new }
        ensures pointers { self.new.pointers ≡ self.old.pointers }
        ensures frames { self.new.frames ≡ self.old.frames }
    {
        changes_keep_numbering();
        what_stands_is_drawn();
        if self.owner.widget(number).is_none() {
            return LineEnd::Refused(Refusal::NoNode);
        }
        match self.owner.scroll_at(number) {
            Some(offset) => {
                self.owner.scroll(number, scrolled(offset, by));
                LineEnd::Done
            }
            None => LineEnd::Refused(Refusal::NotAViewport),
        }
    }

    // `root JSON`
    #[tactic(auto, unfolding(session_form::specs::Changing::root_line))]
    pub(crate) fn replace_root(&mut self, alloc: Global, json: &Txt) -> Result<LineEnd, AllocError>
        requires { IsSound self.old }
        ensures state { (ds : List Plug) (s : SessionState) → StandsFor self.old ds s
            → OnOk result (StandsFor self.new ds (state_after s (root_line json.now s))) }
        ensures end { (ds : List Plug) (s : SessionState) → StandsFor self.old ds s → IfOk result (λ end. end ≡ end_of (root_line json.now s)) }
        ensures memory { (ds : List Plug) (s : SessionState) → StandsFor self.old ds s → OnErr result (MayLackMemory (root_line json.now s)) }
        ensures sound { OnOk result (IsSound self.new) }
        ensures pointers { self.new.pointers ≡ self.old.pointers }
        ensures frames { self.new.frames ≡ self.old.frames }
        ensures owner { self.new.owner ≡ self.old.owner }
    {
        let version = self.program.parts().version;
        let template = match read_widget(alloc, json.get().as_bytes(), version) {
            Ok(template) => template,
            Err(ReadFault::Json | ReadFault::Shape { .. }) => {
                return Ok(LineEnd::Refused(Refusal::BadWidget));
            }
            Err(ReadFault::OutOfMemory) => return Err(AllocError),
        };
        let body = match check_widget(alloc, &self.program, template) {
            Ok(body) => body,
            Err(CheckFault::Bad { .. }) => return Ok(LineEnd::Refused(Refusal::WidgetCheck)),
            Err(CheckFault::OutOfMemory) => return Err(AllocError),
        };
        let root = kept_root(alloc, &self.program, &body)?;
        self.root = root;
        self.same_root = false;
        Ok(LineEnd::Done)
    }

    // `resize W H`
    pub(crate) fn resize(&mut self, w: i64, h: i64) -> LineEnd
        requires { IsSound self.old }
        ensures state { (ds : List Plug) (s : SessionState) → StandsFor self.old ds s
            → StandsFor self.new ds (state_after s (resize_line w h s)) }
        ensures end { (s : SessionState) → result ≡ end_of (resize_line w h s) }
        ensures sound { IsSound self.new }
        ensures pointers { self.new.pointers ≡ self.old.pointers }
        ensures frames { self.new.frames ≡ self.old.frames }
        ensures owner { self.new.owner ≡ self.old.owner }
    {
        let (Some(w), Some(h)) = (side(w), side(h)) else {
            return LineEnd::Refused(Refusal::ViewOutOfRange);
        };
        self.view = Size { w, h };
        LineEnd::Done
    }
}
